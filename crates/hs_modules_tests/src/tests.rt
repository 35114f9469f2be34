use bp_base::{Bytes, Name, Names};
use hs_modules::*;
use hs_trees::{
    AKindTree, APatTree, ATypeTree, BTypeTree, GConTree, KindTree, LPatTree, LiteralTree, OpLPat,
    PatTree, QConOpTree, TypeTree, VarTree,
};
use sqlite_items::{Boxed, Items};
use std::alloc::{AllocError, Global};
use std::process::Abort;
use std::test::Fail;

/// A size and a depth.
type Extent = Result<(u64, u64), AllocError>;

fn expect(rt: &impl Abort, found: (u64, u64), wanted: (u64, u64)) -> Result<(), Fail> {
    assert_eq!(rt; found, wanted);
    Ok(())
}

fn name(alloc: Global) -> Result<Name, AllocError> {
    Name::from_bytes(alloc, b"a")
}

fn operand(alloc: Global, first: AExpTree) -> OperandTree {
    OperandTree::Apply(first, Items::new(alloc))
}

/// `()` behind a sign that may be there
fn signed(alloc: Global, negated: bool) -> SignedOperand {
    SignedOperand {
        negated,
        operand: operand(alloc, AExpTree::Con(GConTree::Unit)),
    }
}

/// `()` or `- ()`
fn alone(alloc: Global, negated: bool) -> InfixTree {
    InfixTree {
        first: signed(alloc, negated),
        rest: Items::new(alloc),
    }
}

/// `()`, an expression of five nodes
fn unit(alloc: Global) -> ExpTree {
    ExpTree::Infix(alone(alloc, false))
}

fn boxed(alloc: Global) -> Result<Boxed<ExpTree>, AllocError> {
    Boxed::new(alloc, unit(alloc))
}

/// `_`, a pattern of three nodes
fn wild(alloc: Global) -> PatTree {
    PatTree {
        first: LPatTree::APat(APatTree::Wild),
        rest: Items::new(alloc),
    }
}

fn rhs(exp: ExpTree) -> RhsTree {
    RhsTree {
        body: RhsBody::Equals(exp),
        locals: Locals::Absent,
    }
}

/// What an expression has over the five nodes that `_ =` has beside it, and its depth.
fn measured(alloc: Global, right: ExpTree) -> (u64, u64) {
    let decl = DeclTree::Pattern(wild(alloc), rhs(right));
    (size_of_decl(&decl).saturating_sub(5), depth_of_decl(&decl))
}

fn measured_operand(alloc: Global, operand: OperandTree) -> (u64, u64) {
    let first = SignedOperand {
        negated: false,
        operand,
    };
    let rest = Items::new(alloc);
    measured(alloc, ExpTree::Infix(InfixTree { first, rest }))
}

fn measured_aexp(alloc: Global, aexp: AExpTree) -> (u64, u64) {
    measured_operand(alloc, operand(alloc, aexp))
}

fn brackets(alloc: Global) -> Extent {
    let parts = AExpTree::Parts(boxed(alloc)?, Items::new(alloc));
    Ok(measured_aexp(alloc, parts))
}

fn tuple(alloc: Global) -> Extent {
    let mut more = Items::new(alloc);
    more.push(unit(alloc))?;
    let parts = AExpTree::Parts(boxed(alloc)?, more);
    Ok(measured_aexp(alloc, parts))
}

fn list(alloc: Global) -> Extent {
    let parts = AExpTree::List(boxed(alloc)?, Items::new(alloc));
    Ok(measured_aexp(alloc, parts))
}

fn long_list(alloc: Global) -> Extent {
    let mut parts = Items::new(alloc);
    for _ in 0..10_000u32 {
        parts.push(unit(alloc))?;
    }
    let list = AExpTree::List(boxed(alloc)?, parts);
    Ok(measured_aexp(alloc, list))
}

fn variable(alloc: Global) -> Extent {
    let aexp = AExpTree::Var(QVarTree::Id(name(alloc)?));
    Ok(measured_aexp(alloc, aexp))
}

fn literal(alloc: Global) -> Extent {
    let aexp = AExpTree::Literal(LiteralTree::Integer(Bytes::from_bytes(alloc, b"1")?));
    Ok(measured_aexp(alloc, aexp))
}

#[test]
fn atoms(rt: HostRuntime) -> Result<(), Fail> {
    let alloc = rt.alloc();
    expect(&rt, measured(alloc, unit(alloc)), (5, 0))?;
    expect(&rt, variable(alloc)?, (4, 0))?;
    expect(&rt, literal(alloc)?, (4, 0))?;
    expect(&rt, brackets(alloc)?, (9, 1))?;
    expect(&rt, tuple(alloc)?, (14, 1))?;
    expect(&rt, list(alloc)?, (9, 1))?;
    expect(&rt, long_list(alloc)?, (4 + 5 * 10_001, 1))?;
    Ok(())
}

/// `() : ()`, where the second operand may have a sign
fn chain(alloc: Global, negated: bool) -> Result<InfixTree, AllocError> {
    let mut rest = Items::new(alloc);
    rest.push(OpOperand {
        op: QOpTree::Con(QConOpTree::Colon),
        operand: signed(alloc, negated),
    })?;
    Ok(InfixTree {
        first: signed(alloc, false),
        rest,
    })
}

fn chained(alloc: Global, negated: bool) -> Extent {
    Ok(measured(alloc, ExpTree::Infix(chain(alloc, negated)?)))
}

fn applied(alloc: Global) -> Extent {
    let mut arguments = Items::new(alloc);
    arguments.push(AExpTree::Con(GConTree::Unit))?;
    let apply = OperandTree::Apply(AExpTree::Con(GConTree::Unit), arguments);
    Ok(measured_operand(alloc, apply))
}

fn btype(alloc: Global) -> BTypeTree {
    BTypeTree {
        first: ATypeTree::Unit,
        rest: Items::new(alloc),
    }
}

/// `() -> ()`, which has five nodes
fn arrow(alloc: Global) -> Result<TypeTree, AllocError> {
    let mut rest = Items::new(alloc);
    rest.push(btype(alloc))?;
    Ok(TypeTree {
        first: btype(alloc),
        rest,
    })
}

fn annotated(alloc: Global) -> Extent {
    let exp = ExpTree::Annotated(alone(alloc, false), arrow(alloc)?);
    Ok(measured(alloc, exp))
}

fn left_section(alloc: Global) -> Extent {
    let single = Boxed::new(alloc, alone(alloc, false))?;
    let section = AExpTree::LeftSection(single, QOpTree::Con(QConOpTree::Colon));
    Ok(measured_aexp(alloc, section))
}

fn right_section(alloc: Global) -> Extent {
    let double = Boxed::new(alloc, chain(alloc, false)?)?;
    let section = AExpTree::RightSection(QOpTree::Con(QConOpTree::Colon), double);
    Ok(measured_aexp(alloc, section))
}

#[test]
fn chains_and_sections(rt: HostRuntime) -> Result<(), Fail> {
    let alloc = rt.alloc();
    expect(&rt, applied(alloc)?, (7, 0))?;
    expect(&rt, chained(alloc, false)?, (8, 1))?;
    expect(&rt, chained(alloc, true)?, (8, 2))?;
    expect(
        &rt,
        measured(alloc, ExpTree::Infix(alone(alloc, true))),
        (5, 1),
    )?;
    expect(&rt, annotated(alloc)?, (10, 2))?;
    expect(&rt, left_section(alloc)?, (8, 1))?;
    expect(&rt, right_section(alloc)?, (11, 2))?;
    Ok(())
}

/// `{}`
fn no_decls(alloc: Global) -> Result<DeclBlock, AllocError> {
    Ok(DeclBlock {
        first: Boxed::new(alloc, DeclSlot::NoDecl)?,
        rest: Items::new(alloc),
    })
}

fn lambda(alloc: Global) -> Extent {
    let lambda = LambdaTree {
        first: APatTree::Wild,
        rest: Items::new(alloc),
        body: boxed(alloc)?,
    };
    Ok(measured_operand(alloc, OperandTree::Lambda(lambda)))
}

fn let_in(alloc: Global) -> Extent {
    let decls = no_decls(alloc)?;
    let body = boxed(alloc)?;
    let binding = LetTree { decls, body };
    Ok(measured_operand(alloc, OperandTree::Let(binding)))
}

fn choice(alloc: Global) -> Extent {
    let test = boxed(alloc)?;
    let then_part = boxed(alloc)?;
    let else_part = boxed(alloc)?;
    let choice = IfTree {
        test,
        then_part,
        else_part,
    };
    Ok(measured_operand(alloc, OperandTree::If(choice)))
}

/// `_ <- ()`, the second of the guards
fn more_guards(alloc: Global) -> Result<Items<GuardTree>, AllocError> {
    let mut rest = Items::new(alloc);
    rest.push(GuardTree::Bind(wild(alloc), alone(alloc, false)))?;
    Ok(rest)
}

/// `_ | (), _ <- () -> () where {}`
fn alternative(alloc: Global) -> Result<AltTree, AllocError> {
    let guarded = GdaTree {
        first: GuardTree::Test(alone(alloc, false)),
        rest: more_guards(alloc)?,
        exp: unit(alloc),
    };
    let body = AltBody::GuardedArrows(guarded, Items::new(alloc));
    Ok(AltTree {
        pat: wild(alloc),
        body,
        locals: Locals::Where(no_decls(alloc)?),
    })
}

/// `{ ; alternative }`
fn alternatives(alloc: Global) -> Result<AltBlock, AllocError> {
    let mut rest = Items::new(alloc);
    rest.push(AltSlot::Alt(alternative(alloc)?))?;
    Ok(AltBlock {
        first: Boxed::new(alloc, AltSlot::NoAlt)?,
        rest,
    })
}

fn case_of(alloc: Global) -> Extent {
    let alts = alternatives(alloc)?;
    let scrutinee = boxed(alloc)?;
    let case = CaseTree { scrutinee, alts };
    Ok(measured_operand(alloc, OperandTree::Case(case)))
}

#[test]
fn open_operands(rt: HostRuntime) -> Result<(), Fail> {
    let alloc = rt.alloc();
    expect(&rt, lambda(alloc)?, (10, 1))?;
    expect(&rt, let_in(alloc)?, (9, 1))?;
    expect(&rt, choice(alloc)?, (19, 1))?;
    expect(&rt, case_of(alloc)?, (32, 2))?;
    Ok(())
}

fn measured_decl(decl: DeclTree) -> (u64, u64) {
    (size_of_decl(&decl), depth_of_decl(&decl))
}

fn minus_one(alloc: Global) -> Result<LPatTree, AllocError> {
    Ok(LPatTree::Negative(Bytes::from_bytes(alloc, b"1")?))
}

/// `(-1)`
fn negative(alloc: Global) -> Result<APatTree, AllocError> {
    let pat = PatTree {
        first: minus_one(alloc)?,
        rest: Items::new(alloc),
    };
    Ok(APatTree::Parts(Boxed::new(alloc, pat)?, Items::new(alloc)))
}

/// `a (-1)`
fn prefix(alloc: Global) -> Result<FunLhsTree, AllocError> {
    let argument = negative(alloc)?;
    let name = VarTree::Id(name(alloc)?);
    Ok(FunLhsTree::Prefix(name, argument, Items::new(alloc)))
}

/// `a (-1) | (), _ <- () = () where {}`
fn guarded_clause(alloc: Global) -> Extent {
    let guarded = GdTree {
        first: GuardTree::Test(alone(alloc, false)),
        rest: more_guards(alloc)?,
        exp: unit(alloc),
    };
    let body = RhsBody::GuardedEquals(guarded, Items::new(alloc));
    let locals = Locals::Where(no_decls(alloc)?);
    let left = prefix(alloc)?;
    Ok(measured_decl(DeclTree::Function(left, RhsTree { body, locals })))
}

/// `a@~_`
fn named(alloc: Global) -> Result<APatTree, AllocError> {
    let lazy = APatTree::Lazy(Boxed::new(alloc, APatTree::Wild)?);
    let inner = Boxed::new(alloc, lazy)?;
    Ok(APatTree::As(VarTree::Id(name(alloc)?), inner))
}

/// `(a _) a@~_ = ()`
fn bracketed_clause(alloc: Global) -> Extent {
    let last = named(alloc)?;
    let name = VarTree::Id(name(alloc)?);
    let inner = FunLhsTree::Prefix(name, APatTree::Wild, Items::new(alloc));
    let left = FunLhsTree::Parens(Boxed::new(alloc, inner)?, last, Items::new(alloc));
    Ok(measured_decl(DeclTree::Function(left, rhs(unit(alloc)))))
}

fn binding(alloc: Global) -> (u64, u64) {
    measured_decl(DeclTree::Pattern(wild(alloc), rhs(unit(alloc))))
}

#[test]
fn declarations(rt: HostRuntime) -> Result<(), Fail> {
    let alloc = rt.alloc();
    expect(&rt, guarded_clause(alloc)?, (1 + 4 + 1 + (1 + 13 + 5), 1))?;
    expect(&rt, bracketed_clause(alloc)?, (1 + 1 + 2 + 3 + 1 + 5, 2))?;
    expect(&rt, binding(alloc), (10, 0))?;
    Ok(())
}

fn only(alloc: Global) -> Result<SubsTree, AllocError> {
    let mut names = Items::new(alloc);
    names.push(CNameTree::Var(VarTree::Id(name(alloc)?)))?;
    Ok(SubsTree::Only(names))
}

/// `(a, a(..), a(a),)`
fn exports(alloc: Global) -> Result<ExportsTree, AllocError> {
    let mut exports = Items::new(alloc);
    exports.push(ExportTree::Var(QVarTree::Id(name(alloc)?)))?;
    exports.push(ExportTree::TypeWith(name(alloc)?, SubsTree::All))?;
    let subs = only(alloc)?;
    exports.push(ExportTree::TypeWith(name(alloc)?, subs))?;
    Ok(ExportsTree {
        exports,
        trailing: true,
    })
}

/// `import a (a())`
fn import(alloc: Global) -> Result<TopSlot, AllocError> {
    let mut items = Items::new(alloc);
    items.push(ItemTree::TypeWith(name(alloc)?, SubsTree::Only(Items::new(alloc))))?;
    Ok(TopSlot::Import(ImpDeclTree {
        qualified: false,
        modid: name(alloc)?,
        alias: None,
        list: ImportList::Only(items, false),
    }))
}

fn no_names(alloc: Global) -> Names {
    Items::new(alloc)
}

/// `a ()`
fn prefix_constr(alloc: Global) -> Result<ConstrTree, AllocError> {
    let mut fields = Items::new(alloc);
    fields.push(Field {
        strict: false,
        atype: ATypeTree::Unit,
    })?;
    Ok(ConstrTree::Prefix(ConTree::Id(name(alloc)?), fields))
}

/// `data a = a () | !() a ()`
fn data(alloc: Global) -> Result<TopSlot, AllocError> {
    let mut constrs = Items::new(alloc);
    let op = ConOpTree::Sym(name(alloc)?);
    let left = ConstrSide::Strict(ATypeTree::Unit);
    constrs.push(ConstrTree::Infix(left, op, ConstrSide::Lazy(btype(alloc))))?;
    let first = prefix_constr(alloc)?;
    let data = TopDeclTree::Data(name(alloc)?, no_names(alloc), first, constrs);
    Ok(TopSlot::Decl(data))
}

/// `newtype a = a ()`
fn newtype(alloc: Global) -> Result<TopSlot, AllocError> {
    let con = ConTree::Id(name(alloc)?);
    let newtype = TopDeclTree::Newtype(name(alloc)?, no_names(alloc), con, ATypeTree::Unit);
    Ok(TopSlot::Decl(newtype))
}

/// `a :: () -> ()`
fn signature(alloc: Global) -> Result<TopSlot, AllocError> {
    let sort = arrow(alloc)?;
    let name = VarTree::Id(name(alloc)?);
    let signature = DeclTree::Signature(name, Items::new(alloc), sort);
    Ok(TopSlot::Decl(TopDeclTree::Decl(signature)))
}

fn block(alloc: Global) -> Result<TopBlock, AllocError> {
    let mut rest = Items::new(alloc);
    rest.push(TopSlot::Empty)?;
    rest.push(data(alloc)?)?;
    rest.push(newtype(alloc)?)?;
    rest.push(signature(alloc)?)?;
    Ok(TopBlock {
        first: import(alloc)?,
        rest,
    })
}

/// A module with exports, an import, nothing, data, a newtype and a type signature.
fn module(alloc: Global) -> Extent {
    let exports = exports(alloc)?;
    let block = block(alloc)?;
    let module = Module::Exporting(name(alloc)?, exports, block);
    Ok((size(&module), depth(&module)))
}

/// `(*) -> *`
fn function_kind(alloc: Global) -> Result<KindTree, AllocError> {
    let star = KindTree {
        first: AKindTree::Star,
        rest: Items::new(alloc),
    };
    let mut rest = Items::new(alloc);
    rest.push(AKindTree::Star)?;
    Ok(KindTree {
        first: AKindTree::Parens(Boxed::new(alloc, star)?),
        rest,
    })
}

/// `signature a where { data a :: (*) -> * ; data a }`
fn sig(alloc: Global) -> Extent {
    let mut rest = Items::new(alloc);
    let data = TopDeclTree::EmptyData(name(alloc)?, no_names(alloc));
    rest.push(SigSlot::Decl(SigDeclTree::Top(data)))?;
    let kind = function_kind(alloc)?;
    let first = SigSlot::Decl(SigDeclTree::Kinded(name(alloc)?, kind));
    let module = Module::Signature(name(alloc)?, SigBlock { first, rest });
    Ok((size(&module), depth(&module)))
}

#[test]
fn modules(rt: HostRuntime) -> Result<(), Fail> {
    let alloc = rt.alloc();
    let exports = 1 + 1 + 2;
    let data = 1 + 2 + 4;
    expect(
        &rt,
        module(alloc)?,
        (1 + (exports + 3) + 3 + data + 2 + (2 + 5), 1),
    )?;
    expect(&rt, sig(alloc)?, (1 + (1 + 2 + 2 + 2) + 2, 2))?;
    Ok(())
}

fn ty(alloc: Global) -> Extent {
    let ty = arrow(alloc)?;
    Ok((size_of_type(&ty), depth_of_type(&ty)))
}

/// `_ : -1`
fn pat(alloc: Global) -> Extent {
    let mut rest = Items::new(alloc);
    rest.push(OpLPat {
        op: QConOpTree::Colon,
        pat: minus_one(alloc)?,
    })?;
    let first = LPatTree::APat(APatTree::Wild);
    let pat = PatTree { first, rest };
    Ok((size_of_pat(&pat), depth_of_pat(&pat)))
}

fn kind(alloc: Global) -> Extent {
    let kind = function_kind(alloc)?;
    Ok((size_of_kind(&kind), depth_of_kind(&kind)))
}

#[test]
fn parts_of_modules(rt: HostRuntime) -> Result<(), Fail> {
    let alloc = rt.alloc();
    expect(&rt, ty(alloc)?, (5, 1))?;
    expect(&rt, pat(alloc)?, (4, 1))?;
    expect(&rt, kind(alloc)?, (6, 2))?;
    Ok(())
}
