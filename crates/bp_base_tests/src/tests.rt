use bp_base::*;
use sqlite_items::{Boxed, Items};
use std::alloc::{AllocError, Global};
use std::cmp::Ordering;
use std::test::Fail;

fn name(alloc: Global, text: &[u8]) -> Result<Name, AllocError> {
    Name::from_bytes(alloc, text)
}

/// `p[H=<A>]/M`.
fn indefinite(alloc: Global) -> Result<Ident, AllocError> {
    let mut fills = Items::new(alloc);
    fills.push(Fill {
        hole: name(alloc, b"H")?,
        ident: Ident::Hole {
            name: name(alloc, b"A")?,
        },
    })?;
    let unit = Unit {
        component: name(alloc, b"p")?,
        fills,
    };
    Ok(Ident::Module {
        unit: Boxed::new(alloc, unit)?,
        module: name(alloc, b"M")?,
    })
}

/// A value `p[H=<A>]/M.x` of the type of that name, at any kind.
fn value(alloc: Global, level: u8) -> Result<Entity, AllocError> {
    let orig = OrigName {
        at: indefinite(alloc)?,
        space: Space::Values,
        occ: name(alloc, b"x")?,
    };
    let head = Ty::Con {
        name: orig.copied(alloc)?,
        kind: Kind::Arrow {
            from: Boxed::new(alloc, Kind::Star)?,
            to: Boxed::new(alloc, Kind::Star)?,
        },
    };
    let body = Ty::App {
        fun: Boxed::new(alloc, head)?,
        arg: Boxed::new(alloc, Ty::Var { index: 0 })?,
    };
    Ok(Entity::Value {
        name: orig,
        scheme: Scheme { vars: 1, body },
        fixity: Fixity {
            assoc: Assoc::Right,
            level,
        },
    })
}

#[test]
fn names_stand_in_byte_order(rt: HostRuntime) -> Result<(), Fail> {
    let alloc = rt.alloc();
    for (a, b, want) in [
        (b"A".as_slice(), b"B".as_slice(), Ordering::Less),
        (b"A", b"A", Ordering::Equal),
        (b"Ab", b"A", Ordering::Greater),
        (b"a", b"Z", Ordering::Greater),
        (b"", b"+", Ordering::Less),
    ] {
        let a = name(alloc, a)?;
        let b = name(alloc, b)?;
        assert!(rt; compare(&a, &b) == want);
    }
    Ok(())
}

#[test]
fn codes_are_those_of_the_notes(rt: HostRuntime) {
    for (code, number, word) in [
        (Code::ProjectSyntax, 1, "ProjectSyntax"),
        (Code::NoSource, 6, "NoSource"),
        (Code::Syntax, 10, "Syntax"),
        (Code::Unfilled, 16, "Unfilled"),
        (Code::IllTyped, 28, "IllTyped"),
        (Code::OldEntry, 33, "OldEntry"),
    ] {
        assert!(rt; defect_code(&code) == number);
        assert!(rt; code.name() == word);
    }
    assert!(rt; Which::FileBytes.name() == "file-bytes");
    assert!(rt;
        fixity_of_default()
            == Fixity {
                assoc: Assoc::Left,
                level: 9
            }
    );
}

#[test]
fn holes_are_found_at_depth(rt: HostRuntime) -> Result<(), Fail> {
    let alloc = rt.alloc();
    let ident = indefinite(alloc)?;
    assert!(rt; occurs(&name(alloc, b"A")?, &ident));
    assert!(rt; !occurs(&name(alloc, b"H")?, &ident));
    assert!(rt; !is_closed(&ident));
    let closed = Ident::Module {
        unit: Boxed::new(
            alloc,
            Unit {
                component: name(alloc, b"q")?,
                fills: Items::new(alloc),
            },
        )?,
        module: name(alloc, b"N")?,
    };
    assert!(rt; is_closed(&closed));
    assert!(rt; !same_ident(&closed, &ident));
    assert!(rt; same_ident(&ident.copied(alloc)?, &ident));
    Ok(())
}

/// `p[H=<A>]/M.C` with a strict field of type Int and a field whose type is the data type's variable, both as declared.
fn constructors(alloc: Global) -> Result<Cons, AllocError> {
    let int = Ty::Con {
        name: special_name(alloc, Space::Types, Special::List)?,
        kind: Kind::Star,
    };
    let mut first = Items::new(alloc);
    first.push(Field {
        strict: true,
        ty: int,
    })?;
    let mut second = Items::new(alloc);
    second.push(Field {
        strict: false,
        ty: Ty::Var { index: 0 },
    })?;
    let mut cons = Items::new(alloc);
    for (occ, fields) in [(b"A", first), (b"B", second)] {
        cons.push(Con {
            occ: name(alloc, occ)?,
            fields,
            fixity: fixity_of_default(),
        })?;
    }
    Ok(cons)
}

fn type_name(alloc: Global) -> Result<OrigName, AllocError> {
    Ok(OrigName {
        at: indefinite(alloc)?,
        space: Space::Types,
        occ: name(alloc, b"T")?,
    })
}

/// `data T a = A !Int | B a`, a synonym, an abstract type, and a value.
fn entities(alloc: Global) -> Result<Entities, AllocError> {
    let mut all = Items::new(alloc);
    all.push(Entity::DataType {
        name: type_name(alloc)?,
        kind: Kind::Star,
        params: 1,
        is_new: false,
        cons: constructors(alloc)?,
    })?;
    all.push(Entity::Synonym {
        name: type_name(alloc)?,
        kind: Kind::Star,
        params: 1,
        body: Ty::Var { index: 0 },
    })?;
    all.push(Entity::Abstract {
        name: type_name(alloc)?,
        kind: Kind::Star,
    })?;
    all.push(value(alloc, 5)?)?;
    Ok(all)
}

fn exports(alloc: Global) -> Result<Exports, AllocError> {
    let mut all = Items::new(alloc);
    for entity in entities(alloc)?.as_slice() {
        let mut cons = Items::new(alloc);
        cons.push(name(alloc, b"C")?)?;
        all.push(Export {
            occ: name(alloc, b"x")?,
            entity: entity.copied(alloc)?,
            cons,
        })?;
    }
    Ok(all)
}

fn provisions(alloc: Global) -> Result<Provisions, AllocError> {
    let mut all = Items::new(alloc);
    all.push(Provision {
        name: name(alloc, b"M")?,
        ident: indefinite(alloc)?,
    })?;
    Ok(all)
}

fn renames(alloc: Global) -> Result<Renames, AllocError> {
    let mut all = Items::new(alloc);
    all.push(Rename {
        from: name(alloc, b"H")?,
        to: name(alloc, b"A")?,
    })?;
    Ok(all)
}

fn includes(alloc: Global) -> Result<Includes, AllocError> {
    let mut all = Items::new(alloc);
    all.push(Include {
        unit: Unit {
            component: name(alloc, b"p")?,
            fills: Items::new(alloc),
        },
        provides: provisions(alloc)?,
        needs: renames(alloc)?,
    })?;
    Ok(all)
}

fn linkings(alloc: Global) -> Result<Items<Linking>, AllocError> {
    let mut holes = Items::new(alloc);
    holes.push(name(alloc, b"A")?)?;
    let mut all = Items::new(alloc);
    all.push(Linking {
        holes,
        required: provisions(alloc)?,
        includes: includes(alloc)?,
    })?;
    Ok(all)
}

/// A copy of a list that isn't empty equals it, and the list without its last item doesn't.
fn copies_are_equal<T: Copied + Same>(
    alloc: Global,
    mut items: Items<T>,
) -> Result<bool, AllocError> {
    let copy = copied_all(alloc, &items)?;
    let equal = same_all(copy.as_slice(), items.as_slice());
    let _last = items.pop();
    Ok(equal && !same_all(copy.as_slice(), items.as_slice()))
}

#[test]
fn copies_are_equal_and_shorter_lists_are_not(rt: HostRuntime) -> Result<(), Fail> {
    let alloc = rt.alloc();
    assert!(rt; copies_are_equal(alloc, entities(alloc)?)?);
    assert!(rt; copies_are_equal(alloc, exports(alloc)?)?);
    assert!(rt; copies_are_equal(alloc, provisions(alloc)?)?);
    assert!(rt; copies_are_equal(alloc, renames(alloc)?)?);
    assert!(rt; copies_are_equal(alloc, includes(alloc)?)?);
    assert!(rt; copies_are_equal(alloc, linkings(alloc)?)?);
    let mut interfaces = Items::new(alloc);
    interfaces.push(Interface {
        module: indefinite(alloc)?,
        exports: exports(alloc)?,
    })?;
    assert!(rt; copies_are_equal(alloc, interfaces)?);
    let mut signatures = Items::new(alloc);
    signatures.push(Signature {
        hole: name(alloc, b"H")?,
        entries: entities(alloc)?,
    })?;
    assert!(rt; copies_are_equal(alloc, signatures)?);
    Ok(())
}

fn texts_are_copied(alloc: Global) -> Result<bool, AllocError> {
    let path = Path::from_bytes(alloc, b"p/M.hs")?;
    let same_path = path.copied(alloc)?;
    let bytes = Bytes::from_bytes(alloc, b"x = 1")?;
    let same_bytes = bytes.copied(alloc)?;
    Ok(path == same_path && bytes == same_bytes)
}

fn names_are_copied(alloc: Global) -> Result<bool, AllocError> {
    let mut names = Items::new(alloc);
    names.push(name(alloc, b"M")?)?;
    let copy = copied_names(alloc, &names)?;
    Ok(same_names(copy.as_slice(), names.as_slice()))
}

fn renames_are_copied(alloc: Global) -> Result<bool, AllocError> {
    let renames = renames(alloc)?;
    let copy = copied_renames(alloc, &renames)?;
    Ok(same_all(copy.as_slice(), renames.as_slice()))
}

fn provisions_are_copied(alloc: Global) -> Result<bool, AllocError> {
    let provided = provisions(alloc)?;
    let copy = copied_provisions(alloc, &provided)?;
    Ok(same_all(copy.as_slice(), provided.as_slice()))
}

/// How many fills a copy of those of `p[H=<A>]` has.
fn copied_count(alloc: Global) -> Result<usize, AllocError> {
    let ident = indefinite(alloc)?;
    match &ident {
        Ident::Module { unit, .. } => {
            let copy = copied_fills(alloc, &unit.get().fills)?;
            Ok(copy.len())
        }
        Ident::Hole { .. } => Ok(0),
    }
}

#[test]
fn texts_and_lists_are_copied(rt: HostRuntime) -> Result<(), Fail> {
    let alloc = rt.alloc();
    assert!(rt; texts_are_copied(alloc)?);
    assert!(rt; names_are_copied(alloc)?);
    assert!(rt; renames_are_copied(alloc)?);
    assert!(rt; provisions_are_copied(alloc)?);
    assert!(rt; copied_count(alloc)? == 1);
    Ok(())
}

fn item(alloc: Global, at: usize) -> Result<Item, AllocError> {
    match at {
        0 => Ok(Item::Nothing),
        1 => Ok(Item::Offset { at: 7 }),
        2 => Ok(Item::Line { number: 3 }),
        3 => Ok(Item::Named {
            occ: name(alloc, b"x")?,
        }),
        _ => Ok(Item::Old {
            dep: name(alloc, b"q")?,
            wanted: 2,
            present: 4,
        }),
    }
}

#[test]
fn copies_of_defects_are_equal(rt: HostRuntime) -> Result<(), Fail> {
    let alloc = rt.alloc();
    for at in 0..5 {
        let defect = Defect {
            code: Code::Syntax,
            place: Place {
                component: name(alloc, b"p")?,
                module: name(alloc, b"M")?,
                item: item(alloc, at)?,
            },
        };
        assert!(rt; defect.copied(alloc)? == defect);
        let refusal = Refusal::Defect { defect };
        match (refusal.copied(alloc)?, &refusal) {
            (Refusal::Defect { defect }, Refusal::Defect { defect: first }) => {
                assert!(rt; defect == *first);
            }
            _ => assert!(rt; false),
        }
    }
    Ok(())
}

#[test]
fn names_have_their_forms(rt: HostRuntime) {
    for (text, package, component, module) in [
        (b"one".as_slice(), true, true, false),
        (b"a-1-2b", true, true, false),
        (b"9", true, true, false),
        (b"a--b", false, false, false),
        (b"-a", false, false, false),
        (b"a-", false, false, false),
        (b"", false, false, false),
        (b"p:s", false, true, false),
        (b"p:exe", false, true, false),
        (b"p:exe:e-1", false, true, false),
        (b"p:lib:e", false, false, false),
        (b"p:", false, false, false),
        (b":s", false, false, false),
        (b"p:exe:", false, false, false),
        (b"Str.Chars", false, false, true),
        (b"M1'_", false, false, true),
        (b"M", true, true, true),
        (b"M.", false, false, false),
        (b"M.a", false, false, false),
        (b".M", false, false, false),
    ] {
        assert!(rt; is_package_name(text) == package);
        assert!(rt; is_component_name(text) == component);
        assert!(rt; is_module_name(text) == module);
    }
}

#[test]
fn special_names_have_their_texts(rt: HostRuntime) -> Result<(), Fail> {
    let alloc = rt.alloc();
    let both: [(Special, &[u8]); 5] = [
        (Special::List, b"[]"),
        (Special::Unit, b"()"),
        (Special::Tuple { parts: 2 }, b"(,)"),
        (Special::Tuple { parts: 3 }, b"(,,)"),
        (Special::Tuple { parts: 15 }, b"(,,,,,,,,,,,,,,)"),
    ];
    for (special, text) in both.iter() {
        assert!(rt; special_text(alloc, *special)?.as_bytes() == *text);
        assert!(rt; special_of(Space::Types, text) == Some(*special));
        assert!(rt; special_of(Space::Values, text) == Some(*special));
    }
    assert!(rt; special_of(Space::Types, b"->") == Some(Special::Arrow));
    assert!(rt; special_of(Space::Values, b"->") == None);
    assert!(rt; special_of(Space::Values, b":") == Some(Special::Cons));
    assert!(rt; special_of(Space::Types, b":") == None);
    let others: [&[u8]; 7] = [
        b"",
        b"(",
        b"(,",
        b"[ ]",
        b"(,,,,,,,,,,,,,,,)",
        b"()x",
        b"Int",
    ];
    for text in others.iter() {
        assert!(rt; special_of(Space::Types, text) == None);
        assert!(rt; special_of(Space::Values, text) == None);
    }
    let pair = special_name(alloc, Space::Values, Special::Tuple { parts: 2 })?;
    assert!(rt; pair.occ.as_bytes() == b"(,)".as_slice());
    assert!(rt; pair.space == Space::Values);
    let prelude = base_prelude(alloc)?;
    assert!(rt; same_ident(&pair.at, &prelude));
    let at_prelude = match &prelude {
        Ident::Module { unit, module } => {
            unit.get().component.as_bytes() == b"base".as_slice()
                && module.as_bytes() == b"Prelude".as_slice()
        }
        Ident::Hole { .. } => false,
    };
    assert!(rt; at_prelude);
    Ok(())
}
