//! The atoms of an expression.
ghost use Rattle.std.specs.Prelude.{◌≡◌, [], ◌∷◌, List, map, Some, IfOk};
ghost use Rattle.bp_base.specs.Texts.{Text};
ghost use Rattle.plain_trees.specs.Plain.{HasNames};
ghost use Rattle.plain_trees.specs.Words.{with_argument, applied, name_atom, var_words, literal_words, words_of_exp, words_of_aexp, words_of_operand, words_of_infix, words_of_signed};

use bp_base::Name;
use hs_modules::{AExpTree, ExpTree, InfixTree, OperandTree, QVarTree, SignedOperand};
use hs_plain::{Atom, Atoms};
use hs_trees::LiteralTree;
use literal_values::integer_value;
use std::alloc::{AllocError, Global};
use std::collections::BTreeSet;

/// An atom alone.
fn one_atom(alloc: Global, atom: Atom) -> Result<Atoms, AllocError>
    ensures { IfOk result (λ atoms. atoms ≡ atom ∷ []) }
{
    let mut atoms = Atoms::new(alloc);
    atoms.push(atom)?;
    Ok(atoms)
}

/// What a name is; the set holds the arguments of the clause.
fn name_atom(alloc: Global, args: &BTreeSet<Name>, name: &Name) -> Result<Atom, AllocError>
    ensures { (names : List Text) → HasNames args.now names → IfOk result (λ atom. atom ≡ name_atom names name.now) }
{
    let occ = name.copied(alloc)?;
    if args.contains(&occ) {
        Ok(Atom::Argument { occ })
    } else {
        Ok(Atom::Declared { occ })
    }
}

fn var_words(
    alloc: Global,
    args: &BTreeSet<Name>,
    name: &QVarTree,
) -> Result<Option<Atoms>, AllocError>
    ensures { (names : List Text) → HasNames args.now names → IfOk result (λ words. words ≡ var_words names name.now) }
{
    match name {
        QVarTree::Id(name) => {
            let atom = name_atom(alloc, args, name)?;
            Ok(Some(one_atom(alloc, atom)?))
        }
        QVarTree::Sym(_) => Ok(None),
        QVarTree::QualifiedId(_) => Ok(None),
        QVarTree::QualifiedSym(_) => Ok(None),
    }
}

fn literal_words(alloc: Global, literal: &LiteralTree) -> Result<Option<Atoms>, AllocError>
    ensures { IfOk result (λ words. words ≡ literal_words literal.now) }
{
    let LiteralTree::Integer(text) = literal else {
        return Ok(None);
    };
    let value = integer_value(text.as_bytes());
    Ok(Some(one_atom(alloc, Atom::Number { value })?))
}

/// Atoms, and one more argument, if it is one atom.
fn with_atom(atoms: Atoms, argument: Atoms) -> Result<Option<Atoms>, AllocError>
    ensures { IfOk result (λ more. more ≡ with_argument (Some atoms) (Some argument)) }
{
    let mut atoms = atoms;
    let mut argument = argument;
    if argument.len() != 1 {
        return Ok(None);
    }
    match argument.pop() {
        Some(atom) => {
            atoms.push(atom)?;
            Ok(Some(atoms))
        }
        None => Ok(None),
    }
}

fn with_argument(words: Option<Atoms>, argument: Option<Atoms>) -> Result<Option<Atoms>, AllocError>
    ensures { IfOk result (λ more. more ≡ with_argument words argument) }
{
    match (words, argument) {
        (Some(atoms), Some(argument)) => with_atom(atoms, argument),
        _ => Ok(None),
    }
}

/// The atoms of an expression, unless it is not of the plain form. The set holds the arguments of the clause.
#[cycle(words)]
#[tactic(auto, using(crate::proofs::WordLemmas::word_equations))]
pub fn exp_words(
    alloc: Global,
    args: &BTreeSet<Name>,
    tree: &ExpTree,
) -> Result<Option<Atoms>, AllocError>
    ensures { (names : List Text) → HasNames args.now names → IfOk result (λ words. words ≡ words_of_exp names tree.now) }
{
    match tree {
        ExpTree::Infix(chain) => infix_words(alloc, args, chain),
        ExpTree::Annotated(_, _) => Ok(None),
    }
}

#[cycle(words)]
#[tactic(auto, using(crate::proofs::WordLemmas::word_equations))]
fn infix_words(
    alloc: Global,
    args: &BTreeSet<Name>,
    tree: &InfixTree,
) -> Result<Option<Atoms>, AllocError>
    ensures { (names : List Text) → HasNames args.now names → IfOk result (λ words. words ≡ words_of_infix names tree.now) }
{
    if tree.rest.len() == 0 {
        signed_words(alloc, args, &tree.first)
    } else {
        Ok(None)
    }
}

#[cycle(words)]
#[tactic(auto, using(crate::proofs::WordLemmas::word_equations))]
fn signed_words(
    alloc: Global,
    args: &BTreeSet<Name>,
    tree: &SignedOperand,
) -> Result<Option<Atoms>, AllocError>
    ensures { (names : List Text) → HasNames args.now names → IfOk result (λ words. words ≡ words_of_signed names tree.now) }
{
    if tree.negated {
        Ok(None)
    } else {
        operand_words(alloc, args, &tree.operand)
    }
}

#[cycle(words)]
#[tactic(auto, using(crate::proofs::WordLemmas::word_equations))]
fn operand_words(
    alloc: Global,
    args: &BTreeSet<Name>,
    tree: &OperandTree,
) -> Result<Option<Atoms>, AllocError>
    ensures { (names : List Text) → HasNames args.now names → IfOk result (λ words. words ≡ words_of_operand names tree.now) }
{
    match tree {
        OperandTree::Apply(first, rest) => {
            let words = aexp_words(alloc, args, first)?;
            applied_words(alloc, args, words, rest.as_slice())
        }
        OperandTree::Lambda(_) => Ok(None),
        OperandTree::Let(_) => Ok(None),
        OperandTree::If(_) => Ok(None),
        OperandTree::Case(_) => Ok(None),
    }
}

/// An expression applied to others.
#[cycle(words)]
#[tactic(auto, using(crate::proofs::WordLemmas::word_equations))]
fn applied_words(
    alloc: Global,
    args: &BTreeSet<Name>,
    first: Option<Atoms>,
    rest: &[AExpTree],
) -> Result<Option<Atoms>, AllocError>
    ensures { (names : List Text) → HasNames args.now names → IfOk result (λ words. words ≡ applied first (map (words_of_aexp names) rest.now)) }
{
    let mut words = first;
    for each in rest {
        let argument = aexp_words(alloc, args, each)?;
        words = with_argument(words, argument)?;
    }
    Ok(words)
}

#[cycle(words)]
#[tactic(auto, using(crate::proofs::WordLemmas::word_equations))]
fn aexp_words(
    alloc: Global,
    args: &BTreeSet<Name>,
    tree: &AExpTree,
) -> Result<Option<Atoms>, AllocError>
    ensures { (names : List Text) → HasNames args.now names → IfOk result (λ words. words ≡ words_of_aexp names tree.now) }
{
    match tree {
        AExpTree::Var(name) => var_words(alloc, args, name),
        AExpTree::Literal(literal) => literal_words(alloc, literal),
        AExpTree::Parts(first, rest) => {
            if rest.len() == 0 {
                exp_words(alloc, args, first.get())
            } else {
                Ok(None)
            }
        }
        AExpTree::Con(_) => Ok(None),
        AExpTree::List(_, _) => Ok(None),
        AExpTree::LeftSection(_, _) => Ok(None),
        AExpTree::RightSection(_, _) => Ok(None),
    }
}
