//! Types made of `Int` and arrows.
ghost use Rattle.std.specs.Prelude.{◌≡◌};
ghost use Rattle.std.specs.List.{list_all};
ghost use Rattle.plain_trees.specs.Types.{is_int_atype, is_int_btype, is_int_type, arrows_of};

use hs_trees::{ATypeTree, BTypeTree, TypeTree};

/// Whether a type is `Int`, in any number of brackets.
#[cycle(types)]
#[tactic(auto, using(crate::proofs::TypeLemmas::type_equations))]
fn is_int_atype(tree: &ATypeTree) -> bool
    ensures { result ≡ is_int_atype tree.now }
{
    match tree {
        ATypeTree::Con(name) => name.as_bytes() == b"Int".as_slice(),
        ATypeTree::Parts(first, rest) => is_int_type(first.get()) && rest.len() == 0,
        ATypeTree::Unit => false,
        ATypeTree::ListCon => false,
        ATypeTree::ArrowCon => false,
        ATypeTree::TupleCon(_) => false,
        ATypeTree::Var(_) => false,
        ATypeTree::List(_) => false,
    }
}

#[cycle(types)]
#[tactic(auto, using(crate::proofs::TypeLemmas::type_equations))]
fn is_int_btype(tree: &BTypeTree) -> bool
    ensures { result ≡ is_int_btype tree.now }
{
    is_int_atype(&tree.first) && tree.rest.len() == 0
}

#[cycle(types)]
#[tactic(auto, using(crate::proofs::TypeLemmas::type_equations))]
fn is_int_type(tree: &TypeTree) -> bool
    ensures { result ≡ is_int_type tree.now }
{
    is_int_btype(&tree.first) && tree.rest.len() == 0
}

fn are_int_btypes(trees: &[BTypeTree]) -> bool
    ensures { result ≡ list_all is_int_btype trees.now }
{
    for tree in trees {
        if !is_int_btype(tree) {
            return false;
        }
    }
    true
}

/// How many arrows stand in `Int -> .. -> Int`; none where the type is another one.
pub fn arrows_of(tree: &TypeTree) -> Option<u64>
    ensures { result ≡ arrows_of tree.now }
{
    if is_int_btype(&tree.first) && are_int_btypes(tree.rest.as_slice()) {
        Some(tree.rest.len() as u64)
    } else {
        None
    }
}
