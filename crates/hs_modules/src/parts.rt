//! Size and depth of types, kinds, patterns and declarations by themselves.
ghost use Rattle.std.specs.Prelude.{◌≡◌, min};
ghost use Rattle.hs_trees.specs.Types.{depth_of_type};
ghost use Rattle.hs_trees.specs.Kinds.{depth_of_kind};
ghost use Rattle.hs_trees.specs.Patterns.{depth_of_pat};
ghost use Rattle.hs_modules.specs.ExpressionExtents.{depth_of_decl, size_of_decl};
ghost use Rattle.hs_modules.specs.Measures.{most};
ghost use Rattle.hs_modules.specs.PartExtents.{size_of_kind, size_of_pat, size_of_type};

use crate::expressions::DeclTree;
use crate::measure_expressions::measure_decl;
use crate::measure_patterns::measure_pat;
use crate::measure_types::{measure_kind, measure_type};
use hs_trees::{KindTree, PatTree, TypeTree};

/// How many nodes a type has; the greatest u64 if there are more. It takes no memory.
#[tactic(auto, unfolding(crate::specs::Measured::measure_of_type, crate::specs::Measures::measured, crate::specs::Measures::capped))]
pub fn size_of_type(tree: &TypeTree) -> u64
    ensures { result ≡ min (size_of_type tree.now) most }
{
    measure_type(tree).size
}

/// How deep a type is; the greatest u64 if it is deeper. It takes no memory.
#[tactic(auto, using(crate::proofs::PartDepthLemmas::type_depth_is), unfolding(crate::specs::Measured::measure_of_type, crate::specs::Measures::measured, crate::specs::Measures::capped))]
pub fn depth_of_type(tree: &TypeTree) -> u64
    ensures { result ≡ min (depth_of_type tree.now) most }
{
    measure_type(tree).depth
}

/// How many nodes a kind has; the greatest u64 if there are more. Each part of a chain is a `kind`. It takes no memory.
#[tactic(auto, unfolding(crate::specs::Measured::measure_of_kind, crate::specs::Measures::measured, crate::specs::Measures::capped))]
pub fn size_of_kind(tree: &KindTree) -> u64
    ensures { result ≡ min (size_of_kind tree.now) most }
{
    measure_kind(tree).size
}

/// How deep a kind is; the greatest u64 if it is deeper. It takes no memory.
#[tactic(auto, using(crate::proofs::PartDepthLemmas::kind_depth_is), unfolding(crate::specs::Measured::measure_of_kind, crate::specs::Measures::measured, crate::specs::Measures::capped))]
pub fn depth_of_kind(tree: &KindTree) -> u64
    ensures { result ≡ min (depth_of_kind tree.now) most }
{
    measure_kind(tree).depth
}

/// How many nodes a pattern has; the greatest u64 if there are more. It takes no memory.
#[tactic(auto, unfolding(crate::specs::Measured::measure_of_pat, crate::specs::Measures::measured, crate::specs::Measures::capped))]
pub fn size_of_pat(tree: &PatTree) -> u64
    ensures { result ≡ min (size_of_pat tree.now) most }
{
    measure_pat(tree).size
}

/// How deep a pattern is; the greatest u64 if it is deeper. It takes no memory.
#[tactic(auto, using(crate::proofs::PartDepthLemmas::pat_depth_is), unfolding(crate::specs::Measured::measure_of_pat, crate::specs::Measures::measured, crate::specs::Measures::capped))]
pub fn depth_of_pat(tree: &PatTree) -> u64
    ensures { result ≡ min (depth_of_pat tree.now) most }
{
    measure_pat(tree).depth
}

/// How many nodes a declaration has; the greatest u64 if there are more. It takes no memory.
#[tactic(auto, unfolding(crate::specs::Measured::measure_of_decl, crate::specs::Measures::measured, crate::specs::Measures::capped))]
pub fn size_of_decl(tree: &DeclTree) -> u64
    ensures { result ≡ min (size_of_decl tree.now) most }
{
    measure_decl(tree).size
}

/// How deep a declaration is; the greatest u64 if it is deeper. It takes no memory.
#[tactic(auto, unfolding(crate::specs::Measured::measure_of_decl, crate::specs::Measures::measured, crate::specs::Measures::capped))]
pub fn depth_of_decl(tree: &DeclTree) -> u64
    ensures { result ≡ min (depth_of_decl tree.now) most }
{
    measure_decl(tree).depth
}
