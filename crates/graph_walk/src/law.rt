//! Laws of walks.
ghost use Rattle.std.specs.Prelude.{List, ℕ};
ghost use Rattle.bp_checks.specs.Check.{IsExact};
ghost use Rattle.graph_walk.specs.Graph.{walk_from};
ghost use Rattle.graph_walk.specs.declared.walk.Node.{Node};

/// A walk has one order, or one cause why there is none.
pub fn walks_have_one_outcome()
    ensures { (nodes : List Node) (starts : List ℕ) → IsExact (walk_from nodes starts) }
{}
