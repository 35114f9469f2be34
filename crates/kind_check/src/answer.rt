//! Kinds written out as trees.
ghost use Rattle.std.specs.Prelude.{◌≡◌, ◌+◌, ◌≤◌, ◌^◌, ◌<◌, [], map, IfOk, OnOk};
ghost use Rattle.hs_core.specs.Types.{kind_term, arrow};
ghost use Rattle.kind_check.specs.Forms.{decided, settled};
ghost use Rattle.kind_check.specs.Scopes.{guessed};
ghost use Rattle.kind_check.specs.Stacks.{stacked, joined_kinds, joined_back, kinds_after};

use bp_base::Kind;
use sqlite_items::{Boxed, Items};
use std::alloc::{AllocError, Global};
use type_unify::{Bindings, Node, Term};

/// Kinds in order.
pub type Kinds = Items<Kind>;

// The kind of a function from one kind to another.
#[tactic(auto, using(crate::proofs::ArmLemmas::kind_arrow))]
fn arrow_kind(alloc: Global, from: Kind, to: Kind) -> Result<Kind, AllocError>
    ensures { IfOk result (λ k. kind_term k ≡ arrow (kind_term from) (kind_term to)) }
{
    Ok(Kind::Arrow {
        from: Boxed::new(alloc, from)?,
        to: Boxed::new(alloc, to)?,
    })
}

// The two kinds on top become one: that of the parameter stands below that of the result.
fn join(alloc: Global, kinds: &mut Kinds) -> Result<(), AllocError>
    ensures { OnOk result (stacked kinds.new ≡ joined_kinds (stacked kinds.old)) }
{
    let Some(to) = kinds.pop() else {
        return Ok(());
    };
    let Some(from) = kinds.pop() else {
        return kinds.push(to);
    };
    kinds.push(arrow_kind(alloc, from, to)?)
}

// The two kinds on top become one: that of the parameter stands above that of the result.
fn join_back(alloc: Global, kinds: &mut Kinds) -> Result<(), AllocError>
    ensures { OnOk result (stacked kinds.new ≡ joined_back (stacked kinds.old)) }
{
    let Some(from) = kinds.pop() else {
        return Ok(());
    };
    let Some(to) = kinds.pop() else {
        return kinds.push(from);
    };
    kinds.push(arrow_kind(alloc, from, to)?)
}

// The kinds after one more node.
fn put_node(alloc: Global, node: &Node, kinds: &mut Kinds) -> Result<(), AllocError>
    ensures { OnOk result (stacked kinds.new ≡ kinds_after node.now (stacked kinds.old)) }
{
    match node {
        Node::Flex { .. } => kinds.push(Kind::Star),
        Node::Rigid { .. } => kinds.push(Kind::Star),
        Node::Con { .. } => kinds.push(Kind::Star),
        Node::App => join(alloc, kinds),
        Node::Swapped => join_back(alloc, kinds),
    }
}

// The kind that a term of unification stands for; what is undecided is `*`.
fn kind_of_term(alloc: Global, term: &Term) -> Result<Kind, AllocError>
    ensures { IfOk result (λ k. kind_term k ≡ decided term.now) }
{
    let mut kinds = Items::new(alloc);
    let nodes = term.nodes();
    for index in 0..nodes.len() {
        put_node(alloc, &nodes[index], &mut kinds)?;
    }
    match kinds.pop() {
        Some(kind) => Ok(kind),
        None => Ok(Kind::Star),
    }
}

/// The kind that the bindings give an unknown; what they leave undecided becomes `*`.
pub fn settled_kind(alloc: Global, bindings: &mut Bindings, id: u64) -> Result<Kind, AllocError>
    ensures ok { IfOk result (λ k. kind_term k ≡ settled bindings.old id) }
    ensures same { bindings.new ≡ bindings.old }
{
    let unknown = Term::flex(alloc, id)?;
    let term = bindings.resolve(alloc, &unknown)?;
    kind_of_term(alloc, &term)
}

/// The kinds of the first so many unknowns.
pub fn settled_kinds(
    alloc: Global,
    bindings: &mut Bindings,
    many: usize,
) -> Result<Kinds, AllocError>
    ensures { IfOk result (λ ks. map kind_term ks ≡ guessed (settled bindings.old) 0 many) }
{
    let mut kinds = Items::new(alloc);
    for id in 0..many {
        kinds.push(settled_kind(alloc, bindings, id as u64)?)?;
    }
    Ok(kinds)
}
