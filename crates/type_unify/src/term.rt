//! Types with unknowns, of any depth.
ghost use Rattle.std.specs.Prelude.{◌≡◌, ◌++◌, ◌∷◌, [], IfOk};
ghost use Rattle.type_terms.specs.Terms.{var, con, app};
ghost use Rattle.type_unify.specs.Types.{rigid, named};
ghost use Rattle.type_unify.specs.Written.{AreNodesOf, spelled};

use bp_base::{Kind, OrigName};
use std::alloc::{AllocError, Global};
use std::marker::Model;

/// One node of a type, in an order in which the parts of an application stand before it.
#[derive(Debug, Drop)]
pub enum Node {
    Flex { id: u64 },
    Rigid { id: u64 },
    Con { name: OrigName, kind: Kind },
    App,
    Swapped,
}

impl Node {
    /// The same node once more.
    pub fn copied(&self, alloc: Global) -> Result<Node, AllocError>
        ensures { IfOk result (λ n. n ≡ self.now) }
    {
        match self {
            Node::Flex { id } => Ok(Node::Flex { id: *id }),
            Node::Rigid { id } => Ok(Node::Rigid { id: *id }),
            Node::Con { name, kind } => Ok(Node::Con {
                name: name.copied(alloc)?,
                kind: kind.copied(alloc)?,
            }),
            Node::App => Ok(Node::App),
            Node::Swapped => Ok(Node::Swapped),
        }
    }
}

// The same nodes once more.
fn copied_nodes(alloc: Global, nodes: &[Node]) -> Result<Vec<Node>, AllocError>
    ensures { IfOk result (λ copy. copy.items ≡ nodes.now) }
{
    let mut copy = Vec::with_capacity(alloc, nodes.len())?;
    for node in nodes {
        copy.push(node.copied(alloc)?)?;
    }
    Ok(copy)
}

// The nodes of the second after those of the first, and one more.
fn joined(first: Vec<Node>, second: Vec<Node>, last: Node) -> Result<Vec<Node>, AllocError>
    ensures { IfOk result (λ all. all.items ≡ first.items ++ second.items ++ last ∷ []) }
{
    let mut all = first;
    let mut rest = second;
    all.append(&mut rest)?;
    all.push(last)?;
    Ok(all)
}

/// A type: an unknown (flex), a rigid variable, a name with its kind, or an application.
#[derive(Debug, Drop)]
pub struct Term {
    nodes: Vec<Node>,
}

impl Model for Term {
    ghost use Rattle.std.specs.Prelude.{◌≡◌};
    ghost use Rattle.type_unify.specs.Types.{Plain};

    ghost Value = { Plain };

    ghost use Rattle.type_unify.specs.Codes.{coded_plain};

    ghost coded = { coded_plain };

    ghost use Rattle.type_unify.specs.Written.{spelled, AreNodesOf};

    ghost view = { λ t. spelled t.nodes.items };

    ghost invariant = { λ t. AreNodesOf t.nodes.items (spelled t.nodes.items) };
}

impl Term {
    /// An unknown by its number.
    pub fn flex(alloc: Global, id: u64) -> Result<Term, AllocError>
        ensures { IfOk result (λ t. t ≡ var id) }
    {
        let mut nodes = Vec::new(alloc);
        nodes.push(Node::Flex { id })?;
        Ok(Term { nodes })
    }

    /// A rigid variable by its number.
    pub fn rigid(alloc: Global, id: u64) -> Result<Term, AllocError>
        ensures { IfOk result (λ t. t ≡ con (rigid id)) }
    {
        let mut nodes = Vec::new(alloc);
        nodes.push(Node::Rigid { id })?;
        Ok(Term { nodes })
    }

    /// An original name with its kind.
    pub fn con(alloc: Global, name: OrigName, kind: Kind) -> Result<Term, AllocError>
        ensures { IfOk result (λ t. t ≡ con (named name kind)) }
    {
        let mut nodes = Vec::new(alloc);
        nodes.push(Node::Con { name, kind })?;
        Ok(Term { nodes })
    }

    /// A type applied to another. The shorter of the two is moved, so n applications cost n log n moves in all.
    pub fn app(fun: Term, arg: Term) -> Result<Term, AllocError>
        ensures { IfOk result (λ t. t ≡ app fun arg) }
    {
        let Term { nodes: front } = fun;
        let Term { nodes: back } = arg;
        if front.len() < back.len() {
            return Ok(Term {
                nodes: joined(back, front, Node::Swapped)?,
            });
        }
        Ok(Term {
            nodes: joined(front, back, Node::App)?,
        })
    }

    /// The same type once more.
    pub fn copied(&self, alloc: Global) -> Result<Term, AllocError>
        ensures { IfOk result (λ t. t ≡ self.now) }
    {
        Ok(Term {
            nodes: copied_nodes(alloc, &self.nodes)?,
        })
    }

    /// The nodes of the type, the parts of an application before it.
    pub fn nodes(&self) -> &[Node]
        ensures { AreNodesOf result.now self.now }
    {
        self.nodes.as_slice()
    }

    // The type that the nodes spell.
    pub(crate) fn from_nodes(nodes: Vec<Node>) -> Term
        requires { AreNodesOf nodes.items (spelled nodes.items) }
        ensures { result ≡ spelled nodes.items }
    {
        Term { nodes }
    }
}
