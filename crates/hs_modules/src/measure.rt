//! A number of nodes and a depth, each at most the greatest u64.
ghost use Rattle.std.specs.Prelude.{◌≡◌};
ghost use Rattle.hs_modules.specs.Measures.{beside, deeper, leaf, node, nothing, with_nodes};

/// How many nodes there are, and how deep they are.
#[derive(Clone, Copy)]
pub struct Measure {
    pub size: u64,
    pub depth: u64,
}

impl Measure {
    /// Of no tree.
    #[tactic(auto, unfolding(crate::specs::Measures::nothing))]
    pub fn nothing() -> Measure
        ensures { result ≡ nothing }
    {
        Measure { size: 0, depth: 0 }
    }

    /// Of one node that stands for names or literals.
    #[tactic(auto, unfolding(crate::specs::Measures::leaf))]
    pub fn leaf() -> Measure
        ensures { result ≡ leaf }
    {
        Measure { size: 1, depth: 0 }
    }

    /// Of these trees and others beside them.
    #[tactic(auto, unfolding(crate::specs::Measures::beside))]
    pub fn beside(self, other: Measure) -> Measure
        ensures { result ≡ beside self other }
    {
        Measure {
            size: self.size.saturating_add(other.size),
            depth: self.depth.max(other.depth),
        }
    }

    /// Of a node above these trees.
    #[tactic(auto, unfolding(crate::specs::Measures::node))]
    pub fn node(self) -> Measure
        ensures { result ≡ node self }
    {
        Measure {
            size: self.size.saturating_add(1),
            depth: self.depth,
        }
    }

    /// Of these trees behind so many operators or brackets.
    #[tactic(auto, unfolding(crate::specs::Measures::deeper))]
    pub fn deeper(self, by: usize) -> Measure
        ensures { result ≡ deeper by self }
    {
        Measure {
            size: self.size,
            depth: self.depth.saturating_add(by as u64),
        }
    }

    /// Of these trees with so many nodes that have no depth.
    #[tactic(auto, unfolding(crate::specs::Measures::with_nodes))]
    pub fn with(self, nodes: usize) -> Measure
        ensures { result ≡ with_nodes nodes self }
    {
        Measure {
            size: self.size.saturating_add(nodes as u64),
            depth: self.depth,
        }
    }
}
