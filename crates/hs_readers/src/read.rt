//! What a reader answers.
use hs_tokens::Terminal;

/// A tree, what is left of the terminals behind it, and how deep the tree is.
#[derive(Drop)]
pub struct Read<'a, T> {
    pub tree: T,
    pub rest: &'a [Terminal],
    pub depth: usize,
}
