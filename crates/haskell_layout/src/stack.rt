//! What is open at a place of the source.
ghost use Rattle.std.specs.Prelude.{◌≡◌, List, [], ◌∷◌, OnOk, MatchOption};
ghost use Rattle.haskell_layout.specs.Stack.{column_of, is_implicit, seeks, finds, reach_of, reached};

use sqlite_items::Items;
use std::alloc::{AllocError, Global};
use std::marker::Model;

/// What is open: a block, or a mark for a form that is not whole yet.
#[derive(Clone, Copy, Debug, PartialEq, Eq)]
pub enum Item {
    /// A block whose braces are made, by its column.
    Block(u64),
    /// A block in braces of the source.
    Explicit,
    Paren,
    Bracket,
    If,
    Then,
    Case,
    Let,
    Lam,
    Guard,
}

/// What a token looks down for.
#[derive(Clone, Copy, Debug, PartialEq, Eq)]
pub enum Sought {
    /// For `)`.
    Paren,
    /// For `]`.
    Bracket,
    /// For `,`: what has parts between commas.
    Parts,
    /// For `}`.
    Explicit,
    /// For `then`.
    If,
    /// For `else`.
    Then,
    /// For `of`.
    Case,
    /// For `in`.
    Let,
}

/// How far the stack is closed.
#[derive(Clone, Copy, Debug, PartialEq, Eq)]
pub enum Until {
    /// Until what is sought is on top.
    Top(Sought),
    /// Until the innermost block is not to the right of the column.
    Column(u64),
    /// Until a block is on top.
    Block,
    /// Until nothing is open.
    Bottom,
}

/// What the looks down from a place of the stack find. It is kept with each item, so that no look walks.
#[derive(Clone, Copy, Debug, PartialEq, Eq)]
pub struct Reach {
    /// The column of the innermost block.
    pub column: u64,
    /// Whether the innermost block is one whose braces are made.
    pub implicit: bool,
    pub paren: bool,
    pub bracket: bool,
    pub parts: bool,
    pub explicit: bool,
    pub of_if: bool,
    pub of_then: bool,
    pub of_case: bool,
    pub of_let: bool,
}

/// An item, and what is found from it.
#[derive(Clone, Copy, Debug, PartialEq, Eq)]
pub struct Context {
    pub item: Item,
    pub reach: Reach,
}

/// What is found where nothing is open.
fn nothing() -> Reach
    ensures { result ≡ reach_of [] }
{
    Reach {
        column: 0,
        implicit: false,
        paren: false,
        bracket: false,
        parts: false,
        explicit: false,
        of_if: false,
        of_then: false,
        of_case: false,
        of_let: false,
    }
}

/// What is found from an item, by what is found below it.
fn over(item: Item, below: Reach) -> Reach
    ensures { (outer : List Item) → below ≡ reach_of outer → result ≡ reach_of (item ∷ outer) }
{
    let barred = Reach {
        column: below.column,
        implicit: below.implicit,
        explicit: below.explicit,
        ..nothing()
    };
    match item {
        Item::Block(column) => Reach {
            column,
            implicit: true,
            ..below
        },
        Item::Explicit => Reach {
            explicit: true,
            ..nothing()
        },
        Item::Paren => Reach {
            paren: true,
            parts: true,
            ..barred
        },
        Item::Bracket => Reach {
            bracket: true,
            parts: true,
            ..barred
        },
        Item::Guard => Reach {
            parts: true,
            ..below
        },
        Item::If => Reach {
            of_if: true,
            ..below
        },
        Item::Then => Reach {
            of_then: true,
            ..below
        },
        Item::Case => Reach {
            of_case: true,
            ..below
        },
        Item::Let => Reach {
            of_let: true,
            ..below
        },
        Item::Lam => below,
    }
}

/// Whether the item is one that is sought.
fn seeks(sought: Sought, item: Item) -> bool
    ensures { result ≡ seeks sought item }
{
    match (sought, item) {
        (Sought::Paren | Sought::Parts, Item::Paren) => true,
        (Sought::Bracket | Sought::Parts, Item::Bracket) => true,
        (Sought::Parts, Item::Guard) => true,
        (Sought::Explicit, Item::Explicit) => true,
        (Sought::If, Item::If) => true,
        (Sought::Then, Item::Then) => true,
        (Sought::Case, Item::Case) => true,
        (Sought::Let, Item::Let) => true,
        _ => false,
    }
}

/// What is open, which contracts see as the list of its items, the innermost first.
#[derive(Debug, Drop)]
pub struct Stack {
    contexts: Items<Context>,
}

impl Model for Stack {
    ghost use Rattle.std.specs.Prelude.{List, []};
    ghost use Rattle.haskell_layout.specs.declared.stack.Item.{Item};

    ghost Value = { List Item };

    ghost use Rattle.haskell_layout.specs.Contexts.{opened, Kept};

    ghost view = { λ s. opened [] s.contexts };

    ghost invariant = { λ s. Kept [] s.contexts };
}

impl Stack {
    /// Nothing is open.
    pub fn new(alloc: Global) -> Stack
        ensures { result ≡ [] }
    {
        Stack {
            contexts: Items::new(alloc),
        }
    }

    /// What is found from the innermost item.
    fn reach(&self) -> Reach
        ensures { result ≡ reach_of self.now }
    {
        let Some((context, _)) = self.contexts.as_slice().split_last() else {
            return nothing();
        };
        context.reach
    }

    /// The innermost item.
    pub fn top(&self) -> Option<Item>
        ensures { MatchOption result (self.now ≡ []) (λ item. (outer : List Item) × (self.now ≡ item ∷ outer)) }
    {
        let Some((context, _)) = self.contexts.as_slice().split_last() else {
            return None;
        };
        let item = context.item;
        Some(item)
    }

    /// Opens one more item.
    pub fn push(&mut self, item: Item) -> Result<(), AllocError>
        ensures { OnOk result (self.new ≡ item ∷ self.old) }
    {
        let reach = over(item, self.reach());
        self.contexts.push(Context { item, reach })?;
        Ok(())
    }

    /// Takes the innermost item away.
    pub fn pop(&mut self) -> Option<Item>
        ensures { MatchOption result ((self.old ≡ []) × (self.new ≡ [])) (λ item. self.old ≡ item ∷ self.new) }
    {
        let Some(context) = self.contexts.pop() else {
            return None;
        };
        Some(context.item)
    }

    /// The column of the innermost block, 0 for an explicit one or for none.
    pub fn column(&self) -> u64
        ensures { result ≡ column_of self.now }
    {
        self.reach().column
    }

    /// Whether the innermost block is one whose braces are made.
    pub fn is_implicit(&self) -> bool
        ensures { result ≡ is_implicit self.now }
    {
        self.reach().implicit
    }

    /// Whether a look down finds what is sought.
    pub fn finds(&self, sought: Sought) -> bool
        ensures { result ≡ finds sought self.now }
    {
        let reach = self.reach();
        match sought {
            Sought::Paren => reach.paren,
            Sought::Bracket => reach.bracket,
            Sought::Parts => reach.parts,
            Sought::Explicit => reach.explicit,
            Sought::If => reach.of_if,
            Sought::Then => reach.of_then,
            Sought::Case => reach.of_case,
            Sought::Let => reach.of_let,
        }
    }

    /// Whether the stack is closed so far.
    pub fn reached(&self, until: Until) -> bool
        ensures { result ≡ reached until self.now }
    {
        let Some(item) = self.top() else {
            return true;
        };
        match until {
            Until::Top(sought) => seeks(sought, item),
            Until::Column(column) => self.column() <= column,
            Until::Block => matches!(item, Item::Block(_) | Item::Explicit),
            Until::Bottom => false,
        }
    }
}
