//! A layout on its way, with a method for each rule.
ghost use Rattle.std.specs.Prelude.{◌≡◌, List, [], ◌∷◌, ◌++◌, Some, None, Ok, OnOk, IsSomeAnd, MatchResult};
ghost use Rattle.haskell_layout.specs.Role.{role_of};
ghost use Rattle.haskell_layout.specs.Rules.{nothing_made, opening, closed, closed_to, closed_over, item_begun, line_begun, block_begun, before_token, arrow_met, equals_met, where_met, token_met};
ghost use Rattle.haskell_layout.specs.Layout.{token_moves, made_tokens, made_at_end, before_answer, ending};
ghost use Rattle.haskell_layout.specs.Progress.{state_of, advanced, emitted, top_ended, IsRefused, IsStuck};

use crate::error::LayoutError;
use crate::role::{Made, Role, begins_item, made_token, makes_due, role_of};
use crate::stack::{Item, Sought, Stack, Until};
use hs_tokens::{Token, Tokens};
use sqlite_items::Items;
use std::alloc::{AllocError, Global};

/// A layout on its way.
#[derive(Drop)]
pub struct Progress {
    pub stack: Stack,
    /// Whether the last token of the source makes a block due.
    pub due: bool,
    /// Whether the token emitted last is `{` or `;`.
    pub fresh: bool,
    /// What is emitted.
    pub out: Tokens,
}

impl Progress {
    /// Emits a made token.
    fn make(&mut self, alloc: Global, made: Made, offset: u64) -> Result<(), AllocError>
        ensures { OnOk result (self.new ≡ advanced offset (record { made = made ∷ []; stack = self.old.stack }) self.old) }
    {
        self.out.push(made_token(alloc, made, offset)?)?;
        self.fresh = match made {
            Made::Open | Made::Semicolon => true,
            Made::Close => false,
        };
        Ok(())
    }

    /// Pops the item on top; an implicit block ends with a `}`.
    fn end_top(&mut self, alloc: Global, offset: u64) -> Result<(), AllocError>
        ensures { OnOk result (self.new ≡ advanced offset (top_ended self.old.stack) self.old) }
    {
        match self.stack.pop() {
            Some(Item::Block(_)) => self.make(alloc, Made::Close, offset),
            _ => Ok(()),
        }
    }

    /// Closes down.
    fn close(&mut self, alloc: Global, until: Until, offset: u64) -> Result<(), AllocError>
        ensures { OnOk result (self.new ≡ advanced offset (closed until self.old.stack) self.old) }
    {
        'items: while !self.stack.reached(until) {
            self.end_top(alloc, offset)?;
        }
        Ok(())
    }

    /// Closes down to what is sought, where a look down finds it.
    fn close_to(&mut self, alloc: Global, sought: Sought, offset: u64) -> Result<(), AllocError>
        ensures { OnOk result (self.new ≡ advanced offset (closed_to sought self.old.stack) self.old) }
    {
        if self.stack.finds(sought) {
            self.close(alloc, Until::Top(sought), offset)
        } else {
            Ok(())
        }
    }

    /// Closes down to what is sought, where a look down finds it, and pops it.
    fn close_over(&mut self, alloc: Global, sought: Sought, offset: u64) -> Result<(), AllocError>
        ensures { OnOk result (self.new ≡ advanced offset (closed_over sought self.old.stack) self.old) }
    {
        if !self.stack.finds(sought) {
            return Ok(());
        }
        self.close(alloc, Until::Top(sought), offset)?;
        let _ = self.stack.pop();
        Ok(())
    }

    /// Begins an item of the innermost block, if that is implicit and has the column.
    fn begin_item(&mut self, alloc: Global, column: u64, offset: u64) -> Result<(), AllocError>
        ensures { OnOk result (self.new ≡ advanced offset (item_begun column self.old.stack) self.old) }
    {
        if self.stack.is_implicit() && self.stack.column() == column {
            self.make(alloc, Made::Semicolon, offset)?;
            self.close(alloc, Until::Block, offset)
        } else {
            Ok(())
        }
    }

    /// Begins a line at a column.
    fn begin_line(&mut self, alloc: Global, column: u64, offset: u64) -> Result<(), AllocError>
        ensures { OnOk result (self.new ≡ advanced offset (line_begun column self.old.stack) self.old) }
    {
        self.close(alloc, Until::Column(column), offset)?;
        self.begin_item(alloc, column, offset)
    }

    /// Begins a block that is due, at a column.
    fn begin_block(&mut self, alloc: Global, column: u64, offset: u64) -> Result<(), AllocError>
        ensures { OnOk result (self.new ≡ advanced offset (block_begun column self.old.stack) self.old) }
    {
        self.make(alloc, Made::Open, offset)?;
        if self.stack.column() < column {
            self.stack.push(Item::Block(column))
        } else {
            self.make(alloc, Made::Close, offset)?;
            self.begin_line(alloc, column, offset)
        }
    }

    /// Makes what stands before a token.
    fn come_to(&mut self, alloc: Global, role: Role, token: &Token) -> Result<(), AllocError>
        ensures { OnOk result (self.new ≡ advanced token.now.offset (before_token self.old.due role token.now.column token.now.first self.old.stack) self.old) }
    {
        if self.due && role != Role::OpenBrace {
            self.begin_block(alloc, token.column, token.offset)
        } else if token.first {
            self.begin_line(alloc, token.column, token.offset)
        } else {
            Ok(())
        }
    }

    /// Opens or closes what a token opens or closes.
    fn meet(&mut self, alloc: Global, role: Role, offset: u64) -> Result<(), AllocError>
        ensures { OnOk result (self.new ≡ advanced offset (token_met self.old.fresh role self.old.stack) self.old) }
    {
        match role {
            Role::Semicolon => self.close(alloc, Until::Block, offset),
            Role::OpenParen => self.stack.push(Item::Paren),
            Role::OpenBracket => self.stack.push(Item::Bracket),
            Role::OpenBrace => self.stack.push(Item::Explicit),
            Role::CloseParen => self.close_over(alloc, Sought::Paren, offset),
            Role::CloseBracket => self.close_over(alloc, Sought::Bracket, offset),
            Role::CloseBrace => self.close_over(alloc, Sought::Explicit, offset),
            Role::Comma => self.close_to(alloc, Sought::Parts, offset),
            Role::If => self.stack.push(Item::If),
            Role::Case => self.stack.push(Item::Case),
            Role::Let => self.stack.push(Item::Let),
            Role::Lambda => self.stack.push(Item::Lam),
            Role::Bar => self.stack.push(Item::Guard),
            Role::Then => self.meet_then(alloc, offset),
            Role::Else => self.close_over(alloc, Sought::Then, offset),
            Role::Of => self.close_over(alloc, Sought::Case, offset),
            Role::In => self.close_over(alloc, Sought::Let, offset),
            Role::Where => self.meet_where(alloc, offset),
            Role::Arrow => {
                meet_arrow(&mut self.stack);
                Ok(())
            }
            Role::Equals => {
                meet_equals(&mut self.stack);
                Ok(())
            }
            Role::Header | Role::Other => Ok(()),
        }
    }

    fn meet_then(&mut self, alloc: Global, offset: u64) -> Result<(), AllocError>
        ensures { OnOk result (self.new ≡ advanced offset (opening Item.Then (closed_over Sought.If self.old.stack)) self.old) }
    {
        self.close_over(alloc, Sought::If, offset)?;
        self.stack.push(Item::Then)?;
        Ok(())
    }

    /// A `where` closes the block on top that it would begin an item of.
    fn meet_where(&mut self, alloc: Global, offset: u64) -> Result<(), AllocError>
        ensures { OnOk result (self.new ≡ advanced offset (where_met self.old.fresh self.old.stack) self.old) }
    {
        match self.stack.top() {
            Some(Item::Block(_)) if self.fresh => self.end_top(alloc, offset),
            _ => Ok(()),
        }
    }

    /// Emits a token of the source, with what is made before it.
    pub fn step(&mut self, alloc: Global, token: &Token, index: u64) -> Result<(), LayoutError>
        ensures { MatchResult result (λ _. IsSomeAnd (token_moves (state_of self.old) token.now) (λ moved. self.new ≡ emitted token.now (advanced token.now.offset moved self.old))) (IsStuck index (token_moves (state_of self.old) token.now)) }
    {
        let role = role_of(token);
        self.come_to(alloc, role, token)?;
        if role == Role::CloseBrace && !self.stack.finds(Sought::Explicit) {
            return Err(LayoutError::Layout { index });
        }
        self.meet(alloc, role, token.offset)?;
        self.out.push(token.copied(alloc)?)?;
        self.due = makes_due(role);
        self.fresh = begins_item(role);
        Ok(())
    }

    /// The answer, at the end of a source of this length with so many tokens.
    pub fn finish(self, alloc: Global, length: u64, count: u64) -> Result<Tokens, LayoutError>
        ensures { MatchResult result (λ out. before_answer self.out (ending length count (state_of self)) ≡ Ok out) (IsRefused (ending length count (state_of self))) }
    {
        if self.stack.finds(Sought::Explicit) {
            return Err(LayoutError::Layout { index: count });
        }
        let mut progress = self;
        progress.close_all(alloc, length)?;
        let Progress {
            stack: _,
            due: _,
            fresh: _,
            out,
        } = progress;
        Ok(out)
    }

    /// At the end a block that is due is empty, and all implicit blocks are closed.
    fn close_all(&mut self, alloc: Global, length: u64) -> Result<(), AllocError>
        ensures { OnOk result (self.new.out ≡ self.old.out ++ made_tokens (made_at_end (state_of self.old)) length) }
    {
        if self.due {
            self.make(alloc, Made::Open, length)?;
            self.make(alloc, Made::Close, length)?;
        }
        self.close(alloc, Until::Bottom, length)
    }
}

/// `->` pops a lambda or a guard on top.
fn meet_arrow(stack: &mut Stack)
    ensures { stack.new ≡ arrow_met stack.old }
{
    if let Some(Item::Lam | Item::Guard) = stack.top() {
        let _ = stack.pop();
    }
}

/// `=` pops a guard on top.
fn meet_equals(stack: &mut Stack)
    ensures { stack.new ≡ equals_met stack.old }
{
    if let Some(Item::Guard) = stack.top() {
        let _ = stack.pop();
    }
}
