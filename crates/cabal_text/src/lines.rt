//! The lines of a file.
ghost use Rattle.std.specs.Prelude.{◌≡◌, ◌≤◌, ◌<◌, ◌∷◌, [], List, ℕ, length, drop, take, nat_lt, not, ◌==◌, IfOk};
ghost use Rattle.std.specs.List.{prefix_len};
ghost use Rattle.std.specs.Str.Lines.{lines, strip_carriage_return};
ghost use Rattle.cabal_text.specs.Lines.{indent_of, is_dropped, kept_lines, deeper_than};
ghost use Rattle.cabal_text.specs.declared.lines.Line.{Line};

use crate::characters::is_space;
use bp_base::Bytes;
use std::alloc::{AllocError, Global};

/// A line that is neither blank nor a comment. The text has no spaces before it.
#[derive(Debug, Drop)]
pub struct Line {
    pub number: u64,
    pub indent: usize,
    pub text: Bytes,
}

/// How many spaces a text begins with.
#[tactic(auto, unfolding(crate::specs::Lines::indent_of))]
pub fn indent_of(text: &[u8]) -> usize
    ensures value { result ≡ indent_of text.now }
    ensures within { result ≤ length text.now }
{
    text.iter().take_while(|b| is_space(**b)).count()
}

/// Whether the line is blank or a comment.
#[tactic(auto, unfolding(crate::specs::Lines::is_dropped))]
fn is_dropped(text: &[u8]) -> bool
    ensures { result ≡ is_dropped text.now }
{
    let rest = &text[indent_of(text)..];
    rest.is_empty() || rest.starts_with(b"--")
}

/// How many bytes stand before the first line feed.
fn line_len(text: &[u8]) -> usize
    ensures value { result ≡ prefix_len (λ b. not (b == 10)) text.now }
    ensures within { result ≤ length text.now }
{
    text.iter().take_while(|b| **b != b'\n').count()
}

/// A line without the carriage return at its end.
fn without_return(line: &[u8]) -> &[u8]
    ensures { result.now ≡ strip_carriage_return line.now }
{
    match line {
        [front @ .., b'\r'] => front,
        _ => line,
    }
}

/// The first line of a text and what comes after it.
fn first_line(text: &[u8]) -> (&[u8], &[u8])
    requires { 0 < length text.now }
    ensures split { lines text.now ≡ result.0.now ∷ lines result.1.now }
    ensures shorter { length result.1.now < length text.now }
{
    let len = line_len(text);
    if len == text.len() {
        (text, &text[len..])
    } else {
        (without_return(&text[..len]), &text[len + 1..])
    }
}

/// The lines of a file that are neither blank nor comments.
pub fn kept_lines(alloc: Global, bytes: &[u8]) -> Result<Vec<Line>, AllocError>
    ensures { IfOk result (λ found. found.items ≡ kept_lines bytes.now) }
{
    let mut found = Vec::new(alloc);
    let mut number = 0;
    let mut rest = bytes;
    while !rest.is_empty() {
        let (text, after) = first_line(rest);
        number += 1;
        if !is_dropped(text) {
            let indent = indent_of(text);
            found.push(Line {
                number,
                indent,
                text: Bytes::from_bytes(alloc, &text[indent..])?,
            })?;
        }
        rest = after;
    }
    Ok(found)
}

/// How many lines at the front are deeper than the indent.
pub fn deeper_len(indent: usize, lines: &[Line]) -> usize
    ensures value { result ≡ prefix_len (λ l. nat_lt indent l.indent) lines.now }
    ensures within { result ≤ length lines.now }
{
    for (i, line) in lines.iter().enumerate() {
        if line.indent <= indent {
            return i;
        }
    }
    lines.len()
}
