//! Looks at the next terminal of a left side.
ghost use Rattle.std.specs.Prelude.{◌≡◌};
ghost use Rattle.hs_forms.specs.Reading.{begins};
ghost use Rattle.hs_left_forms.specs.Lefts.{later, left_goes};

use hs_forms::Fault;
use hs_tokens::Terminal;

/// Whether a token stands here by which a left side may go on: one that begins an argument, `@`, or an operator.
pub fn goes_on_left(tokens: &[Terminal]) -> bool
    ensures { result ≡ begins left_goes tokens.now }
{
    match tokens.first() {
        Some(
            Terminal::Var(_)
            | Terminal::Con(_)
            | Terminal::Integer(_)
            | Terminal::Char(_)
            | Terminal::Text(_)
            | Terminal::LeftParen
            | Terminal::LeftBracket
            | Terminal::Underscore
            | Terminal::Tilde
            | Terminal::At
            | Terminal::ConSym(_)
            | Terminal::Colon
            | Terminal::Backquote
            | Terminal::VarSym(_),
        ) => true,
        _ => false,
    }
}

/// Of two failures from one place the later, where the first left so many tokens.
pub fn later(left: usize, fault: Fault) -> Fault
    ensures { result ≡ later left fault }
{
    match fault {
        Fault::At(right) => Fault::At(left.min(right)),
        Fault::NoMemory => Fault::NoMemory,
    }
}
