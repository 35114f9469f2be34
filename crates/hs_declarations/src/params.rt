//! The variables behind the name of a type that is declared (Haskell 2010 Report, section 4.2).
ghost use Rattle.std.specs.Prelude.{◌≡◌, ◌++◌, IfOk, map, false};
ghost use Rattle.hs_forms.specs.Reading.{begins};
ghost use Rattle.hs_tokens.specs.declared.terminal.Terminal.TheVariants as t;
ghost use Rattle.hs_headers.specs.Names.{is_var};

use bp_base::{Name, Names};
use hs_headers::after_var;
use hs_tokens::Terminal;
use sqlite_items::Items;
use std::alloc::{AllocError, Global};

/// Variables, and what is left of the terminals behind them.
#[derive(Drop)]
pub struct Params<'a> {
    pub names: Names,
    pub rest: &'a [Terminal],
}

/// All the variables at the front.
pub fn read_params(alloc: Global, tokens: &[Terminal]) -> Result<Params<'_>, AllocError>
    ensures front { IfOk result (λ r. tokens.now ≡ map t.Var r.names ++ r.rest.now) }
    ensures all { IfOk result (λ r. begins is_var r.rest.now ≡ false) }
{
    let mut names = Items::new(alloc);
    let mut rest = tokens;
    'params: while let Some((name, next)) = after_var(rest) {
        names.push(Name::from_bytes(alloc, name.as_bytes())?)?;
        rest = next;
    }
    Ok(Params { names, rest })
}
