//! The name of the unit or of a tuple, after its `(` (Haskell 2010 Report, section 3.2): a type, a pattern and an expression
//! begin with it alike.
ghost use Rattle.std.specs.Prelude.{◌≡◌, IfErr};
ghost use Rattle.hs_forms.specs.declared.fault.Fault.TheVariants.{NoMemory};
ghost use Rattle.hs_trees.specs.Types.{tuple_name_sort};
ghost use Rattle.hs_readers.specs.Answers.{Answers};

use crate::leaf::{after, after_right_paren, count_commas};
use crate::read::Read;
use hs_forms::Fault;
use hs_tokens::Terminal;

/// How many commas stand before the `)`: none is the unit, and up to 14 are a tuple's.
pub fn read_tuple_name(tokens: &[Terminal]) -> Result<Read<'_, usize>, Fault>
    ensures answers { Answers tuple_name_sort tokens.now result }
    ensures takes_no_memory { IfErr result (λ e. e ≡ NoMemory → ⊥) }
{
    let commas = count_commas(tokens);
    if commas > 14 {
        return Err(Fault::At(tokens.len() - 14));
    }
    match after_right_paren(after(tokens, commas)) {
        Some(rest) => Ok(Read {
            tree: commas,
            rest,
            depth: 0,
        }),
        None => Err(Fault::At(tokens.len() - commas)),
    }
}
