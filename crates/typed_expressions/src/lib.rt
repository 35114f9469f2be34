//! Whether an expression without free locals has a type.
#![tactic(auto)]

ghost use Rattle.std.specs.Prelude.{◌≡◌, OnOk, IfErr};
ghost use Rattle.infer_expressions.specs.Covered.{IsUncovered};
ghost use Rattle.typed_expressions.specs.Typed.{HasSomeType, HasNoType};

use bp_base::Kind;
use hs_core::Exp;
use infer_expressions::{Refusal, infer_exp};
use infer_patterns::Declared;
use std::alloc::Global;
use type_equations::{Binder, Equations};

/// Finds that an expression has a type, where it sees these names of modules and no local. NoTyping comes only where it
/// has none, and Uncovered only where local declarations or an annotation occur in it.
pub fn find_type(alloc: Global, exp: &Exp, names: &[Declared]) -> Result<(), Refusal>
    ensures typed { OnOk result (HasSomeType names.now exp.now) }
    ensures untyped { IfErr result (λ e. e ≡ Refusal.NoTyping → HasNoType names.now exp.now) }
    ensures uncovered { IfErr result (λ e. e ≡ Refusal.Uncovered → IsUncovered exp.now) }
{
    let env: Vec<Binder> = Vec::new(alloc);
    let mut state = Equations::new(alloc);
    let wanted = state.fresh(Kind::Star)?;
    infer_exp(alloc, exp, wanted, env.as_slice(), names, &mut state)
}
