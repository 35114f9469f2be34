//! Readings that go on step by step.
ghost use Rattle.std.specs.Prelude.{◌<◌, ℕ, Bool, List, Option, Result};
ghost use Rattle.hs_forms.specs.declared.fault.Fault.{Fault};
ghost use Rattle.hs_tokens.specs.declared.terminal.Terminal.{Terminal};
ghost use Rattle.hs_expressions.specs.StepAnswers.{StepSays};

use hs_forms::Fault;
use hs_tokens::Terminal;

/// What a step leaves: a reading that goes on, or what was read.
#[derive(Drop)]
pub enum Step<S, T> {
    More(S),
    Done(T),
}

/// A reading on its way, of the terminals from its start on, within a limit of depth, with a section's operator at its end
/// or without.
pub trait Steps: Sized + Drop {
    type Done: Drop;

    /// What is known of it.
    ghost holds: { Option ℕ → Bool → List Terminal → Self → Type 0 };

    /// How many terminals are left behind it.
    ghost left: { Self → ℕ };

    ghost answers: { Option ℕ → Bool → List Terminal → Result Self.Done Fault → Type 0 };
}

/// Goes on from a reading as long as steps do.
pub fn run<S: Steps, F: Fn(S) -> Result<Step<S, S::Done>, Fault>>(
    tokens: &[Terminal],
    limit: Option<usize>,
    lone: bool,
    start: S,
    step: F,
) -> Result<S::Done, Fault>
    requires start { S.holds limit lone tokens.now start }
    requires may { (s : S) → S.holds limit lone tokens.now s → F.pre step s }
    requires says { (s : S) (r : _) → S.holds limit lone tokens.now s → F.post step s r → StepSays (S.holds limit lone tokens.now) S.left (S.answers limit lone tokens.now) s r }
    ensures { S.answers limit lone tokens.now result }
{
    let mut state = start;
    'steps: loop {
        match step(state) {
            Ok(Step::Done(done)) => return Ok(done),
            Ok(Step::More(next)) => state = next,
            Err(fault) => return Err(fault),
        }
    }
}
