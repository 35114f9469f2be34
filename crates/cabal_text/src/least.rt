//! The least of numbers.
ghost use Rattle.std.specs.Prelude.{◌≡◌};
ghost use Rattle.cabal_text.specs.Least.{sooner};

/// The less of two lines, where they are there.
pub fn sooner(one: Option<u64>, other: Option<u64>) -> Option<u64>
    ensures { result ≡ sooner one other }
{
    match (one, other) {
        (Some(n), Some(m)) => Some(n.min(m)),
        (None, line) | (line, None) => line,
    }
}
