//! What holds of checks and walks alone.
ghost use Rattle.std.specs.Prelude.{List, ℕ, Bool};
ghost use Rattle.bp_checks.specs.Check.{IsExact};
ghost use Rattle.bp_checks.specs.BuildOrder.{build_order, IsWhatIsReached};

/// A target has at most one build order or one reason why there is none: a cycle, or a component that is asked for and isn't there.
pub fn build_order_has_one_outcome()
    ensures { (deps : List ℕ → List (List ℕ)) (there : List ℕ → Bool) (target : List ℕ) → IsExact (build_order deps there target) }
{}

/// A build order has the target and all that it depends on, each once, and nothing else.
pub fn build_order_is_what_is_reached()
    ensures { (deps : List ℕ → List (List ℕ)) (there : List ℕ → Bool) (target : List ℕ) (order : List (List ℕ))
        → (build_order deps there target).passes order → IsWhatIsReached deps target order }
{}
