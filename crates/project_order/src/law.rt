//! Laws of build orders.
ghost use Rattle.std.specs.Prelude.{List};
ghost use Rattle.bp_base.specs.Texts.{Text};
ghost use Rattle.bp_checks.specs.Check.{IsExact};
ghost use Rattle.cabal_component.specs.declared.component.Component.{Component};
ghost use Rattle.project_order.specs.Order.{build_order, IsOrder};

/// A target has one order, or one refusal.
pub fn order_has_one_outcome()
    ensures { (cs : List Component) (target : Text) → IsExact (build_order cs target) }
{}

/// An order has the target and all that it depends on, each once, and nothing else.
pub fn order_is_what_is_reached()
    ensures { (cs : List Component) (target : Text) (order : List Text) → (build_order cs target).passes order → IsOrder cs target order }
{}
