//! The law of typing under replacement of names of types.
ghost use Rattle.hs_core_laws.specs.Stability.{ExpressionsStayTyped, DeclarationsStayTyped, BindingsStayTyped};

/// A typing of an expression, of a declaration or of a module's binding stays one where names of types stand for closed types of
/// their kinds.
pub fn typing_is_stable()
    ensures expressions { ExpressionsStayTyped }
    ensures declarations { DeclarationsStayTyped }
    ensures bindings { BindingsStayTyped }
{}
