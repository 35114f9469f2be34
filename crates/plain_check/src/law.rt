//! Laws of what the source of a plain module gives.
ghost use Rattle.std.specs.Prelude.{ℕ, Option};
ghost use Rattle.bp_base.specs.Texts.{Text};
ghost use Rattle.bp_checks.specs.Check.{IsExact};
ghost use Rattle.cabal_component.specs.declared.component.Component.{Component};
ghost use Rattle.hs_plain.specs.declared.plain.PlainModule.{PlainModule};
ghost use Rattle.plain_check.specs.Given.{source_read, typed, text_of};
ghost use Rattle.plain_check.specs.Asked.{asks_nothing};

/// A source is one module of the plain form or is refused for one reason; a module is well typed, or one value is the first that is not; and it has one
/// flat text.
pub fn plain_modules_have_one_outcome()
    ensures read { (nesting : Option ℕ) (component at bytes : Text) → IsExact (source_read nesting component at bytes) }
    ensures typed { (component : Text) (m : PlainModule) → IsExact (typed component m) }
    ensures text { (m : PlainModule) → IsExact (text_of m) }
{}

/// A component asks for nothing that isn't built yet, or there is one line at which it does.
pub fn what_is_asked_has_one_outcome()
    ensures { (c : Component) (content : Text) → IsExact (asks_nothing c content) }
{}
