//! Laws of sources.
ghost use Rattle.std.specs.Prelude.{List, Option, None, ℕ};
ghost use Rattle.bp_base.specs.Texts.{Text};
ghost use Rattle.bp_checks.specs.Check.{IsExact, IsWithin};
ghost use Rattle.haskell_module.specs.Sources.{tokens_read};
ghost use Rattle.haskell_module.specs.Modules.{IsKept, module_read, signature_read};

/// A source has one list of tokens by layout, or one cause why it has none.
pub fn sources_have_one_outcome()
    ensures { (bytes : List ℕ) → IsExact (tokens_read bytes) }
{}

/// A source is one module of a name, or there is one cause why it is none; and what it is, or why it is none, within a nesting stands
/// without one, but for the nesting itself. So for signatures.
pub fn modules_have_one_outcome()
    ensures modules { (nesting : Option ℕ) (name : Text) (bytes : List ℕ) → IsExact (module_read nesting name bytes) }
    ensures signatures { (nesting : Option ℕ) (name : Text) (bytes : List ℕ) → IsExact (signature_read nesting name bytes) }
    ensures unlimited { (nesting : Option ℕ) (name : Text) (bytes : List ℕ) → IsWithin IsKept (module_read nesting name bytes) (module_read None name bytes) }
{}
