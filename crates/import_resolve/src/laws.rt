//! What holds of the definitions of exports, and what they say of small modules.
ghost use Rattle.import_resolve.specs.Laws.{ExportsAreExact};

/// An export list has one list of exports, or one refusal.
pub fn exports_are_exact()
    ensures { ExportsAreExact }
{}
