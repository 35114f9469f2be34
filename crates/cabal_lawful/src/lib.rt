//! Lawful components: the test, and the law that every component that `read_component` answers is lawful.
#![tactic(auto)]

ghost use Rattle.cabal_lawful.specs.Laws.{AreLawful};

mod lawful;

pub use lawful::is_lawful;

/// Where no line of a package file is refused, its components are lawful.
pub fn components_are_lawful()
    ensures { AreLawful }
{}
