//! What components show to those that include them.
ghost use Rattle.std.specs.Prelude.{◌≡◌};
ghost use Rattle.std.specs.Option.{option_copied};
ghost use Rattle.mixin_link.specs.Summaries.{found_summary};

use bp_base::{Name, Names, Provisions};
use sqlite_items::Items;

/// A component with its holes, strictly rising, and what it provides, with identities over those holes.
#[derive(Debug, Drop)]
pub struct Summary {
    pub component: Name,
    pub holes: Names,
    pub provisions: Provisions,
}

/// Summaries in any order.
pub type Summaries = Items<Summary>;

/// The summary of a component.
pub fn find_summary<'a>(summaries: &'a [Summary], dep: &Name) -> Option<&'a Summary>
    ensures { option_copied result ≡ found_summary dep.now summaries.now }
{
    for each in summaries {
        if each.component == *dep {
            return Some(each);
        }
    }
    None
}
