//! Sets of names.
ghost use Rattle.std.specs.Prelude.{◌≡◌, List, ℕ, true, false, IfOk, MatchOption};
ghost use Rattle.plain_trees.specs.Plain.{are_distinct, HasNames};

use bp_base::Name;
use std::alloc::{AllocError, Global};
use std::collections::BTreeSet;

/// A set of these names, for look-ups, unless one stands twice.
pub fn set_of(alloc: Global, names: &[Name]) -> Result<Option<BTreeSet<Name>>, AllocError>
    ensures { IfOk result (λ found. MatchOption found (are_distinct names.now ≡ false)
        (λ set. (are_distinct names.now ≡ true) × HasNames set names.now)) }
{
    let mut set = BTreeSet::new(alloc);
    for name in names {
        let name = name.copied(alloc)?;
        if !set.insert(name)? {
            return Ok(None);
        }
    }
    Ok(Some(set))
}
