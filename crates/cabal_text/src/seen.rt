//! Names that were seen before, in a set.
ghost use Rattle.std.specs.Prelude.{◌≡◌, List, ℕ, IfOk, OnOk, OnErr, ◌||◌, not, [], false};
ghost use Rattle.std.specs.HashSet.{contains, IsUnchanged};
ghost use Rattle.std.specs.Str.{bytes_eq};
ghost use Rattle.bp_base.specs.Lists.{is_among};
ghost use Rattle.cabal_text.specs.Seen.{repeats, distinct};

use bp_base::{Name, Names};
use sqlite_items::Items;
use std::alloc::{AllocError, Global};
use std::collections::HashSet;

/// Adds a name, and answers whether it is new. The set stays as it is where memory is wanting.
pub fn add_name(alloc: Global, seen: &mut HashSet<Name>, name: &Name) -> Result<bool, AllocError>
    ensures new { IfOk result (λ added. added ≡ not (contains bytes_eq seen.old name.now)) }
    ensures held { OnOk result ((q : List ℕ) → contains bytes_eq seen.new q ≡ (bytes_eq q name.now || contains bytes_eq seen.old q)) }
    ensures err { OnErr result (IsUnchanged seen.old seen.new) }
{
    let added = seen.insert(name.copied(alloc)?)?;
    Ok(added)
}

/// The names as a set.
pub fn name_set(alloc: Global, names: &[Name]) -> Result<HashSet<Name>, AllocError>
    ensures { IfOk result (λ set. (q : List ℕ) → contains bytes_eq set q ≡ is_among q names.now) }
{
    let mut seen = HashSet::new(alloc);
    for name in names {
        add_name(alloc, &mut seen, name)?;
    }
    Ok(seen)
}

/// Whether some name stands twice.
pub fn repeats(alloc: Global, names: &[Name]) -> Result<bool, AllocError>
    ensures { IfOk result (λ found. found ≡ repeats names.now) }
{
    let mut seen = HashSet::new(alloc);
    for name in names {
        if !add_name(alloc, &mut seen, name)? {
            return Ok(true);
        }
    }
    Ok(false)
}

/// Each name once, at its first place.
pub fn distinct(alloc: Global, names: &[Name]) -> Result<Names, AllocError>
    ensures { IfOk result (λ found. found ≡ distinct names.now) }
{
    let mut seen = HashSet::new(alloc);
    let mut found = Items::new(alloc);
    for name in names {
        if add_name(alloc, &mut seen, name)? {
            found.push(name.copied(alloc)?)?;
        }
    }
    Ok(found)
}
