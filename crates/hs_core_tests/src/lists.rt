//! Lists for the tests.
use sqlite_items::Items;
use std::alloc::{AllocError, Global};

/// The list of this alone.
pub fn only<T: Drop>(alloc: Global, item: T) -> Result<Items<T>, AllocError> {
    let mut all = Items::new(alloc);
    all.push(item)?;
    Ok(all)
}
