//! The classes of the identities of a table: the number of each one's class, in the order of the identities.
ghost use Rattle.std.specs.Prelude.{◌≡◌, map, IfOk};
ghost use Rattle.hole_unify.specs.Table.{renumbered, upto};

use std::alloc::{AllocError, Global};

/// So many identities, each in a class of its own.
pub fn first_classes(alloc: Global, count: usize) -> Result<Vec<usize>, AllocError>
    ensures { IfOk result (λ r. r.items ≡ upto count) }
{
    let mut classes = Vec::new(alloc);
    for class in 0..count {
        classes.push(class)?;
    }
    Ok(classes)
}

/// The number of a class, once `from` got the number `to`.
fn class_after(class: usize, from: usize, to: usize) -> usize
    ensures { result ≡ renumbered from to class }
{
    if class == from { to } else { class }
}

/// Makes one class of two: what has the number `from` gets the number `to`.
pub fn join(classes: &mut [usize], from: usize, to: usize)
    ensures { classes.new ≡ map (renumbered from to) classes.old }
{
    for class in classes.iter_mut() {
        *class = class_after(*class, from, to);
    }
}
