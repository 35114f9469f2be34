//! Defects with their places.
ghost use Rattle.std.specs.Prelude.{◌≡◌, IfOk};
ghost use Rattle.bp_checks.specs.Refused.{defect_at};

use bp_base::{Code, Defect, Item, Name, Place};
use std::alloc::{AllocError, Global};

/// A defect with the component and the module that it stands in, each empty where there is none.
pub fn defect_at(
    alloc: Global,
    code: Code,
    component: &[u8],
    at: &[u8],
    item: Item,
) -> Result<Defect, AllocError>
    ensures { IfOk result (λ defect. defect ≡ defect_at code component.now at.now item) }
{
    let component = Name::from_bytes(alloc, component)?;
    let module = Name::from_bytes(alloc, at)?;
    Ok(Defect {
        code,
        place: Place {
            component,
            module,
            item,
        },
    })
}
