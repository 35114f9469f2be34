//! The locals that are seen, the newest first.
ghost use Rattle.std.specs.Prelude.{◌≡◌, ◌++◌, IfSome, IfNone, IfOk};
ghost use Rattle.expression_demands.specs.Expressions.{IsNewest, IsUnbound};

use bp_base::Name;
use std::alloc::{AllocError, Global};
use type_equations::Binder;

// The unknown of the newest local of a name.
pub(crate) fn find_local(env: &[Binder], name: &Name) -> Option<u64>
    ensures some { IfSome result (λ id. IsNewest name.now id env.now) }
    ensures none { IfNone result (IsUnbound name.now env.now) }
{
    for binder in env {
        if binder.name == *name {
            return Some(binder.unknown);
        }
    }
    None
}

/// Locals in front of others.
pub fn scope_of(
    alloc: Global,
    mut binders: Vec<Binder>,
    env: &[Binder],
) -> Result<Vec<Binder>, AllocError>
    ensures { IfOk result (λ r. r.items ≡ binders.items ++ env.now) }
{
    for binder in env {
        binders.push(Binder {
            name: binder.name.copied(alloc)?,
            unknown: binder.unknown,
        })?;
    }
    Ok(binders)
}
