//! What names of modules mean to inference.
ghost use Rattle.std.specs.Prelude.{◌≡◌, IfSome, IfNone};
ghost use Rattle.bp_base.specs.Lists.{Among};
ghost use Rattle.infer_patterns.specs.Names.{IsUnknownName};

use bp_base::{Kind, OrigName, Ty, same_orig_name};

/// The declared type of a name: its variables are numbered from 0 and have these kinds. A constructor has a number of
/// fields.
#[derive(Debug, Drop)]
pub struct Declared {
    pub name: OrigName,
    pub kinds: Vec<Kind>,
    pub fields: Option<usize>,
    pub ty: Ty,
}

/// The first entry of a name.
pub fn find<'a>(names: &'a [Declared], name: &OrigName) -> Option<&'a Declared>
    ensures some { IfSome result (λ d. Among d.now names.now) }
    ensures same { IfSome result (λ d. d.now.name ≡ name.now) }
    ensures none { IfNone result (IsUnknownName names.now name.now) }
{
    for index in 0..names.len() {
        if same_orig_name(&names[index].name, name) {
            return Some(&names[index]);
        }
    }
    None
}
