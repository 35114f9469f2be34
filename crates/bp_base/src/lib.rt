//! What every crate of the product speaks of: texts, identities, types, interfaces, defects, limits and steps.
#![tactic(auto)]

mod code;
mod defect;
mod entity;
mod hole;
mod ident;
mod linking;
mod lists;
mod names;
mod special;
mod steps;
mod text;
mod ty;

pub use code::{Code, Which, defect_code};
pub use defect::{Defect, Defects, Item, LimitHit, Place, Refusal};
pub use entity::{
    Assoc, Con, Cons, Entities, Entity, Export, Exports, Field, Fields, Fixity, Interface,
    Interfaces, Signature, Signatures, fixity_of_default, same_export,
};
pub use hole::{is_closed, is_closed_unit, occurs};
pub use ident::{Fill, Fills, Ident, Unit, copied_fills, same_fills, same_ident, same_unit};
pub use linking::{
    Include, Includes, Linking, Provision, Provisions, Rename, Renames, Renaming, Shown, Showns,
    copied_provisions, copied_renames,
};
pub use lists::{Copied, Same, copied_all, copied_names, same_all, same_names};
pub use names::{is_component_name, is_module_name, is_package_name};
pub use special::{Special, base_prelude, special_name, special_of, special_text};
pub use steps::Steps;
pub use text::{Bytes, Name, Names, Path, compare};
pub use ty::{
    Kind, OrigName, OrigNames, Scheme, Space, Ty, Tys, kind_eq, same_orig_name, same_scheme,
    same_ty,
};
