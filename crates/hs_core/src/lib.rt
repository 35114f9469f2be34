//! Modules after their names are resolved: trees, renaming, dependency groups, the interface of `base`, and the definitions of
//! kinds, expansion, typing and matching that checking is to meet.
#![tactic(auto)]

mod base;
mod base_rows;
mod copies;
mod equal;
mod group;
mod laws;
mod rename;
mod rename_tree;
mod tree;
mod why;

pub use base::base_interface;
pub use copies::copied_decls;
pub use equal::{
    same_alt, same_body, same_checked, same_choice, same_con_decl, same_decl, same_exp,
    same_field_decl, same_guard, same_pat, same_rhs, same_written,
};
pub use group::{
    IndexGroup, IndexGroups, Indices, UseList, UseLists, are_in_range, groups, groups_are_one,
};
pub use laws::{
    body_renaming_composes, name_renaming_composes, names_mean_one_thing, nothing_renames,
    type_renaming_composes, types_expand,
};
pub use rename::{compose_renamings, rename_name, rename_ty, rename_written};
pub use rename_tree::rename_body;
pub use tree::{
    Alt, Alts, Body, Checked, Checkeds, Choice, Choices, Codes, ConDecl, ConDecls, Decl, Decls,
    Exp, Exps, FieldDecl, FieldDecls, Guard, Guards, Pat, Pats, Rhs, Written,
};
pub use why::Why;
