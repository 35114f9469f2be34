//! What is read of a project before its sources: files within their limits, and components that are told apart.
#![tactic(auto)]

mod files;
mod law;
mod once;
mod project;
mod sources;
mod texts;

pub use files::whole_file;
pub use law::{
    components_have_one_outcome, files_have_one_outcome, inputs_have_one_outcome,
    packages_have_one_outcome, projects_have_one_outcome, refused_files_are_defects,
    refused_names_are_defects, texts_have_one_outcome,
};
pub use once::told_apart;
pub use project::{Package, Packages, Project, read_files, read_package, read_packages};
pub use sources::{Input, Source, Sources, gathered, source_bytes};
pub use texts::{components_at, package_files};
