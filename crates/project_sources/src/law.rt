//! Laws of what is read of a project.
ghost use Rattle.std.specs.Prelude.{ℕ, List};
ghost use Rattle.bp_base.specs.Texts.{Text};
ghost use Rattle.bp_checks.specs.Check.{IsExact, IsWithin};
ghost use Rattle.bp_checks.specs.Refused.{IsWrong};
ghost use Rattle.bp_edges.specs.declared.files.File.{File};
ghost use Rattle.cabal_component.specs.declared.component.Component.{Component};
ghost use Rattle.project_sources.specs.Limits.{Limits, unlimited};
ghost use Rattle.project_sources.specs.Reading.{whole_file};
ghost use Rattle.project_sources.specs.Once.{told_apart};
ghost use Rattle.project_sources.specs.Project.{packages_at, project_at};
ghost use Rattle.project_sources.specs.Texts.{package_files, components_at};
ghost use Rattle.project_sources.specs.Sources.{gathered};

/// A file has one content, or one refusal.
pub fn files_have_one_outcome()
    ensures { (l : Limits) (files : List File) (seen : ℕ) (component at path : Text)
        → IsExact (whole_file l files seen component at path) }
{}

/// Components are told apart, or there is one refusal.
pub fn components_have_one_outcome()
    ensures { (l : Limits) (cs : List Component) → IsExact (told_apart l cs) }
{}

/// A project file and a package file have one content, or one refusal.
pub fn texts_have_one_outcome()
    ensures project { (content : Text) → IsExact (package_files content) }
    ensures package { (path content : Text) → IsExact (components_at path content) }
{}

/// What is answered within limits is answered without them, and a defect is one without them too.
pub fn refused_files_are_defects()
    ensures { (l : Limits) (files : List File) (seen : ℕ) (component at path : Text)
        → IsWithin IsWrong (whole_file l files seen component at path) (whole_file unlimited files seen component at path) }
{}

/// The same of components that are told apart.
pub fn refused_names_are_defects()
    ensures { (l : Limits) (cs : List Component) → IsWithin IsWrong (told_apart l cs) (told_apart unlimited cs) }
{}

/// Package files have one content, or one refusal; and a defect is one without limits too.
pub fn packages_have_one_outcome()
    ensures one { (l : Limits) (files : List File) (seen : ℕ) (paths : List Text) → IsExact (packages_at l files seen paths) }
    ensures within { (l : Limits) (files : List File) (seen : ℕ) (paths : List Text)
        → IsWithin IsWrong (packages_at l files seen paths) (packages_at unlimited files seen paths) }
{}

/// A component has one input, or one refusal; and a defect is one without limits too, whatever was read before.
pub fn inputs_have_one_outcome()
    ensures one { (l : Limits) (files : List File) (seen : ℕ) (c : Component) → IsExact (gathered l files seen c) }
    ensures within { (l : Limits) (files : List File) (seen other : ℕ) (c : Component)
        → IsWithin IsWrong (gathered l files seen c) (gathered unlimited files other c) }
{}

/// A project has one list of components, or one refusal; and a defect is one without limits too.
pub fn projects_have_one_outcome()
    ensures one { (l : Limits) (files : List File) → IsExact (project_at l files) }
    ensures within { (l : Limits) (files : List File) → IsWithin IsWrong (project_at l files) (project_at unlimited files) }
{}
