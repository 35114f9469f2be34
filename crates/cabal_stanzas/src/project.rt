//! Project files.
ghost use Rattle.std.specs.Prelude.{◌≡◌, ◌++◌, ◌∷◌, [], List, ℕ, OnOk, IfErr, MatchResult, IsTrue};
ghost use Rattle.std.specs.List.{flat_map};
ghost use Rattle.cabal_text.specs.Lines.{Block, kept_lines};
ghost use Rattle.cabal_stanzas.specs.Folder.{trimmed, package_file};
ghost use Rattle.cabal_stanzas.specs.Project.{files_of, refused_at, is_conditional, shallow_lines, field_files, field_refused, stanza_refused, block_files, block_refused, project_files, project_refused, NamesFirst};
ghost use Rattle.cabal_stanzas.specs.declared.project.ProjectError.TheVariants.{ProjectSyntax, NoMemory};

use crate::folder::{Paths, is_refused_item, package_file, trimmed};
use cabal_text::fields::{field_of, first_word, is_word, next_item};
use cabal_text::lines::{Line, deeper_len, kept_lines};
use sqlite_items::Items;
use std::alloc::{AllocError, Global};

#[derive(Clone, Copy, Debug, PartialEq, Eq)]
pub enum ProjectError {
    ProjectSyntax { line: u64 },
    NoMemory,
}

impl From<AllocError> for ProjectError {
    ghost from_gives = { λ _ e. e ≡ NoMemory };

    fn from(_: AllocError) -> Self {
        ProjectError::NoMemory
    }
}

/// Adds the package file that an item names.
fn add_file(alloc: Global, item: &[u8], files: &mut Paths) -> Result<(), AllocError>
    ensures { OnOk result (files.new ≡ files.old ++ package_file (trimmed item.now) ∷ []) }
{
    files.push(package_file(alloc, trimmed(item))?)?;
    Ok(())
}

/// Adds the package files that a list on this line names.
fn read_list(alloc: Global, number: u64, text: &[u8], files: &mut Paths) -> Result<(), ProjectError>
    ensures { MatchResult result
        (λ _. (refused_at number text.now ≡ []) × (files.new ≡ files.old ++ files_of text.now))
        (λ e. NamesFirst e (refused_at number text.now)) }
{
    let mut rest = text;
    while let Some((item, after)) = next_item(rest) {
        if is_refused_item(item) {
            return Err(ProjectError::ProjectSyntax { line: number });
        }
        add_file(alloc, item, files)?;
        rest = after;
    }
    Ok(())
}

/// Whether the word is the head of a conditional.
#[tactic(auto, unfolding(crate::specs::Project::is_conditional))]
fn is_conditional(word: &[u8]) -> bool
    ensures { result ≡ is_conditional word.now }
{
    is_word(word, b"if") || is_word(word, b"elif") || is_word(word, b"else")
}

/// Sees that no line of a stanza is less deep than its first one.
fn see_indents(lines: &[Line]) -> Result<(), ProjectError>
    ensures { MatchResult result (λ _. shallow_lines lines.now ≡ []) (λ e. NamesFirst e (shallow_lines lines.now)) }
{
    let [first, rest @ ..] = lines else {
        return Ok(());
    };
    for line in rest {
        if line.indent < first.indent {
            return Err(ProjectError::ProjectSyntax { line: line.number });
        }
    }
    Ok(())
}

/// Adds the package files that a top-level field names.
fn read_field(
    alloc: Global,
    number: u64,
    name: &[u8],
    value: &[u8],
    deeper: &[Line],
    files: &mut Paths,
) -> Result<(), ProjectError>
    ensures { MatchResult result
        (λ _. (field_refused number (name.now, value.now) deeper.now ≡ [])
        × (files.new ≡ files.old ++ field_files (name.now, value.now) deeper.now))
        (λ e. NamesFirst e (field_refused number (name.now, value.now) deeper.now)) }
{
    if is_word(name, b"import") {
        return Err(ProjectError::ProjectSyntax { line: number });
    }
    if is_word(name, b"packages") {
        read_list(alloc, number, value, files)?;
        for line in deeper {
            read_list(alloc, line.number, line.text.as_bytes(), files)?;
        }
    }
    Ok(())
}

/// Sees that the lines of a stanza may be ignored.
fn see_stanza(head: &Line, deeper: &[Line]) -> Result<(), ProjectError>
    ensures { MatchResult result (λ _. stanza_refused head.now deeper.now ≡ []) (λ e. NamesFirst e (stanza_refused head.now deeper.now)) }
{
    if is_conditional(first_word(head.text.as_bytes())) {
        return Err(ProjectError::ProjectSyntax { line: head.number });
    }
    see_indents(deeper)
}

/// Adds the package files that a line of indent 0 names with the deeper lines after it.
fn read_block(
    alloc: Global,
    line: &Line,
    deeper: &[Line],
    files: &mut Paths,
) -> Result<(), ProjectError>
    ensures { MatchResult result
        (λ _. (block_refused (record { line = line.now; deeper = deeper.now }) ≡ [])
        × (files.new ≡ files.old ++ block_files (record { line = line.now; deeper = deeper.now })))
        (λ e. NamesFirst e (block_refused (record { line = line.now; deeper = deeper.now }))) }
{
    match field_of(line.text.as_bytes()) {
        Some((name, value)) => read_field(alloc, line.number, name, value, deeper, files),
        None => see_stanza(line, deeper),
    }
}

/// The package files that lines of a project name.
fn read_blocks(alloc: Global, lines: &[Line]) -> Result<Paths, ProjectError>
    ensures { MatchResult result
        (λ files. (project_refused lines.now ≡ []) × (files ≡ project_files lines.now))
        (λ e. NamesFirst e (project_refused lines.now)) }
{
    let mut files = Items::new(alloc);
    let mut rest = lines;
    if let [first, ..] = lines
        && first.indent > 0
    {
        return Err(ProjectError::ProjectSyntax { line: first.number });
    }
    while let [line, after @ ..] = rest {
        let (deeper, next) = after.split_at(deeper_len(0, after));
        read_block(alloc, line, deeper, &mut files)?;
        rest = next;
    }
    Ok(files)
}

/// The package files that a project file names.
pub fn read_project(alloc: Global, bytes: &[u8]) -> Result<Paths, ProjectError>
    ensures { MatchResult result
        (λ files. (project_refused (kept_lines bytes.now) ≡ []) × (files ≡ project_files (kept_lines bytes.now)))
        (λ e. NamesFirst e (project_refused (kept_lines bytes.now))) }
{
    let lines = kept_lines(alloc, bytes)?;
    read_blocks(alloc, &lines)
}
