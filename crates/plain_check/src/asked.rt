//! What a component asks for that isn't built yet.
ghost use Rattle.std.specs.Prelude.{◌≡◌, ◌++◌, [], codes, Some, IfOk};
ghost use Rattle.std.specs.List.{list_any};
ghost use Rattle.bp_base.specs.Lists.{is_among};
ghost use Rattle.bp_base.specs.declared.code.Code.TheVariants.{ComponentSyntax};
ghost use Rattle.bp_base.specs.declared.defect.Item.TheVariants as item;
ghost use Rattle.bp_checks.specs.Refused.{Checks, defect_at};
ghost use Rattle.cabal_text.specs.Least.{least_of};
ghost use Rattle.cabal_component.specs.Given.{lines_of};
ghost use Rattle.cabal_text.specs.Lines.{kept_lines};
ghost use Rattle.cabal_stanzas.specs.declared.table.ComponentField.TheVariants.{ExposedModules, OtherModules};
ghost use Rattle.cabal_stanzas.specs.declared.heads.Head.TheVariants as heads;
ghost use Rattle.plain_check.specs.Asked.{is_other, gives, asking_fields, or_head, asking_modules, asking_head, asking, asking_stanza, asking_block, asking_blocks, asked, asks_nothing};

use bp_base::{Code, Defect, Item, Name, Path, Refusal};
use bp_checks::defect_at;
use cabal_component::{Component, Given, Value, givens};
use cabal_stanzas::heads::{Head, component_name, head_at, package_of};
use cabal_stanzas::stanzas::{fields_at, indent_in};
use cabal_stanzas::table::{ComponentField, Kind, is_field};
use cabal_text::least::sooner;
use cabal_text::lines::{Line, deeper_len, kept_lines};
use std::alloc::{AllocError, Global};

/// Whether a component has this dependency.
fn has_base(deps: &[Name]) -> bool
    ensures { result ≡ is_among (codes "base") deps.now }
{
    for dep in deps {
        if dep.as_bytes() == b"base".as_slice() {
            return true;
        }
    }
    false
}

/// Whether a listed name means another component than `base`.
fn is_other(component: &Component, name: &Name) -> bool
    ensures { result ≡ is_other component.now name.now }
{
    name.as_bytes() != b"base".as_slice() || !has_base(component.deps.as_slice())
}

fn has_other(component: &Component, names: &[Name]) -> bool
    ensures { result ≡ list_any (is_other component.now) names.now }
{
    for name in names {
        if is_other(component, name) {
            return true;
        }
    }
    false
}

/// Whether a field gives a signature, a re-export, a mixin or a dependency other than `base`.
fn gives(component: &Component, given: &Given) -> bool
    ensures { result ≡ gives component.now given.now.field given.now.value }
{
    match &given.value {
        Some(Value::Modules { names }) => {
            is_field(given.field, ComponentField::Signatures) && names.len() > 0
        }
        Some(Value::Renames { renames }) => renames.len() > 0,
        Some(Value::Dependencies { names }) => has_other(component, names.as_slice()),
        Some(Value::Mixins { mixins }) => mixins.len() > 0,
        Some(Value::Main { .. } | Value::Folders { .. }) | None => false,
    }
}

/// The first field that gives such a thing.
fn field_line(component: &Component, givens: &[Given]) -> Option<u64>
    ensures { result ≡ least_of (asking_fields component.now givens.now) }
{
    let mut least = None;
    for given in givens {
        if gives(component, given) {
            least = sooner(least, Some(given.line));
        }
    }
    least
}

/// The first line of a field.
fn line_of(field: ComponentField, givens: &[Given]) -> Option<u64>
    ensures { result ≡ least_of (lines_of field givens.now) }
{
    let mut least = None;
    for given in givens {
        if is_field(given.field, field) {
            least = sooner(least, Some(given.line));
        }
    }
    least
}

/// The first field that lists modules, or the head.
#[tactic(auto, using(cabal_text::proofs::SoonerLemmas::least_append, crate::proofs::AskedLemmas::least_or_head))]
fn listing_line(head: u64, givens: &[Given]) -> Option<u64>
    ensures { result ≡ least_of (or_head head (lines_of ExposedModules givens.now ++ lines_of OtherModules givens.now)) }
{
    let exposed = line_of(ComponentField::ExposedModules, givens);
    let other = line_of(ComponentField::OtherModules, givens);
    match sooner(exposed, other) {
        Some(line) => Some(line),
        None => Some(head),
    }
}

/// The first line that is asked for having no modules, or more than one.
fn modules_line(component: &Component, head: u64, givens: &[Given]) -> Option<u64>
    ensures { result ≡ least_of (asking_modules component.now head givens.now) }
{
    let is_one = match component.exposed.len() {
        0 => component.other.len() == 1,
        1 => component.other.len() == 0,
        _ => false,
    };
    if is_one {
        None
    } else {
        listing_line(head, givens)
    }
}

/// The head of an executable.
fn head_line(component: &Component, head: u64) -> Option<u64>
    ensures { result ≡ least_of (asking_head component.now head) }
{
    if component.executable {
        Some(head)
    } else {
        None
    }
}

/// The first line of a component that asks for what isn't built yet.
#[tactic(auto, using(cabal_text::proofs::SoonerLemmas::least_append))]
fn asking_line(component: &Component, head: u64, givens: &[Given]) -> Option<u64>
    ensures { result ≡ least_of (asking component.now head givens.now) }
{
    let fields = sooner(
        modules_line(component, head, givens),
        field_line(component, givens),
    );
    sooner(head_line(component, head), fields)
}

/// The first such line of a stanza, where it is that of the component.
fn stanza_line(
    alloc: Global,
    component: &Component,
    owner: &Name,
    kind: Kind,
    name: &Name,
    head: u64,
    deeper: &[Line],
) -> Result<Option<u64>, AllocError>
    ensures { IfOk result (λ line. line ≡ least_of (asking_stanza component.now owner.now (Some (heads.Component kind name.now)) head deeper.now)) }
{
    let name = component_name(alloc, owner.as_bytes(), kind, name.as_bytes())?;
    if name != component.name {
        return Ok(None);
    }
    let fields = fields_at(alloc, indent_in(deeper), deeper)?;
    let given = givens(alloc, kind, &fields)?;
    Ok(asking_line(component, head, given.as_slice()))
}

/// The first such line of a block of indent 0.
fn block_line(
    alloc: Global,
    component: &Component,
    owner: &Name,
    line: &Line,
    deeper: &[Line],
) -> Result<Option<u64>, AllocError>
    ensures { IfOk result (λ found. found ≡ least_of (asking_block component.now owner.now (record { line = line.now; deeper = deeper.now }))) }
{
    match head_at(alloc, line)? {
        Some(Head::Component { kind, name }) => {
            stanza_line(alloc, component, owner, kind, &name, line.number, deeper)
        }
        _ => Ok(None),
    }
}

/// The first such line of blocks.
fn blocks_line(
    alloc: Global,
    component: &Component,
    owner: &Name,
    lines: &[Line],
) -> Result<Option<u64>, AllocError>
    ensures { IfOk result (λ line. line ≡ least_of (asking_blocks component.now owner.now lines.now)) }
{
    let mut least = None;
    let mut rest = lines;
    while let [line, after @ ..] = rest {
        if line.indent == 0 {
            let deeper = &after[..deeper_len(0, after)];
            let found = block_line(alloc, component, owner, line, deeper)?;
            least = sooner(least, found);
        }
        rest = after;
    }
    Ok(least)
}

/// The first such line of a package file.
fn asked_line(
    alloc: Global,
    component: &Component,
    content: &[u8],
) -> Result<Option<u64>, AllocError>
    ensures { IfOk result (λ line. line ≡ least_of (asked component.now (kept_lines content.now))) }
{
    let lines = kept_lines(alloc, content)?;
    let fields = fields_at(alloc, 0, &lines)?;
    let owner = package_of(alloc, &fields)?;
    blocks_line(alloc, component, &owner, &lines)
}

fn not_built(alloc: Global, path: &Path, line: u64) -> Result<Defect, AllocError>
    ensures { IfOk result (λ defect. defect ≡ defect_at ComponentSyntax path.now [] (item.Line line)) }
{
    let number = Item::Line { number: line };
    defect_at(alloc, Code::ComponentSyntax, path.as_bytes(), b"", number)
}

/// A component of the package file with this content asks for nothing that isn't built yet: it is a library of one module, without
/// signatures, re-exports and mixins, and depends on `base` alone. ComponentSyntax stands at the first line, of a field or of the
/// stanza's head, that asks for more.
#[tactic(auto, unfolding(crate::specs::Asked::asks_nothing), using(cabal_component::proofs::RefusedLemmas::none_refused))]
pub fn asks_nothing(alloc: Global, component: &Component, content: &[u8]) -> Result<(), Refusal>
    ensures { Checks (asks_nothing component.now content.now) result }
{
    match asked_line(alloc, component, content)? {
        None => Ok(()),
        Some(line) => Err(Refusal::Defect {
            defect: not_built(alloc, &component.file, line)?,
        }),
    }
}
