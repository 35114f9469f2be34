//! Which line of a package file is refused first.
ghost use Rattle.std.specs.Prelude.{◌≡◌, ◌++◌, List, ℕ, IfOk, OnOk, map, is_some};
ghost use Rattle.std.specs.List.{filter, flat_map};
ghost use Rattle.std.specs.HashSet.{contains};
ghost use Rattle.std.specs.Str.{bytes_eq};
ghost use Rattle.bp_base.specs.Lists.{is_among};
ghost use Rattle.cabal_text.specs.Least.{least_of};
ghost use Rattle.cabal_text.specs.Lines.{deeper_than};
ghost use Rattle.cabal_stanzas.specs.Project.{shallow_lines};
ghost use Rattle.cabal_stanzas.specs.Table.{component_field};
ghost use Rattle.cabal_component.specs.Package.{is_unread, unread_lines, has_main, main_refused, given_again, repeated, place, placed_in, main_place, placed, twice_lines, fields_refused, common_refused};
ghost use Rattle.cabal_component.specs.Given.{lines_of};

use crate::given::{Given, Value};
use bp_base::Name;
use cabal_stanzas::stanzas::{Field, fields_at, indent_in};
use cabal_stanzas::table::{COMPONENT_FIELDS, ComponentField, Kind, component_field, is_field};
use cabal_text::least::sooner;
use cabal_text::lines::Line;
use cabal_text::seen::add_name;
use sqlite_items::Items;
use std::alloc::{AllocError, Global};
use std::collections::HashSet;

/// A name with the line of the field that lists it.
#[derive(Debug, Drop)]
pub struct Listing {
    pub line: u64,
    pub name: Name,
}

/// The first field without a value.
fn unread_line(givens: &[Given]) -> Option<u64>
    ensures { result ≡ least_of (unread_lines givens.now) }
{
    let mut least = None;
    for given in givens {
        if given.value.is_none() {
            least = sooner(least, Some(given.line));
        }
    }
    least
}

fn has_main(givens: &[Given]) -> bool
    ensures { result ≡ has_main givens.now }
{
    givens
        .iter()
        .any(|given| is_field(given.field, ComponentField::MainIs))
}

/// The head of an executable without a main file.
fn main_line(kind: Kind, head: u64, givens: &[Given]) -> Option<u64>
    ensures { result ≡ least_of (main_refused kind head givens.now) }
{
    match kind {
        Kind::Executable if !has_main(givens) => Some(head),
        Kind::Library | Kind::Executable => None,
    }
}

/// The first line of a field.
fn line_of(field: ComponentField, givens: &[Given]) -> Option<u64>
    ensures { result ≡ least_of (lines_of field givens.now) }
{
    let mut least = None;
    for given in givens {
        if is_field(given.field, field) {
            least = sooner(least, Some(given.line));
        }
    }
    least
}

/// The first line that gives a field again.
fn again_line(field: ComponentField, givens: &[Given]) -> Option<u64>
    ensures { result ≡ least_of (given_again givens.now field) }
{
    let mut rest = givens;
    while let [given, after @ ..] = rest {
        if is_field(given.field, field) {
            return line_of(field, after);
        }
        rest = after;
    }
    None
}

/// The first line that gives one of these fields again.
fn again_in(fields: &[ComponentField], givens: &[Given]) -> Option<u64>
    ensures { result ≡ least_of (flat_map (given_again givens.now) fields.now) }
{
    let mut least = None;
    for field in fields {
        least = sooner(least, again_line(*field, givens));
    }
    least
}

/// The first line that gives a field again.
fn repeated_line(givens: &[Given]) -> Option<u64>
    ensures { result ≡ least_of (repeated givens.now) }
{
    again_in(&COMPONENT_FIELDS, givens)
}

/// Adds names at a line.
fn place_names(
    alloc: Global,
    line: u64,
    names: &[Name],
    places: &mut Items<Listing>,
) -> Result<(), AllocError>
    ensures { OnOk result (places.new ≡ places.old ++ map (place line) names.now) }
{
    for name in names {
        places.push(Listing {
            line,
            name: name.copied(alloc)?,
        })?;
    }
    Ok(())
}

/// Adds the names that a field lists.
fn place_given(alloc: Global, given: &Given, places: &mut Items<Listing>) -> Result<(), AllocError>
    ensures { OnOk result (places.new ≡ places.old ++ placed_in given.now) }
{
    match &given.value {
        Some(Value::Modules { names }) => place_names(alloc, given.line, names.as_slice(), places),
        _ => Ok(()),
    }
}

/// The module `Main` of an executable, at its head.
fn main_place(alloc: Global, kind: Kind, head: u64) -> Result<Items<Listing>, AllocError>
    ensures { IfOk result (λ places. places ≡ main_place kind head) }
{
    let mut places = Items::new(alloc);
    if matches!(kind, Kind::Executable) {
        places.push(Listing {
            line: head,
            name: Name::from_bytes(alloc, b"Main")?,
        })?;
    }
    Ok(places)
}

/// The own modules and signatures, as listed.
fn placed(
    alloc: Global,
    kind: Kind,
    head: u64,
    givens: &[Given],
) -> Result<Items<Listing>, AllocError>
    ensures { IfOk result (λ places. places ≡ placed kind head givens.now) }
{
    let mut places = main_place(alloc, kind, head)?;
    for given in givens {
        place_given(alloc, given, &mut places)?;
    }
    Ok(places)
}

/// The first of the places at which a name stands that stood before.
fn twice_line(alloc: Global, places: &[Listing]) -> Result<Option<u64>, AllocError>
    ensures { IfOk result (λ line. line ≡ least_of (twice_lines places.now)) }
{
    let mut seen = HashSet::new(alloc);
    let mut least = None;
    for place in places {
        if !add_name(alloc, &mut seen, &place.name)? {
            least = sooner(least, Some(place.line));
        }
    }
    Ok(least)
}

/// The first line that is refused for the fields of a component.
#[tactic(auto, using(cabal_text::proofs::SoonerLemmas::least_append))]
pub fn fields_line(
    alloc: Global,
    kind: Kind,
    head: u64,
    givens: &[Given],
) -> Result<Option<u64>, AllocError>
    ensures { IfOk result (λ line. line ≡ least_of (fields_refused kind head givens.now)) }
{
    let places = placed(alloc, kind, head, givens)?;
    let twice = twice_line(alloc, places.as_slice())?;
    let value = sooner(main_line(kind, head, givens), unread_line(givens));
    Ok(sooner(value, sooner(repeated_line(givens), twice)))
}

/// The first line between the head of a stanza and the indent of its first line.
pub fn shallow_line(lines: &[Line]) -> Option<u64>
    ensures { result ≡ least_of (shallow_lines lines.now) }
{
    let [first, rest @ ..] = lines else {
        return None;
    };
    let mut least = None;
    for line in rest {
        if line.indent < first.indent {
            least = sooner(least, Some(line.number));
        }
    }
    least
}

/// The first field that some component reads.
fn table_line(fields: &[Field]) -> Option<u64>
    ensures { result ≡ least_of (map (λ f. f.line) (filter (λ f. is_some (component_field f.name)) fields.now)) }
{
    let mut least = None;
    for field in fields {
        if component_field(field.name.as_bytes()).is_some() {
            least = sooner(least, Some(field.line));
        }
    }
    least
}

/// The first refused line of a common stanza.
#[tactic(auto, using(cabal_text::proofs::SoonerLemmas::least_append))]
pub fn common_line(alloc: Global, deeper: &[Line]) -> Result<Option<u64>, AllocError>
    ensures { IfOk result (λ line. line ≡ least_of (common_refused deeper.now)) }
{
    let fields = fields_at(alloc, indent_in(deeper), deeper)?;
    Ok(sooner(shallow_line(deeper), table_line(&fields)))
}

/// The first of the lines that have nothing before them that they go on.
pub fn deep_line(lines: &[Line]) -> Option<u64>
    ensures { result ≡ least_of (map (λ l. l.number) (deeper_than 0 lines.now)) }
{
    let mut least = None;
    for line in lines {
        if line.indent == 0 {
            return least;
        }
        least = sooner(least, Some(line.number));
    }
    least
}
