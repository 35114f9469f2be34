//! Whether the values of a plain module have their declared types.
ghost use Rattle.std.specs.Prelude.{◌≡◌, ◌↔◌, ◌+◌, ◌≤◌, ℕ, List, length, IfOk, IsTrue, MatchResult};
ghost use Rattle.std.specs.List.{list_all};
ghost use Rattle.bp_base.specs.Lists.{is_among};
ghost use Rattle.plain_check.specs.Typing.{assumptions_of, IsTyped, AreTyped, IsFirstIll, OnIll, checked_before};
ghost use Rattle.plain_check.specs.Arities.{HoldsArrows, atom_arrows, is_integer, atoms_fit, fits};
ghost use Rattle.hs_plain.specs.declared.plain.Binding.{Binding};

use bp_base::{Name, Steps};
use hs_plain::{Atom, Binding};
use std::alloc::{AllocError, Global};
use std::collections::BTreeMap;
use std::sync::ledger::Ledger;

/// Why a module is not well typed.
#[derive(Debug, Drop)]
pub enum TypeError {
    /// The clause of a value has not its declared type; so many values stand before it, and each of them has.
    IllTyped { place: usize },
    NoMemory,
}

impl From<AllocError> for TypeError {
    ghost use Rattle.std.specs.Prelude.{◌≡◌};
    ghost use Rattle.plain_check.specs.declared.typing.TypeError.TheVariants.{NoMemory};

    ghost from_gives = { λ _ e. e ≡ NoMemory };

    fn from(_: AllocError) -> TypeError {
        TypeError::NoMemory
    }
}

/// How many arrows the type of each declared name has.
fn arrows_of(alloc: Global, bindings: &[Binding]) -> Result<BTreeMap<Name, u64>, AllocError>
    ensures { IfOk result (λ table. HoldsArrows table bindings.now) }
{
    let mut table = BTreeMap::new(alloc);
    for binding in bindings {
        if table.contains_key(&binding.occ) {
            continue;
        }
        let occ = binding.occ.copied(alloc)?;
        table.insert(occ, binding.arrows)?;
    }
    Ok(table)
}

/// Whether the name is one of these.
fn is_among(name: &Name, names: &[Name]) -> bool
    ensures { result ≡ is_among name.now names.now }
{
    for other in names {
        if *name == *other {
            return true;
        }
    }
    false
}

/// The arrows of an atom's type, in a clause with these arguments. The table holds the arrows of the declared names.
fn atom_arrows(atom: &Atom, args: &[Name], table: &BTreeMap<Name, u64>) -> Option<u64>
    ensures { (bindings : List Binding) → HoldsArrows table.now bindings → result ≡ atom_arrows bindings args.now atom.now }
{
    match atom {
        Atom::Number { .. } => Some(0),
        Atom::Argument { occ } => { if is_among(occ, args) { Some(0) } else { None } }
        Atom::Declared { occ } => table.get(occ).copied(),
    }
}

/// Whether an atom has the type `Int`.
fn is_integer(atom: &Atom, args: &[Name], table: &BTreeMap<Name, u64>) -> bool
    ensures { (bindings : List Binding) → HoldsArrows table.now bindings → result ≡ is_integer bindings args.now atom.now }
{
    match atom_arrows(atom, args, table) {
        Some(arrows) => arrows == 0,
        None => false,
    }
}

/// Whether all these atoms have the type `Int`.
fn are_integers(atoms: &[Atom], args: &[Name], table: &BTreeMap<Name, u64>) -> bool
    ensures { (bindings : List Binding) → HoldsArrows table.now bindings
        → result ≡ list_all (is_integer bindings args.now) atoms.now }
{
    for atom in atoms {
        if !is_integer(atom, args, table) {
            return false;
        }
    }
    true
}

/// Whether a right side leaves the arrows that the arguments of its clause leave of the declared type.
fn atoms_fit(binding: &Binding, atoms: &[Atom], table: &BTreeMap<Name, u64>) -> bool
    requires { length binding.now.args ≤ binding.now.arrows }
    ensures { (bindings : List Binding) → HoldsArrows table.now bindings → result ≡ atoms_fit bindings binding.now atoms.now }
{
    let args = binding.args.as_slice();
    let [first, rest @ ..] = atoms else {
        return false;
    };
    let Some(arrows) = atom_arrows(first, args, table) else {
        return false;
    };
    if !are_integers(rest, args, table) {
        return false;
    }
    let left = binding.arrows - args.len() as u64;
    match arrows.checked_sub(rest.len() as u64) {
        Some(after) => after == left,
        None => false,
    }
}

/// Whether the clause of a value fits its declared type.
fn fits(binding: &Binding, table: &BTreeMap<Name, u64>) -> bool
    ensures { (bindings : List Binding) → HoldsArrows table.now bindings → result ≡ fits bindings binding.now }
{
    binding.args.len() as u64 <= binding.arrows
        && atoms_fit(binding, binding.atoms.as_slice(), table)
}

/// Whether the clause of a value has its declared type.
fn is_typed(binding: &Binding, table: &BTreeMap<Name, u64>) -> bool
    ensures { (bindings : List Binding) → HoldsArrows table.now bindings
        → IsTrue result ↔ IsTyped (assumptions_of bindings) binding.now }
{
    fits(binding, table)
}

/// Checks one value after another, and counts each.
fn check_each<L: Ledger>(
    bindings: &[Binding],
    table: &BTreeMap<Name, u64>,
    steps: &mut Steps<L>,
) -> Result<(), TypeError>
    ensures outcome { (all : List Binding) → HoldsArrows table.now all
        → MatchResult result (λ _. AreTyped (assumptions_of all) bindings.now) (OnIll (IsFirstIll (assumptions_of all) bindings.now)) }
    ensures steps { MatchResult result (λ _. steps.new ≡ steps.old + length bindings.now) (λ e. steps.new ≡ steps.old + checked_before e) }
{
    for (place, binding) in bindings.iter().enumerate() {
        steps.tick();
        if !is_typed(binding, table) {
            return Err(TypeError::IllTyped { place });
        }
    }
    Ok(())
}

/// Checks that the clause of each value has its declared type. It stops at the first one that has not. Each value that it looks
/// at is one step.
pub fn check_bindings<L: Ledger>(
    alloc: Global,
    bindings: &[Binding],
    steps: &mut Steps<L>,
) -> Result<(), TypeError>
    ensures outcome { MatchResult result (λ _. AreTyped (assumptions_of bindings.now) bindings.now)
        (OnIll (IsFirstIll (assumptions_of bindings.now) bindings.now)) }
    ensures steps { MatchResult result (λ _. steps.new ≡ steps.old + length bindings.now) (λ e. steps.new ≡ steps.old + checked_before e) }
{
    let table = arrows_of(alloc, bindings)?;
    check_each(bindings, &table, steps)
}
