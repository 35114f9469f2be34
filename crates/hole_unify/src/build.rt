//! Building closed classes, none of whose holes reaches itself.
ghost use Rattle.std.specs.Prelude.{◌≡◌, ℕ, ◌<◌, ◌≤◌, List, length, Option, Some, None, replicate, IfOk, slice_get, get_or, set};
ghost use Rattle.std.specs.Option.{option_map, option_copied};
ghost use Rattle.std.specs.Ordering.{nat_cmp, is_lt};
ghost use Rattle.std.specs.Cmp.Lexicographic.{slice_cmp};
ghost use Rattle.bp_base.specs.Lists.{Among};
ghost use Rattle.bp_base.specs.Texts.{Text};
ghost use Rattle.ident_table.specs.Numbers.{ident_of, AreFillsBelow, IsIdentTable, Grows};
ghost use Rattle.hole_unify.specs.declared.equation.Equation.{Equation};
ghost use Rattle.hole_unify.specs.declared.build.Ready.{Ready};
ghost use Rattle.hole_unify.specs.declared.build.Ready.TheVariants.{Hole};
ghost use Rattle.hole_unify.specs.Table.{nodes_of};
ghost use Rattle.hole_unify.specs.Tables.{IsTable};
ghost use Rattle.hole_unify.specs.IsFaithful.{IsFaithful};
ghost use Rattle.hole_unify.specs.Reach.{lesser};
ghost use Rattle.hole_unify.specs.Build.{number_built, built_of, AreBuiltBelow, has_module, least_hole, hole_of, hole_ready, term_ready, node_ready, first_ready};
ghost use Rattle.hole_unify.specs.Stages.{node_at, hole_at, built_for, made_of, ready_entry, numbers_built, ready_ident, IsReadyBelow, IsStage, Follows, Steps};

use crate::lookup::{hole_name, is_before, is_module_at};
use crate::reach::empty_lists;
use bp_base::Name;
use ident_table::{IdentNode, IdentTable, NumberFill, NumberFills};
use std::alloc::{AllocError, Global};

/// Whether the identity is a module.
fn class_has_module(table: &IdentTable, classes: &[usize], class: usize) -> bool
    requires { length classes.now ≤ length table.now }
    ensures { result ≡ has_module class (nodes_of table.now classes.now) }
{
    for (number, each) in classes.iter().enumerate() {
        if *each == class && is_module_at(table, number) {
            return true;
        }
    }
    false
}

/// Of two numbers of holes that of the lesser name.
fn lesser_number(table: &IdentTable, best: Option<usize>, number: usize) -> Option<usize>
    requires number { number < length table.now }
    requires best { (k : ℕ) → best ≡ Some k → k < length table.now }
    ensures lesser { (name : Option Text) → number_built table.now best ≡ hole_of name → number_built table.now result ≡ hole_of (lesser name (hole_at table.now number)) }
    ensures below { (k : ℕ) → result ≡ Some k → k < length table.now }
{
    let Some(new) = hole_name(table, number) else {
        return best;
    };
    let Some(before) = best else {
        return Some(number);
    };
    match hole_name(table, before) {
        Some(old) if !is_before(new, old) => best,
        _ => Some(number),
    }
}

/// The least hole of a class.
fn find_least_hole(table: &IdentTable, classes: &[usize], class: usize) -> Option<usize>
    requires { length classes.now ≤ length table.now }
    ensures least { number_built table.now result ≡ hole_of (least_hole class (nodes_of table.now classes.now)) }
    ensures below { (k : ℕ) → result ≡ Some k → k < length table.now }
{
    let mut best = None;
    for (number, each) in classes.iter().enumerate() {
        if *each == class {
            best = lesser_number(table, best, number);
        }
    }
    best
}

/// What a class without a module is.
fn class_hole_number(table: &IdentTable, classes: &[usize], class: usize) -> Option<usize>
    requires { length classes.now ≤ length table.now }
    ensures hole { number_built table.now result ≡ hole_ready (nodes_of table.now classes.now) class }
    ensures below { (k : ℕ) → result ≡ Some k → k < length table.now }
{
    if class_has_module(table, classes, class) {
        return None;
    }
    find_least_hole(table, classes, class)
}

/// What is built for the class of an identity.
fn built_for(classes: &[usize], built: &[Option<usize>], number: usize) -> Option<usize>
    requires number { number < length classes.now }
    requires length { length built.now ≡ length classes.now }
    requires classes { (k : ℕ) → Among k classes.now → k < length classes.now }
    ensures { result ≡ built_for classes.now built.now number }
{
    let class = classes[number];
    built[class]
}

/// What is built for the fills of a unit, where all are built.
fn build_fills(
    alloc: Global,
    classes: &[usize],
    built: &[Option<usize>],
    fills: &[NumberFill],
) -> Result<Option<NumberFills>, AllocError>
    requires length { length built.now ≡ length classes.now }
    requires classes { (k : ℕ) → Among k classes.now → k < length classes.now }
    requires fills { AreFillsBelow (length classes.now) fills.now }
    ensures { IfOk result (λ r. r ≡ numbers_built classes.now built.now fills.now) }
{
    let mut all = NumberFills::new(alloc);
    for each in fills {
        match built_for(classes, built, each.ident) {
            Some(ident) => all.push(NumberFill {
                hole: each.hole.copied(alloc)?,
                ident,
            })?,
            None => return Ok(None),
        }
    }
    Ok(Some(all))
}

/// What a class can be.
#[derive(Drop)]
pub enum Ready {
    Hole {
        number: usize,
    },
    Module {
        component: Name,
        fills: NumberFills,
        module: Name,
    },
}

/// A module with what is built for its fills, where all are built.
fn ready_module(
    alloc: Global,
    classes: &[usize],
    built: &[Option<usize>],
    component: &Name,
    fills: &[NumberFill],
    module: &Name,
) -> Result<Option<Ready>, AllocError>
    requires length { length built.now ≡ length classes.now }
    requires classes { (k : ℕ) → Among k classes.now → k < length classes.now }
    requires fills { AreFillsBelow (length classes.now) fills.now }
    ensures { IfOk result (λ r. r ≡ made_of component.now «module».now (numbers_built classes.now built.now fills.now)) }
{
    match build_fills(alloc, classes, built, fills)? {
        Some(fills) => Ok(Some(Ready::Module {
            component: component.copied(alloc)?,
            fills,
            module: module.copied(alloc)?,
        })),
        None => Ok(None),
    }
}

fn ready_hole(number: Option<usize>) -> Option<Ready>
    ensures { result ≡ option_map Hole number }
{
    match number {
        Some(number) => Some(Ready::Hole { number }),
        None => None,
    }
}

/// What a class is by one of its identities, where that can be built.
fn find_ready(
    alloc: Global,
    table: &IdentTable,
    classes: &[usize],
    built: &[Option<usize>],
    number: usize,
) -> Result<Option<Ready>, AllocError>
    requires stage { IsStage table.now classes.now built.now }
    requires number { number < length classes.now }
    ensures ready { IfOk result (λ r. option_map (ready_ident table.now) r ≡ term_ready (nodes_of table.now classes.now) (built_of table.now built.now) (get_or classes.now number 0) (ident_of table.now number)) }
    ensures below { IfOk result (λ r. (x : Ready) → r ≡ Some x → IsReadyBelow (length table.now) x) }
{
    match table.node_at(number) {
        IdentNode::Hole { .. } => {
            let hole = class_hole_number(table, classes, classes[number]);
            Ok(ready_hole(hole))
        }
        IdentNode::Module {
            component,
            fills,
            module,
        } => {
            let fills = fills.as_slice();
            let ready = ready_module(alloc, classes, built, component, fills, module)?;
            Ok(ready)
        }
    }
}

/// The number of what a class is.
fn put_ready(table: &mut IdentTable, ready: Ready) -> Result<usize, AllocError>
    requires below { IsReadyBelow (length table.old) ready }
    requires table { IsIdentTable table.old }
    ensures number { IfOk result (λ n. slice_get table.new n ≡ Some (ready_ident table.old ready)) }
    ensures grows { IfOk result (λ n. Grows table.old table.new) }
    ensures table { IfOk result (λ n. IsIdentTable table.new) }
{
    match ready {
        Ready::Hole { number } => Ok(number),
        Ready::Module {
            component,
            fills,
            module,
        } => {
            let number = table.number_module(component, fills, module)?;
            Ok(number)
        }
    }
}

/// What the class of an identity is, where it is not built and can be.
fn find_new(
    alloc: Global,
    table: &IdentTable,
    classes: &[usize],
    built: &[Option<usize>],
    number: usize,
) -> Result<Option<Ready>, AllocError>
    requires stage { IsStage table.now classes.now built.now }
    requires number { number < length classes.now }
    ensures ready { IfOk result (λ r. option_map (ready_entry table.now (get_or classes.now number 0)) r ≡ node_ready (nodes_of table.now classes.now) (built_of table.now built.now) (node_at table.now classes.now number)) }
    ensures below { IfOk result (λ r. (x : Ready) → r ≡ Some x → IsReadyBelow (length table.now) x) }
{
    if let Some(_ident) = built_for(classes, built, number) {
        return Ok(None);
    }
    let ready = find_ready(alloc, table, classes, built, number)?;
    Ok(ready)
}

/// Notes what a class is.
fn set_built(built: &mut [Option<usize>], class: usize, ident: usize)
    requires { class < length built.old }
    ensures { built.new ≡ set built.old class (Some ident) }
{
    built[class] = Some(ident);
}

/// Builds the class of an identity, where it is not built and can be.
fn build_class_of(
    alloc: Global,
    table: &mut IdentTable,
    classes: &[usize],
    built: &mut [Option<usize>],
    number: usize,
) -> Result<bool, AllocError>
    requires stage { IsStage table.old classes.now built.old }
    requires number { number < length classes.now }
    ensures stage { IfOk result (λ more. IsStage table.new classes.now built.new) }
    ensures steps { IfOk result (λ more. Steps classes.now table.old built.old table.new built.new (node_ready (nodes_of table.old classes.now) (built_of table.old built.old) (node_at table.old classes.now number) ≡ None) more) }
{
    match find_new(alloc, table, classes, built, number)? {
        Some(ready) => {
            let ident = put_ready(table, ready)?;
            set_built(built, classes[number], ident);
            Ok(true)
        }
        None => Ok(false),
    }
}

/// Builds the classes of those of these identities that can be built.
fn build_some(
    alloc: Global,
    table: &mut IdentTable,
    classes: &[usize],
    built: &mut [Option<usize>],
    numbers: &[usize],
) -> Result<(), AllocError>
    requires { IsStage table.old classes.now built.old }
    ensures stage { IfOk result (λ r. IsStage table.new classes.now built.new) }
    ensures follows { IfOk result (λ r. Follows classes.now table.old built.old table.new built.new) }
{
    for number in numbers {
        if *number < classes.len() {
            build_class_of(alloc, table, classes, built, *number)?;
        }
    }
    Ok(())
}

/// One look at each identity. Whether a class was built.
fn build_pass(
    alloc: Global,
    table: &mut IdentTable,
    classes: &[usize],
    built: &mut [Option<usize>],
) -> Result<bool, AllocError>
    requires { IsStage table.old classes.now built.old }
    ensures stage { IfOk result (λ r. IsStage table.new classes.now built.new) }
    ensures steps { IfOk result (λ more. Steps classes.now table.old built.old table.new built.new (first_ready (nodes_of table.old classes.now) (built_of table.old built.old) (nodes_of table.old classes.now) ≡ None) more) }
{
    let mut more = false;
    for number in 0..classes.len() {
        if build_class_of(alloc, table, classes, built, number)? {
            more = true;
        }
    }
    Ok(more)
}

/// Puts the numbers of the modules, or of the holes, to those of their classes.
fn add_members(
    table: &IdentTable,
    classes: &[usize],
    modules: bool,
    members: &mut [Vec<usize>],
) -> Result<(), AllocError>
    requires { length classes.now ≤ length table.now }
{
    for (number, class) in classes.iter().enumerate() {
        if *class < members.len() && is_module_at(table, number) == modules {
            members[*class].push(number)?;
        }
    }
    Ok(())
}

/// The numbers of each class, modules first: where a class has a module, no hole is looked at.
fn list_members(
    alloc: Global,
    table: &IdentTable,
    classes: &[usize],
) -> Result<Vec<Vec<usize>>, AllocError>
    requires { length classes.now ≤ length table.now }
{
    let mut members = Vec::with_capacity(alloc, classes.len())?;
    for _class in classes {
        members.push(Vec::new(alloc))?;
    }
    add_members(table, classes, true, members.as_mut_slice())?;
    add_members(table, classes, false, members.as_mut_slice())?;
    Ok(members)
}

/// Builds classes in this order.
fn build_in_order(
    alloc: Global,
    table: &mut IdentTable,
    classes: &[usize],
    built: &mut [Option<usize>],
    order: &[usize],
) -> Result<(), AllocError>
    requires { IsStage table.old classes.now built.old }
    ensures stage { IfOk result (λ r. IsStage table.new classes.now built.new) }
    ensures follows { IfOk result (λ r. Follows classes.now table.old built.old table.new built.new) }
{
    let members = list_members(alloc, table, classes)?;
    for class in order {
        if *class < members.len() {
            build_some(alloc, table, classes, built, members[*class].as_slice())?;
        }
    }
    Ok(())
}

/// So many classes, none of which is built.
fn none_built(alloc: Global, count: usize) -> Result<Vec<Option<usize>>, AllocError>
    ensures { IfOk result (λ r. r.items ≡ replicate count None) }
{
    let mut built = Vec::with_capacity(alloc, count)?;
    for _class in 0..count {
        built.push(None)?;
    }
    Ok(built)
}

/// Builds all classes.
fn build_all(
    alloc: Global,
    table: &mut IdentTable,
    classes: &[usize],
    built: &mut [Option<usize>],
    order: &[usize],
) -> Result<(), AllocError>
    requires { IsStage table.old classes.now built.old }
    ensures stage { IfOk result (λ r. IsStage table.new classes.now built.new) }
    ensures follows { IfOk result (λ r. Follows classes.now table.old built.old table.new built.new) }
    ensures ends { IfOk result (λ r. first_ready (nodes_of table.old classes.now) (built_of table.new built.new) (nodes_of table.old classes.now) ≡ None) }
{
    build_in_order(alloc, table, classes, built, order)?;
    'passes: while build_pass(alloc, table, classes, built)? {}
    Ok(())
}

/// Builds all classes, each as a number of the table. The order in which they are tried only saves time: those that are left are found
/// one by one.
pub fn build(
    alloc: Global,
    table: &mut IdentTable,
    classes: &[usize],
    order: &[usize],
) -> Result<Vec<Option<usize>>, AllocError>
    requires length { length classes.now ≡ length table.old }
    requires classes { (k : ℕ) → Among k classes.now → k < length classes.now }
    ensures grows { IfOk result (λ built. Grows table.old table.new) }
    ensures below { IfOk result (λ built. AreBuiltBelow (length table.new) built.items) }
    ensures stands { IfOk result (λ built. (es : List Equation) → IsTable es (nodes_of table.old classes.now) → IsFaithful es (nodes_of table.old classes.now) (built_of table.new built.items)) }
    ensures ends { IfOk result (λ built. first_ready (nodes_of table.old classes.now) (built_of table.new built.items) (nodes_of table.old classes.now) ≡ None) }
{
    let mut built = none_built(alloc, table.len())?;
    build_all(alloc, table, classes, built.as_mut_slice(), order)?;
    Ok(built)
}
