//! Closing classes: the sides of each equation are put into one class, and where two classes with one head become one, their fills at
//! each hole too. What is still to be done waits in a list of pairs of numbers.
ghost use Rattle.std.specs.Prelude.{◌≡◌, ◌<◌, ◌≤◌, List, ◌++◌, length, Some, IfOk, OnOk, IfSome, option_map};
ghost use Rattle.ident_table.specs.Numbers.{ident_of, IsIdentTable};
ghost use Rattle.hole_unify.specs.declared.equation.Equation.{Equation};
ghost use Rattle.hole_unify.specs.Causes.{IsLawful};
ghost use Rattle.hole_unify.specs.Table.{HasTerms, class_at, nodes_of, moved, upto};
ghost use Rattle.hole_unify.specs.Numbers.{number_at};
ghost use Rattle.hole_unify.specs.Close.{pairs_of, stated_pairs, ArePairsBelow, ClosesTo, fill_numbers, fills_numbers, nodes_numbers, nodes_heads, module_at, modules_pairs, modules_heads, classes_pairs, classes_heads, classes_moved};

use crate::classes::join;
use crate::equation::Head;
use crate::lookup::{filler, is_module_at};
use crate::pair::NumberPair;
use bp_base::Name;
use ident_table::{IdentNode, IdentTable, NumberFill};
use std::alloc::{AllocError, Global};

/// The fills of two modules at one hole.
fn add_pair_at(
    ours: &[NumberFill],
    theirs: &[NumberFill],
    hole: &Name,
    pending: &mut Vec<NumberPair>,
) -> Result<(), AllocError>
    ensures { OnOk result (pending.new.items ≡ pending.old.items ++ fill_numbers (number_at hole.now ours.now) (number_at hole.now theirs.now)) }
{
    if let Some(one) = filler(ours, hole) {
        if let Some(other) = filler(theirs, hole) {
            pending.push(NumberPair { one, other })?;
        }
    }
    Ok(())
}

/// The fills of two modules of one component, hole by hole.
fn add_pairs(
    ours: &[NumberFill],
    theirs: &[NumberFill],
    pending: &mut Vec<NumberPair>,
) -> Result<(), AllocError>
    ensures { OnOk result (pending.new.items ≡ pending.old.items ++ fills_numbers ours.now theirs.now ours.now) }
{
    for each in ours {
        add_pair_at(ours, theirs, &each.hole, pending)?;
    }
    Ok(())
}

fn head(alloc: Global, component: &Name, module: &Name) -> Result<Head, AllocError>
    ensures component { IfOk result (λ r. r.component ≡ component.now) }
    ensures name { IfOk result (λ r. r.«module» ≡ «module».now) }
{
    Ok(Head {
        component: component.copied(alloc)?,
        module: module.copied(alloc)?,
    })
}

/// What follows where two identities are of one class: their heads are one, and so are their fills. The answer is two different heads.
fn compare_nodes(
    alloc: Global,
    one: &IdentNode,
    other: &IdentNode,
    pending: &mut Vec<NumberPair>,
) -> Result<Option<(Head, Head)>, AllocError>
    ensures heads { IfOk result (λ r. r ≡ nodes_heads one.now other.now) }
    ensures pairs { IfOk result (λ r. pending.new.items ≡ pending.old.items ++ nodes_numbers one.now other.now) }
{
    match (one, other) {
        (
            IdentNode::Module {
                component,
                fills,
                module: name,
            },
            IdentNode::Module {
                component: other_component,
                fills: other_fills,
                module: other_name,
            },
        ) => {
            if *component == *other_component && *name == *other_name {
                add_pairs(fills.as_slice(), other_fills.as_slice(), pending)?;
                return Ok(None);
            }
            let first = head(alloc, component, name)?;
            let second = head(alloc, other_component, other_name)?;
            Ok(Some((first, second)))
        }
        _ => Ok(None),
    }
}

/// The first module of a class. All of them have one head, and the fills of all wait for one class at each hole.
fn find_module(table: &IdentTable, classes: &[usize], class: usize) -> Option<usize>
    requires { length classes.now ≤ length table.now }
    ensures module { option_map (ident_of table.now) result ≡ module_at class (nodes_of table.now classes.now) }
    ensures below { IfSome result (λ n. n < length table.now) }
{
    for (number, each) in classes.iter().enumerate() {
        if *each == class && is_module_at(table, number) {
            return Some(number);
        }
    }
    None
}

/// What follows where two classes become one: the pairs that are to wait, or two different heads.
fn compare_classes(
    alloc: Global,
    table: &IdentTable,
    classes: &[usize],
    to: usize,
    from: usize,
    pending: &mut Vec<NumberPair>,
) -> Result<Option<(Head, Head)>, AllocError>
    requires length { length classes.now ≤ length table.now }
    requires below { ArePairsBelow (length table.now) pending.old.items }
    ensures heads { IfOk result (λ r. r ≡ modules_heads (module_at to (nodes_of table.now classes.now)) (module_at from (nodes_of table.now classes.now))) }
    ensures pairs { IfOk result (λ r. pairs_of table.now pending.new.items ≡ pairs_of table.now pending.old.items ++ modules_pairs (module_at to (nodes_of table.now classes.now)) (module_at from (nodes_of table.now classes.now))) }
    ensures below { IfOk result (λ r. ArePairsBelow (length table.now) pending.new.items) }
{
    match find_module(table, classes, to) {
        Some(one) => match find_module(table, classes, from) {
            Some(other) => {
                let heads = compare_nodes(
                    alloc,
                    table.node_at(one),
                    table.node_at(other),
                    pending,
                )?;
                Ok(heads)
            }
            None => Ok(None),
        },
        None => Ok(None),
    }
}

/// Makes one class of two, which gets the number `to`.
fn join_classes(
    alloc: Global,
    table: &IdentTable,
    classes: &mut [usize],
    to: usize,
    from: usize,
    pending: &mut Vec<NumberPair>,
) -> Result<Option<(Head, Head)>, AllocError>
    requires length { length classes.old ≤ length table.now }
    requires below { ArePairsBelow (length table.now) pending.old.items }
    ensures length { length classes.new ≡ length classes.old }
    ensures heads { IfOk result (λ r. r ≡ modules_heads (module_at to (nodes_of table.now classes.old)) (module_at from (nodes_of table.now classes.old))) }
    ensures pairs { IfOk result (λ r. pairs_of table.now pending.new.items ≡ pairs_of table.now pending.old.items ++ modules_pairs (module_at to (nodes_of table.now classes.old)) (module_at from (nodes_of table.now classes.old))) }
    ensures below { IfOk result (λ r. ArePairsBelow (length table.now) pending.new.items) }
    ensures classes { IfOk result (λ r. nodes_of table.now classes.new ≡ moved from to (nodes_of table.now classes.old)) }
{
    let heads = compare_classes(alloc, table, classes, to, from, pending)?;
    join(classes, from, to);
    Ok(heads)
}

/// Makes one class of two, which gets the smaller number.
fn join_sides(
    alloc: Global,
    table: &IdentTable,
    classes: &mut [usize],
    left: usize,
    right: usize,
    pending: &mut Vec<NumberPair>,
) -> Result<Option<(Head, Head)>, AllocError>
    requires length { length classes.old ≤ length table.now }
    requires below { ArePairsBelow (length table.now) pending.old.items }
    ensures length { length classes.new ≡ length classes.old }
    ensures heads { IfOk result (λ r. r ≡ classes_heads (Some left) (Some right) (nodes_of table.now classes.old)) }
    ensures pairs { IfOk result (λ r. pairs_of table.now pending.new.items ≡ pairs_of table.now pending.old.items ++ classes_pairs (Some left) (Some right) (nodes_of table.now classes.old)) }
    ensures below { IfOk result (λ r. ArePairsBelow (length table.now) pending.new.items) }
    ensures classes { IfOk result (λ r. nodes_of table.now classes.new ≡ classes_moved (Some left) (Some right) (nodes_of table.now classes.old)) }
{
    if left < right {
        join_classes(alloc, table, classes, left, right, pending)
    } else if right < left {
        join_classes(alloc, table, classes, right, left, pending)
    } else {
        Ok(None)
    }
}

/// Makes one class of those of two identities.
fn join_pair(
    alloc: Global,
    table: &IdentTable,
    classes: &mut [usize],
    pair: NumberPair,
    pending: &mut Vec<NumberPair>,
) -> Result<Option<(Head, Head)>, AllocError>
    requires table { IsIdentTable table.now }
    requires length { length classes.old ≡ length table.now }
    requires pair { (pair.one < length table.now) × (pair.other < length table.now) }
    requires below { ArePairsBelow (length table.now) pending.old.items }
    ensures length { length classes.new ≡ length classes.old }
    ensures heads { IfOk result (λ r. r ≡ classes_heads (class_at (ident_of table.now pair.one) (nodes_of table.now classes.old)) (class_at (ident_of table.now pair.other) (nodes_of table.now classes.old)) (nodes_of table.now classes.old)) }
    ensures pairs { IfOk result (λ r. pairs_of table.now pending.new.items ≡ pairs_of table.now pending.old.items ++ classes_pairs (class_at (ident_of table.now pair.one) (nodes_of table.now classes.old)) (class_at (ident_of table.now pair.other) (nodes_of table.now classes.old)) (nodes_of table.now classes.old)) }
    ensures below { IfOk result (λ r. ArePairsBelow (length table.now) pending.new.items) }
    ensures classes { IfOk result (λ r. nodes_of table.now classes.new ≡ classes_moved (class_at (ident_of table.now pair.one) (nodes_of table.now classes.old)) (class_at (ident_of table.now pair.other) (nodes_of table.now classes.old)) (nodes_of table.now classes.old)) }
{
    let left = classes[pair.one];
    let right = classes[pair.other];
    join_sides(alloc, table, classes, left, right, pending)
}

/// Makes one class of the two of each pair, the last pair first, and closes the classes, up to two different heads of one class, which
/// are the answer. Each pair that waits joins two classes or is dropped, and a join looks at one module of each class.
pub fn close(
    alloc: Global,
    table: &IdentTable,
    pairs: Vec<NumberPair>,
    classes: &mut [usize],
) -> Result<Option<(Head, Head)>, AllocError>
    requires table { IsIdentTable table.now }
    requires classes { classes.old ≡ upto (length table.now) }
    requires pairs { ArePairsBelow (length table.now) pairs.items }
    ensures length { length classes.new ≡ length classes.old }
    ensures ends { IfOk result (λ r. (es : List Equation) → IsLawful es → HasTerms es table.now → pairs_of table.now pairs.items ≡ stated_pairs es → ClosesTo es (nodes_of table.now classes.new) r) }
{
    let mut pending = pairs;
    'steps: while let Some(pair) = pending.pop() {
        if let Some(heads) = join_pair(alloc, table, classes, pair, &mut pending)? {
            return Ok(Some(heads));
        }
    }
    Ok(None)
}
