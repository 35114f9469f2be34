//! Which classes a class reaches through fills.
ghost use Rattle.std.specs.Prelude.{◌≡◌, ℕ, ◌+◌, ◌<◌, List, [], ◌∷◌, ◌++◌, length, map, get_or, replicate, true, false, IfOk, OnOk};
ghost use Rattle.bp_base.specs.Lists.{Among};
ghost use Rattle.bp_base.specs.declared.ident.Ident.{Ident};
ghost use Rattle.ident_table.specs.Numbers.{node_of, AreFillsBelow, IsNodeBelow};
ghost use Rattle.hole_unify.specs.declared.edge.Edge.{Edge};
ghost use Rattle.hole_unify.specs.Table.{nodes_of};
ghost use Rattle.hole_unify.specs.Numbers.{number_at};
ghost use Rattle.hole_unify.specs.Reach.{number_edge, number_edges, node_edges, edges_of, ends_upto, free, AreBelow, Agree, visited, all_visited, IsReached, holds, on_cycle, lesser, term_cycle, least_cycle, Fall};

use crate::edge::Edge;
use crate::lookup::{filler, is_before};
use bp_base::{Name, compare};
use ident_table::{IdentNode, IdentTable, NumberFill};
use std::alloc::{AllocError, Global};
use std::cmp::Ordering;

fn add_edge_at(
    classes: &[usize],
    from: usize,
    fills: &[NumberFill],
    hole: &Name,
    edges: &mut Vec<Edge>,
) -> Result<(), AllocError>
    requires { AreFillsBelow (length classes.now) fills.now }
    ensures { OnOk result (edges.new.items ≡ edges.old.items ++ number_edge classes.now from (number_at hole.now fills.now)) }
{
    if let Some(number) = filler(fills, hole) {
        let to = classes[number];
        edges.push(Edge { from, to })?;
    }
    Ok(())
}

fn add_edges_of_fills(
    classes: &[usize],
    from: usize,
    fills: &[NumberFill],
    edges: &mut Vec<Edge>,
) -> Result<(), AllocError>
    requires { AreFillsBelow (length classes.now) fills.now }
    ensures { OnOk result (edges.new.items ≡ edges.old.items ++ number_edges classes.now from fills.now fills.now) }
{
    for each in fills {
        add_edge_at(classes, from, fills, &each.hole, edges)?;
    }
    Ok(())
}

fn add_edges_of_node(
    classes: &[usize],
    from: usize,
    node: &IdentNode,
    edges: &mut Vec<Edge>,
) -> Result<(), AllocError>
    requires { IsNodeBelow (length classes.now) node.now }
    ensures { OnOk result (edges.new.items ≡ edges.old.items ++ node_edges classes.now from node.now) }
{
    match node {
        IdentNode::Hole { .. } => Ok(()),
        IdentNode::Module { fills, .. } => {
            add_edges_of_fills(classes, from, fills.as_slice(), edges)?;
            Ok(())
        }
    }
}

/// From the class of each module to those of its fills.
pub fn list_edges(
    alloc: Global,
    table: &IdentTable,
    classes: &[usize],
) -> Result<Vec<Edge>, AllocError>
    requires { length classes.now ≡ length table.now }
    ensures { IfOk result (λ r. r.items ≡ edges_of (nodes_of table.now classes.now) (nodes_of table.now classes.now)) }
{
    let mut edges = Vec::new(alloc);
    for number in 0..table.len() {
        add_edges_of_node(classes, classes[number], table.node_at(number), &mut edges)?;
    }
    Ok(edges)
}

/// So many lists without items.
pub fn empty_lists(alloc: Global, count: usize) -> Result<Vec<Vec<usize>>, AllocError>
    ensures { IfOk result (λ r. map (λ v. v.items) r.items ≡ replicate count []) }
{
    let mut lists = Vec::new(alloc);
    for _ in 0..count {
        lists.push(Vec::new(alloc))?;
    }
    Ok(lists)
}

/// The ends of the edges from each of the first classes.
fn list_ends(alloc: Global, edges: &[Edge], count: usize) -> Result<Vec<Vec<usize>>, AllocError>
    requires { (e : Edge) → Among e edges.now → e.from < count }
    ensures { IfOk result (λ r. map (λ v. v.items) r.items ≡ ends_upto count edges.now) }
{
    let mut ends = empty_lists(alloc, count)?;
    for edge in edges {
        ends[edge.from].push(edge.to)?;
    }
    Ok(ends)
}

/// Puts a class at the end of those that are reached, where it is not among them. The marks say of each class whether it is.
fn visit(marks: &mut [bool], done: &mut Vec<usize>, class: usize) -> Result<(), AllocError>
    requires below { class < length marks.old }
    requires marked { Agree marks.old done.old.items }
    ensures done { OnOk result (done.new.items ≡ visited done.old.items class) }
    ensures marked { OnOk result (Agree marks.new done.new.items) }
    ensures length { length marks.new ≡ length marks.old }
    ensures free { OnOk result (free marks.new + length done.new.items ≡ free marks.old + length done.old.items) }
{
    if !marks[class] {
        marks[class] = true;
        done.push(class)?;
    }
    Ok(())
}

fn visit_all(marks: &mut [bool], done: &mut Vec<usize>, ends: &[usize]) -> Result<(), AllocError>
    requires below { (n : ℕ) → Among n ends.now → n < length marks.old }
    requires marked { Agree marks.old done.old.items }
    ensures done { OnOk result (done.new.items ≡ all_visited done.old.items ends.now) }
    ensures marked { OnOk result (Agree marks.new done.new.items) }
    ensures length { length marks.new ≡ length marks.old }
    ensures free { OnOk result (free marks.new + length done.new.items ≡ free marks.old + length done.old.items) }
{
    for end in ends {
        visit(marks, done, *end)?;
    }
    Ok(())
}

/// The ends of the edges from a class.
fn ends_at(ends: &[Vec<usize>], class: usize) -> &[usize]
    requires { class < length ends.now }
    ensures { result.now ≡ get_or (map (λ v. v.items) ends.now) class [] }
{
    ends[class].as_slice()
}

/// The classes that a class reaches: those that are reached are gone through in turn, each once.
fn reach(
    alloc: Global,
    marks: &mut [bool],
    ends: &[Vec<usize>],
    start: usize,
) -> Result<Vec<usize>, AllocError>
    requires start { start < length ends.now }
    requires below { AreBelow (length ends.now) (map (λ v. v.items) ends.now) }
    requires marks { marks.old ≡ replicate (length ends.now) false }
    ensures { IfOk result (λ r. IsReached (map (λ v. v.items) ends.now) start r.items) }
{
    let mut done = Vec::new(alloc);
    visit_all(marks, &mut done, ends_at(ends, start))?;
    let mut next = 0;
    'classes: while next < done.len() {
        let reached = done.as_slice();
        let class = reached[next];
        visit_all(marks, &mut done, ends_at(ends, class))?;
        next += 1;
    }
    Ok(done)
}

fn has_class(classes: &[usize], class: usize) -> bool
    ensures { result ≡ holds class classes.now }
{
    for each in classes {
        if *each == class {
            return true;
        }
    }
    false
}

/// Whether a class reaches itself.
fn is_on_cycle(alloc: Global, ends: &[Vec<usize>], class: usize) -> Result<bool, AllocError>
    requires start { class < length ends.now }
    requires below { AreBelow (length ends.now) (map (λ v. v.items) ends.now) }
    ensures { IfOk result (λ r. (edges : List Edge) → map (λ v. v.items) ends.now ≡ ends_upto (length ends.now) edges → r ≡ on_cycle class edges) }
{
    let mut marks = vec![in alloc; false; ends.len()]?;
    let done = reach(alloc, marks.as_mut_slice(), ends, class)?;
    Ok(has_class(done.as_slice(), class))
}

/// The hole of a node, where its class reaches itself.
fn hole_on_cycle(
    alloc: Global,
    ends: &[Vec<usize>],
    node: &IdentNode,
    class: usize,
) -> Result<Option<Name>, AllocError>
    requires class { class < length ends.now }
    requires below { AreBelow (length ends.now) (map (λ v. v.items) ends.now) }
    ensures { IfOk result (λ r. (edges : List Edge) (table : List Ident) → map (λ v. v.items) ends.now ≡ ends_upto (length ends.now) edges → r ≡ term_cycle edges class (node_of table node.now)) }
{
    match node {
        IdentNode::Hole { name } => {
            if is_on_cycle(alloc, ends, class)? {
                Ok(Some(name.copied(alloc)?))
            } else {
                Ok(None)
            }
        }
        IdentNode::Module { .. } => Ok(None),
    }
}

/// The one of two names that is not after the other.
pub fn lesser_name(best: Option<Name>, new: Option<Name>) -> Option<Name>
    ensures { result ≡ lesser best new }
{
    match (best, new) {
        (Some(old), Some(new)) => match compare(&new, &old) {
            Ordering::Less => Some(new),
            _ => Some(old),
        },
        (Some(old), None) => Some(old),
        (None, new) => new,
    }
}

/// Whether a node is no hole before the best one.
fn is_no_better(best: &Option<Name>, node: &IdentNode) -> bool
    ensures { result ≡ true → (edges : List Edge) (class : ℕ) (table : List Ident) → lesser best.now (term_cycle edges class (node_of table node.now)) ≡ best.now }
{
    match (best, node) {
        (Some(best), IdentNode::Hole { name }) => !is_before(name, best),
        _ => false,
    }
}

/// The lesser of the best hole and that of a node whose class reaches itself. Only a hole before the best one is searched from.
fn better_hole(
    alloc: Global,
    ends: &[Vec<usize>],
    node: &IdentNode,
    class: usize,
    best: Option<Name>,
) -> Result<Option<Name>, AllocError>
    requires class { class < length ends.now }
    requires below { AreBelow (length ends.now) (map (λ v. v.items) ends.now) }
    ensures { IfOk result (λ r. (edges : List Edge) (table : List Ident) → map (λ v. v.items) ends.now ≡ ends_upto (length ends.now) edges → r ≡ lesser best (term_cycle edges class (node_of table node.now))) }
{
    if is_no_better(&best, node) {
        return Ok(best);
    }
    let new = hole_on_cycle(alloc, ends, node, class)?;
    Ok(lesser_name(best, new))
}

/// The place of each class in the order, and 0 for those that it leaves out.
fn list_ranks(alloc: Global, order: &[usize], count: usize) -> Result<Vec<usize>, AllocError>
    ensures { IfOk result (λ r. length r.items ≡ count) }
{
    let mut ranks = vec![in alloc; 0; count]?;
    for (place, class) in order.iter().enumerate() {
        if let Some(rank) = ranks.get_mut(*class) {
            *rank = place;
        }
    }
    Ok(ranks)
}

/// Whether each edge leads to a lower rank.
fn do_ranks_fall(ranks: &[usize], edges: &[Edge]) -> bool
    requires { (e : Edge) → Among e edges.now → (e.from < length ranks.now) × (e.to < length ranks.now) }
    ensures { result ≡ true → Fall ranks.now edges.now }
{
    for edge in edges {
        if ranks[edge.to] >= ranks[edge.from] {
            return false;
        }
    }
    true
}

/// The least hole whose class reaches itself, by searches from the classes of holes.
fn search_cycle(
    alloc: Global,
    table: &IdentTable,
    classes: &[usize],
    edges: &[Edge],
) -> Result<Option<Name>, AllocError>
    requires length { length classes.now ≡ length table.now }
    requires classes { (k : ℕ) → Among k classes.now → k < length classes.now }
    requires ends { (e : Edge) → Among e edges.now → (e.from < length classes.now) × (e.to < length classes.now) }
    ensures { IfOk result (λ r. r ≡ least_cycle edges.now (nodes_of table.now classes.now)) }
{
    let ends = list_ends(alloc, edges, classes.len())?;
    let mut best = None;
    for number in 0..table.len() {
        let node = table.node_at(number);
        best = better_hole(alloc, ends.as_slice(), node, classes[number], best)?;
    }
    Ok(best)
}

/// The least hole whose class reaches itself. Where each edge leads back in the order, there is none, which is seen at once.
pub fn find_cycle(
    alloc: Global,
    table: &IdentTable,
    classes: &[usize],
    edges: &[Edge],
    order: &[usize],
) -> Result<Option<Name>, AllocError>
    requires length { length classes.now ≡ length table.now }
    requires classes { (k : ℕ) → Among k classes.now → k < length classes.now }
    requires ends { (e : Edge) → Among e edges.now → (e.from < length classes.now) × (e.to < length classes.now) }
    ensures { IfOk result (λ r. r ≡ least_cycle edges.now (nodes_of table.now classes.now)) }
{
    let ranks = list_ranks(alloc, order, classes.len())?;
    if do_ranks_fall(ranks.as_slice(), edges) {
        return Ok(None);
    }
    search_cycle(alloc, table, classes, edges)
}
