//! An order of the classes in which each comes after those that it leads to. Nothing is proved of it: where it serves, that is seen,
//! and what is built is right in any order.

use crate::edge::Edge;
use crate::reach::empty_lists;
use std::alloc::{AllocError, Global};

/// For each class the starts of the edges to it.
fn list_starts(alloc: Global, edges: &[Edge], count: usize) -> Result<Vec<Vec<usize>>, AllocError> {
    let mut starts = empty_lists(alloc, count)?;
    for edge in edges {
        if let Some(classes) = starts.get_mut(edge.to) {
            classes.push(edge.from)?;
        }
    }
    Ok(starts)
}

/// How many edges lead from each class.
fn count_edges(alloc: Global, edges: &[Edge], count: usize) -> Result<Vec<usize>, AllocError> {
    let mut counts: Vec<usize> = vec![in alloc; 0; count]?;
    for edge in edges {
        if let Some(number) = counts.get_mut(edge.from) {
            *number = number.saturating_add(1);
        }
    }
    Ok(counts)
}

/// The classes from which no edge leads.
fn list_last(alloc: Global, counts: &[usize]) -> Result<Vec<usize>, AllocError> {
    let mut order = Vec::new(alloc);
    for (class, count) in counts.iter().enumerate() {
        if *count == 0 {
            order.push(class)?;
        }
    }
    Ok(order)
}

/// One edge less from a class, which comes next where none is left.
fn release(counts: &mut [usize], order: &mut Vec<usize>, class: usize) -> Result<(), AllocError> {
    if let Some(count) = counts.get_mut(class) {
        *count = count.saturating_sub(1);
        if *count == 0 {
            order.push(class)?;
        }
    }
    Ok(())
}

fn release_all(
    counts: &mut [usize],
    order: &mut Vec<usize>,
    classes: &[usize],
) -> Result<(), AllocError> {
    for class in classes {
        release(counts, order, *class)?;
    }
    Ok(())
}

/// The classes from which the one at this place is reached by an edge, one edge less from each.
fn release_at(
    starts: &[Vec<usize>],
    counts: &mut [usize],
    order: &mut Vec<usize>,
    place: usize,
) -> Result<(), AllocError> {
    if let Some(class) = order.as_slice().get(place).copied() {
        if let Some(classes) = starts.get(class) {
            release_all(counts, order, classes.as_slice())?;
        }
    }
    Ok(())
}

/// The numbers of the classes below `count`, each after those to which its edges lead, as far as there is such an order.
pub fn list_order(alloc: Global, edges: &[Edge], count: usize) -> Result<Vec<usize>, AllocError> {
    let starts = list_starts(alloc, edges, count)?;
    let mut counts = count_edges(alloc, edges, count)?;
    let mut order = list_last(alloc, counts.as_slice())?;
    for place in 0..count {
        release_at(starts.as_slice(), counts.as_mut_slice(), &mut order, place)?;
    }
    Ok(order)
}
