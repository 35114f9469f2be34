use hs_core::{IndexGroups, Indices, UseList, UseLists, are_in_range, groups};
use std::alloc::{AllocError, Global};
use std::test::Fail;

fn use_lists(alloc: Global, lists: &[&[u64]]) -> Result<UseLists, AllocError> {
    let mut all = UseLists::new(alloc);
    for uses in lists {
        all.push(UseList {
            uses: Indices::from_slice(alloc, uses)?,
        })?;
    }
    Ok(all)
}

/// The groups, or none where a number is out of range.
fn grouped(alloc: Global, uses: &UseLists) -> Result<IndexGroups, AllocError> {
    if are_in_range(uses) {
        groups(alloc, uses)
    } else {
        Ok(IndexGroups::new(alloc))
    }
}

/// Whether the groups are these, in this order.
fn are(found: &IndexGroups, want: &[&[u64]]) -> bool {
    let found = found.as_slice();
    if found.len() != want.len() {
        return false;
    }
    for i in 0..want.len() {
        if found[i].members.as_slice() != want[i] {
            return false;
        }
    }
    true
}

#[test]
fn groups_stand_in_post_order(rt: HostRuntime) -> Result<(), Fail> {
    let alloc = rt.alloc();
    let rows: [(&[&[u64]], &[&[u64]]); 10] = [
        // the first row of the format: two that use each other, and one that uses them
        (&[&[1], &[0], &[0]], &[&[0, 1], &[2]]),
        // one that uses the first of two that use each other
        (&[&[1], &[2], &[1]], &[&[1, 2], &[0]]),
        (&[], &[]),
        (&[&[0]], &[&[0]]),
        // two cycles, the first of which uses the second
        (&[&[1], &[0, 2], &[3], &[2]], &[&[2, 3], &[0, 1]]),
        // two cycles that share a declaration are one group
        (&[&[1], &[0, 2], &[1]], &[&[0, 1, 2]]),
        // a diamond: the uses of 0 in their order
        (&[&[2, 1], &[3], &[3], &[]], &[&[3], &[2], &[1], &[0]]),
        (&[&[1, 2], &[3], &[3], &[]], &[&[3], &[1], &[2], &[0]]),
        // the walk goes on from the members of a group: 1 leads to 3 before 0 leads to 2
        (&[&[1, 2], &[0, 3], &[], &[]], &[&[3], &[2], &[0, 1]]),
        // without uses the order is that of the numbers; a use that is met twice tells nothing
        (&[&[], &[0, 0], &[]], &[&[0], &[1], &[2]]),
    ];
    for (lists, want) in rows {
        let uses = use_lists(alloc, lists)?;
        let found = grouped(alloc, &uses)?;
        assert!(rt; are(&found, want));
    }
    Ok(())
}

/// 10,000 numbers, each of which uses the next one.
fn chain(alloc: Global) -> Result<UseLists, AllocError> {
    let mut uses = UseLists::new(alloc);
    for index in 0..9_999u64 {
        uses.push(UseList {
            uses: Indices::from_slice(alloc, &[index + 1])?,
        })?;
    }
    uses.push(UseList {
        uses: Indices::new(alloc),
    })?;
    Ok(uses)
}

#[test]
fn a_long_chain_has_a_group_for_each(rt: HostRuntime) -> Result<(), Fail> {
    let alloc = rt.alloc();
    let uses = chain(alloc)?;
    let found = grouped(alloc, &uses)?;
    match found.as_slice() {
        [first, .., last] => {
            assert_eq!(rt; found.len(), 10_000);
            assert_eq!(rt; first.members.as_slice(), [9_999u64].as_slice());
            assert_eq!(rt; last.members.as_slice(), [0u64].as_slice());
        }
        _ => assert!(rt; false),
    }
    Ok(())
}
