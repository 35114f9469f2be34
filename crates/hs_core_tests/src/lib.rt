//! Worked values of renaming, copies, equality and dependency groups, and entries of the interface of base.
#![tactic(auto)]

#[cfg(test)]
mod base_tests;
#[cfg(test)]
mod copy_tests;
#[cfg(test)]
mod group_tests;
#[cfg(test)]
mod lists;
#[cfg(test)]
mod tree_tests;
