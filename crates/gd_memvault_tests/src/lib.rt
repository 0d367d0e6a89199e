//! Rows of calls of a vault in memory, as tests. A program has no use for this crate.
#![tactic(auto)]

#[cfg(test)]
mod files;
#[cfg(test)]
mod rows;
#[cfg(test)]
mod steps;
#[cfg(test)]
mod tests;
