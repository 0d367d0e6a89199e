//! Rows of calls over a vault in memory, as tests. A program has no use for this crate.
#![tactic(auto)]

#[cfg(test)]
mod sums;
#[cfg(test)]
mod tests;
#[cfg(test)]
mod trial;
