//! Rows of calls on a database in a vault in memory, as tests. A program has no use for this crate.
#![tactic(auto)]

#[cfg(test)]
mod damaged;
#[cfg(test)]
mod many;
#[cfg(test)]
mod tests;
#[cfg(test)]
mod texts;
#[cfg(test)]
mod trial;
