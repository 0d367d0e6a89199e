//! Rows of calls of the host's streams, clock and files, as tests. A program has no use for this crate.
#![tactic(auto)]

#[cfg(test)]
mod calls;
#[cfg(test)]
mod many;
#[cfg(test)]
mod paths;
#[cfg(test)]
mod rows;
#[cfg(test)]
mod steps;
#[cfg(test)]
mod streams;
#[cfg(test)]
mod tests;
