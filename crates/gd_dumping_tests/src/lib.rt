//! Runs of `gdbm_dump` over memory, as tests. A program has no use for this crate.
#![tactic(auto)]

#[cfg(test)]
mod failing;
#[cfg(test)]
mod layout;
#[cfg(test)]
mod rows;
#[cfg(test)]
mod runs;
#[cfg(test)]
mod tests;
