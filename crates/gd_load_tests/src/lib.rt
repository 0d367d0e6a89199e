//! Runs of the loader over vaults in memory, as tests. A program has no use for this crate.
#![tactic(auto)]

#[cfg(test)]
mod aliases;
#[cfg(test)]
mod devices;
#[cfg(test)]
mod dumps;
#[cfg(test)]
mod files;
#[cfg(test)]
mod run;
