//! Scripts that are run over vaults in memory, as tests. A program has no use for this crate.
#![tactic(auto)]

#[cfg(test)]
mod changes;
#[cfg(test)]
mod damaged;
#[cfg(test)]
mod devices;
#[cfg(test)]
mod fills;
#[cfg(test)]
mod language;
#[cfg(test)]
mod openings;
#[cfg(test)]
mod play;
#[cfg(test)]
mod records;
#[cfg(test)]
mod rows;
#[cfg(test)]
mod small_file;
#[cfg(test)]
mod splits;
#[cfg(test)]
mod vaults;
