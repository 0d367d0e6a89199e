//! The words of the command lines of the three programs: what they ask for, or that they are refused.
#![tactic(auto)]

mod dump;
mod load;
mod matching;
mod numbers;
mod tool;

pub use dump::{DumpWords, Form, dump_words};
pub use load::{LoadWords, load_words};
pub use matching::Refusal;
pub use tool::{ToolWords, tool_words};

#[cfg(test)]
mod tests;
