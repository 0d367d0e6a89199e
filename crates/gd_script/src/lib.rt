//! A run over the lines of a script: each line is taken from the input, answered, and its turn kept.
#![tactic(auto)]

mod answering;
mod ending;
mod interpreter;
mod lines;
mod reader;
mod says;
mod script;
mod sessions;
mod turns;

pub use ending::Ending;
pub use interpreter::Interpreter;
pub use lines::answer_lines;
pub use script::{Script, run_script};
pub use turns::{Answer, Faults, Turn, Turns};
