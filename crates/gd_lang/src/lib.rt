//! The command language of `gdbmtool`: lines to tokens, and tokens to commands. `docs/COMMANDS.md` has the language.
#![tactic(auto)]

mod commands;
mod errors;
mod lexing;
mod parsing;
mod rows;
mod tokens;
mod values;

pub use commands::{Command, Opening, Setting};
pub use errors::LangError;
pub use lexing::lex;
pub use parsing::parse;
pub use rows::{COMMANDS, command_table, find_command};
pub use tokens::{Token, Tokens};

#[cfg(test)]
mod tests;
