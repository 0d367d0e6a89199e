use crate::{Command, LangError, Tokens, lex, parse};
use std::alloc::Global;
use std::test::Fail;

mod commands;
mod lines;
mod settings;

/// The tokens of a line, or its refusal.
fn tokens_of(alloc: Global, line: &[u8]) -> Result<Result<Tokens, LangError>, Fail> {
    match lex(alloc, line) {
        Ok(tokens) => Ok(Ok(tokens)),
        Err(LangError::OutOfMemory) => Err(Fail::from("no memory")),
        Err(error) => Ok(Err(error)),
    }
}

/// The command of a line, or its refusal.
fn command_of(alloc: Global, line: &[u8]) -> Result<Result<Command, LangError>, Fail> {
    let tokens = match tokens_of(alloc, line)? {
        Ok(tokens) => tokens,
        Err(error) => return Ok(Err(error)),
    };
    match parse(alloc, &tokens) {
        Ok(command) => Ok(Ok(command)),
        Err(LangError::OutOfMemory) => Err(Fail::from("no memory")),
        Err(error) => Ok(Err(error)),
    }
}
