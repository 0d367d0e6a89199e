//! Names of files.

ghost use Rattle.std.specs.Prelude.{◌≡◌, ◌≤◌, ◌++◌, IfOk, codes, length, string_bytes, string_capacity};
ghost use Rattle.gd_base.specs.Names.{MakesName, ends_reserved, has_zero, name_fault};

use crate::OutOfMemory;
use std::alloc::Global;
use std::marker::Model;
use thiserror::Error;

/// Why a text is no name. The first that holds is given; want of memory comes last.
#[derive(Clone, Copy, Debug, PartialEq, Eq, Error)]
pub enum NameError {
    #[error("the name is empty")]
    Empty,
    #[error("the name has more than 4,000 bytes")]
    TooLong,
    #[error("the name has a NUL byte")]
    Nul,
    #[error("the name ends in .mode or .gdbm-scratch")]
    Reserved,
    #[error("out of memory")]
    OutOfMemory,
}

/// A name of a file. Contracts see the bytes of its text. It has room for each other name that `new` accepts.
#[derive(Debug, Drop)]
pub struct Name {
    text: String,
}

impl Model for Name {
    ghost use Rattle.std.specs.Prelude.{ℕ, List, ◌≤◌, string_bytes, string_capacity};

    ghost Value = { List ℕ };

    ghost view = { λ n. string_bytes n.text };

    ghost invariant = { λ n. 4000 ≤ string_capacity n.text };
}

// A text that has room for each name.
fn with_room(alloc: Global, text: &str) -> Result<String, OutOfMemory>
    ensures bytes { IfOk result (λ t. string_bytes t ≡ text.now) }
    ensures room { IfOk result (λ t. 4000 ≤ string_capacity t) }
{
    let Ok(mut copy) = String::with_capacity(alloc, 4000) else {
        return Err(OutOfMemory);
    };
    match copy.push_str(text) {
        Ok(()) => Ok(copy),
        Err(_) => Err(OutOfMemory),
    }
}

fn is_reserved(text: &[u8]) -> bool
    ensures { result ≡ ends_reserved text.now }
{
    text.ends_with(b".mode") || text.ends_with(b".gdbm-scratch")
}

fn has_nul(text: &[u8]) -> bool
    ensures { result ≡ has_zero text.now }
{
    text.iter().any(|b| *b == 0)
}

fn fault(text: &str) -> Option<NameError>
    ensures { result ≡ name_fault text.now }
{
    if text.is_empty() {
        Some(NameError::Empty)
    } else if text.len() > 4000 {
        Some(NameError::TooLong)
    } else if has_nul(text.as_bytes()) {
        Some(NameError::Nul)
    } else if is_reserved(text.as_bytes()) {
        Some(NameError::Reserved)
    } else {
        None
    }
}

impl Name {
    /// The name with this text, which has 1 to 4,000 bytes, no NUL, and does not end in `.mode` or `.gdbm-scratch`.
    pub fn new(alloc: Global, text: &str) -> Result<Name, NameError>
        ensures { MakesName text.now result }
    {
        if let Some(fault) = fault(text) {
            return Err(fault);
        }
        match with_room(alloc, text) {
            Ok(text) => Ok(Name { text }),
            Err(OutOfMemory) => Err(NameError::OutOfMemory),
        }
    }

    /// The name of the scratch file beside the file: the same text with `.gdbm-scratch` behind it.
    pub fn scratch(&self, alloc: Global) -> Result<Name, OutOfMemory>
        ensures { IfOk result (λ n. n ≡ self.now ++ codes ".gdbm-scratch") }
    {
        let mut text = with_room(alloc, &self.text)?;
        match text.push_str(".gdbm-scratch") {
            Ok(()) => Ok(Name { text }),
            Err(_) => Err(OutOfMemory),
        }
    }

    /// An equal name.
    pub fn copy(&self, alloc: Global) -> Result<Name, OutOfMemory>
        ensures { IfOk result (λ n. n ≡ self.now) }
    {
        let text = with_room(alloc, &self.text)?;
        Ok(Name { text })
    }

    /// Takes over the text of another name, without taking memory.
    pub fn set(&mut self, name: &Name)
        requires { length name.now ≤ 4000 }
        ensures { self.new ≡ name.now }
    {
        self.text.clear();
        match self.text.push_str(name.as_str()) {
            Ok(()) => {}
            Err(_) => unreachable!(),
        }
    }

    pub fn as_str(&self) -> &str
        ensures { result.now ≡ self.now }
    {
        self.text.as_str()
    }
}
