//! The words of the command line.

use gd_base::OutOfMemory;
use std::alloc::Global;
use std::env;
use std::io::ErrorKind;

// One empty word, which every program refuses.
fn one_empty(alloc: Global) -> Result<Vec<String>, OutOfMemory> {
    let mut words = Vec::new(alloc);
    match words.push(String::new(alloc)) {
        Ok(()) => Ok(words),
        Err(_) => Err(OutOfMemory),
    }
}

/// The words after the program's name. Where one of them is no text, or the host can't tell them, one empty word stands in
/// place of all: the program then refuses its words.
pub fn host_words(rt: &HostRuntime) -> Result<Vec<String>, OutOfMemory> {
    let args = match env::args(rt) {
        Ok(args) => args,
        Err(error) if error.kind() == ErrorKind::OutOfMemory => return Err(OutOfMemory),
        Err(_) => return one_empty(rt.alloc()),
    };
    match args.skip(1).collect(rt.alloc()) {
        Ok(words) => Ok(words),
        Err(_) => Err(OutOfMemory),
    }
}
