//! What the lines of a dump's head say.

ghost use Rattle.std.specs.Prelude.{◌≡◌, ◌+◌, ◌-◌, ◌≤◌, List, ℕ, drop, length, max, take, vec_capacity, vec_len};
ghost use Rattle.gd_dump_reading.specs.Said.{IsRoomy, named_in, standing};
ghost use Rattle.gd_dump_reading.specs.Params.{if_params, no_names, params_in, unless_refused, with_format, with_line, with_param, with_version};

use crate::items::DumpKind;
use crate::lines::overlong;
use crate::params::param_at;
use gd_base::Format;
use std::alloc::Global;
use std::mem::swap;

/// What the parameters have said so far: whether there was a version, and the last format and file.
#[derive(Debug, Drop)]
pub struct Names {
    pub version: bool,
    pub format: Option<Format>,
    /// Was there a file? Its name stands in the list, which has room for each value.
    pub named: bool,
    pub file: Vec<u8>,
}

impl Names {
    pub fn new(alloc: Global) -> Names
        ensures said { named_in result ≡ no_names }
        ensures file { vec_len result.file ≡ 0 }
    {
        Names {
            version: false,
            format: None,
            named: false,
            file: Vec::new(alloc),
        }
    }

    fn say_version(&mut self, value: &[u8]) -> Option<DumpKind>
        ensures said { standing (named_in self.new) result ≡ with_version (named_in self.old) value.now }
        ensures file { self.new.file ≡ self.old.file }
    {
        if value != b"1.0".as_slice() && value != b"1.1".as_slice() {
            return Some(DumpKind::Version);
        }
        self.version = true;
        None
    }

    fn say_format(&mut self, value: &[u8]) -> Option<DumpKind>
        ensures said { standing (named_in self.new) result ≡ with_format (named_in self.old) value.now }
        ensures file { self.new.file ≡ self.old.file }
    {
        if value == b"standard".as_slice() {
            self.format = Some(Format::Standard);
        } else if value == b"numsync".as_slice() {
            self.format = Some(Format::Numsync);
        } else {
            return Some(DumpKind::Parameter);
        }
        None
    }

    // What one parameter says. A file's name is swapped for the list that was kept.
    fn say(&mut self, name: &[u8], value: &mut Vec<u8>) -> Option<DumpKind>
        ensures said { standing (named_in self.new) result ≡ with_param (named_in self.old) (record { name = name.now; value = value.old.items }) }
        ensures room { (n : ℕ) → IsRoomy n (vec_capacity self.old.file) (vec_capacity value.old) → IsRoomy n (vec_capacity self.new.file) (vec_capacity value.new) }
        ensures size { vec_len self.new.file ≤ max (vec_len self.old.file) (vec_len value.old) }
    {
        if name == b"version".as_slice() {
            self.say_version(value)
        } else if name == b"format".as_slice() {
            self.say_format(value)
        } else if name == b"file".as_slice() {
            swap(&mut self.file, value);
            self.named = true;
            None
        } else {
            None
        }
    }

    // What the next parameter says, unless one before it is refused.
    fn say_next(
        &mut self,
        refused: Option<DumpKind>,
        name: &[u8],
        value: &mut Vec<u8>,
    ) -> Option<DumpKind>
        ensures said { standing (named_in self.new) result ≡ unless_refused (standing (named_in self.old) refused) (λ n. with_param n (record { name = name.now; value = value.old.items })) }
        ensures room { (n : ℕ) → IsRoomy n (vec_capacity self.old.file) (vec_capacity value.old) → IsRoomy n (vec_capacity self.new.file) (vec_capacity value.new) }
        ensures size { vec_len self.new.file ≤ max (vec_len self.old.file) (vec_len value.old) }
    {
        match refused {
            Some(kind) => Some(kind),
            None => self.say(name, value),
        }
    }

    // What the parameters say. A line that is not of their form is refused before what any of them says.
    fn say_params(&mut self, value: &mut Vec<u8>, text: &[u8]) -> Option<DumpKind>
        requires { IsRoomy (length text.now) (vec_capacity self.old.file) (vec_capacity value.old) }
        ensures said { standing (named_in self.new) result ≡ if_params (named_in self.old) (params_in text.now) }
        ensures room { (n : ℕ) → IsRoomy n (vec_capacity self.old.file) (vec_capacity value.old) → IsRoomy n (vec_capacity self.new.file) (vec_capacity value.new) }
        ensures size { vec_len self.new.file ≤ max (vec_len self.old.file) (length text.now) }
    {
        let mut refused = None;
        let mut at = 0;
        loop {
            let Some((name, taken)) = param_at(value, &text[at..]) else {
                return Some(DumpKind::Parameter);
            };
            refused = self.say_next(refused, &text[at..at + name], value);
            at += taken;
            if at == text.len() {
                return refused;
            }
            if text[at] != b',' {
                return Some(DumpKind::Parameter);
            }
            at += 1;
        }
    }

    /// What a line that begins with `#:` says, where a line feed ends it or not, or why it is refused.
    pub fn say_line(&mut self, value: &mut Vec<u8>, line: &[u8], ended: bool) -> Option<DumpKind>
        requires some { 2 ≤ length line.now }
        requires room { IsRoomy (length line.now) (vec_capacity self.old.file) (vec_capacity value.old) }
        ensures said { standing (named_in self.new) result ≡ with_line (named_in self.old) ended line.now }
        ensures room { (n : ℕ) → IsRoomy n (vec_capacity self.old.file) (vec_capacity value.old) → IsRoomy n (vec_capacity self.new.file) (vec_capacity value.new) }
        ensures size { vec_len self.new.file ≤ max (vec_len self.old.file) (length line.now) }
        ensures empty { vec_len value.new ≡ 0 }
    {
        let refused = if overlong(line, ended) {
            Some(DumpKind::Parameter)
        } else {
            self.say_params(value, &line[2..])
        };
        value.clear();
        refused
    }
}
