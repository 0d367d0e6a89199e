//! Numbers of calls, for devices in memory that are to fail.

ghost use Rattle.std.specs.Prelude.{◌≡◌, IfOk};

use crate::OutOfMemory;
use std::alloc::Global;
use std::marker::Model;

/// A list of call numbers, counted from 0. Contracts see the list.
#[derive(Debug, Drop)]
pub struct CallList {
    numbers: Vec<u64>,
}

impl Model for CallList {
    ghost use Rattle.std.specs.Prelude.{ℕ, List};

    ghost Value = { List ℕ };

    ghost view = { λ c. c.numbers.items };
}

impl CallList {
    /// The list of these numbers.
    pub fn from_slice(alloc: Global, numbers: &[u64]) -> Result<CallList, OutOfMemory>
        ensures { IfOk result (λ c. c ≡ numbers.now) }
    {
        match numbers.to_vec(alloc) {
            Ok(numbers) => Ok(CallList { numbers }),
            Err(_) => Err(OutOfMemory),
        }
    }

    pub fn as_slice(&self) -> &[u64]
        ensures { result.now ≡ self.now }
    {
        &self.numbers
    }
}

/// Takes no memory.
impl From<Vec<u64>> for CallList {
    ghost from_gives = { λ v c. c ≡ v.items };

    fn from(numbers: Vec<u64>) -> CallList {
        CallList { numbers }
    }
}
