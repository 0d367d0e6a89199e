//! Keys, values and other data.

ghost use Rattle.std.specs.Prelude.{◌≡◌, IfOk};

use crate::OutOfMemory;
use std::alloc::Global;
use std::marker::Model;

/// A list of bytes, as a key or a value. Contracts see the list.
#[derive(Debug, Drop)]
pub struct Datum {
    bytes: Vec<u8>,
}

impl Model for Datum {
    ghost use Rattle.std.specs.Prelude.{ℕ, List};

    ghost Value = { List ℕ };

    ghost view = { λ d. d.bytes.items };
}

impl Datum {
    /// A datum of these bytes.
    pub fn from_slice(alloc: Global, bytes: &[u8]) -> Result<Datum, OutOfMemory>
        ensures { IfOk result (λ d. d ≡ bytes.now) }
    {
        match bytes.to_vec(alloc) {
            Ok(bytes) => Ok(Datum { bytes }),
            Err(_) => Err(OutOfMemory),
        }
    }

    pub fn as_slice(&self) -> &[u8]
        ensures { result.now ≡ self.now }
    {
        &self.bytes
    }

    /// The bytes, without taking memory.
    pub fn into_vec(self) -> Vec<u8>
        ensures { result.items ≡ self }
    {
        let Datum { bytes } = self;
        bytes
    }
}

/// Takes no memory.
impl From<Vec<u8>> for Datum {
    ghost from_gives = { λ v d. d ≡ v.items };

    fn from(bytes: Vec<u8>) -> Datum {
        Datum { bytes }
    }
}
