//! Fields that are read one by one, as they stand: signs are kept, and nothing is judged.

ghost use Rattle.std.specs.Prelude.{◌≡◌, ◌+◌, ◌*◌, ◌≤◌, length};
ghost use Rattle.gd_format.specs.Field.{bytes_at, i64_at};
ghost use Rattle.gd_format.specs.Bucket.{counts_at, raw_slot_at, raw_free_at};

use crate::Layout;
use crate::fields::{i32_from, i64_from};
use gd_format::{Counts, RawExtent, RawSlot};

fn four_from(bytes: &[u8], at: usize) -> [u8; 4]
    requires { at + 4 ≤ length bytes.now }
    ensures { result ≡ bytes_at bytes.now at 4 }
{
    [bytes[at], bytes[at + 1], bytes[at + 2], bytes[at + 3]]
}

impl Layout<8, 0> {
    /// The address at an index of a directory, of which `bytes` has the first entries.
    pub fn address(bytes: &[u8], index: usize) -> i64
        requires { 8 * (index + 1) ≤ length bytes.now }
        ensures { result ≡ i64_at bytes.now (8 * index) }
    {
        i64_from(bytes, 8 * index)
    }

    /// The three counts of a bucket.
    pub fn counts(bytes: &[u8]) -> Counts
        requires { 112 ≤ length bytes.now }
        ensures { result ≡ counts_at bytes.now }
    {
        Counts {
            free: i32_from(bytes, 0),
            bits: i32_from(bytes, 104),
            full: i32_from(bytes, 108),
        }
    }

    /// The slot at a place of a bucket.
    #[tactic(auto, unfolding(gd_format::specs::Bucket::raw_slot_at))]
    pub fn raw_slot(bytes: &[u8], place: u32) -> RawSlot
        requires { 112 + 24 * (place + 1) ≤ length bytes.now }
        ensures { result ≡ raw_slot_at bytes.now place }
    {
        let at = 112 + 24 * place as usize;
        RawSlot {
            hash: i32_from(bytes, at),
            start: four_from(bytes, at + 4),
            at: i64_from(bytes, at + 8),
            key_size: i32_from(bytes, at + 16),
            value_size: i32_from(bytes, at + 20),
        }
    }

    /// The free extent at a place of a bucket.
    #[tactic(auto, unfolding(gd_format::specs::Bucket::raw_free_at))]
    pub fn raw_free(bytes: &[u8], place: u32) -> RawExtent
        requires { 8 + 16 * (place + 1) ≤ length bytes.now }
        ensures { result ≡ raw_free_at bytes.now place }
    {
        let at = 8 + 16 * place as usize;
        RawExtent {
            size: i32_from(bytes, at),
            at: i64_from(bytes, at + 8),
        }
    }
}
