//! Which bytes of a file are in an extent, for tests.

ghost use Rattle.std.specs.Prelude.{◌≤◌, IfSome};

use gd_format::Extent;
use gd_layout::{u32_from, u64_from};

/// Which bytes of a file are in an extent.
#[derive(Drop)]
pub struct Marks {
    pub bytes: Vec<bool>,
    pub marked: u64,
}

impl Marks {
    /// Marks the bytes of an extent, unless it passes the file's end or one of them is marked.
    pub fn mark(&mut self, at: u64, size: u64) -> bool {
        let len = self.bytes.len() as u64;
        if at > len || size > len - at {
            return false;
        }
        for byte in &mut self.bytes[at as usize..(at + size) as usize] {
            if *byte {
                return false;
            }
            *byte = true;
        }
        self.marked = self.marked.saturating_add(size);
        true
    }

    pub fn mark_all(&mut self, extents: &[Extent]) -> bool {
        for e in extents {
            if !self.mark(e.at, u64::from(e.size)) {
                return false;
            }
        }
        true
    }

    /// Marks the blocks of a stack and their extents, and answers how many blocks there are, and their bytes.
    pub fn mark_stack(&mut self, file: &[u8], top: u64) -> Option<(u64, u64)> {
        let mut held: u64 = 0;
        let mut at = top;
        for blocks in 0..1000 {
            if at == 0 {
                return Some((blocks, held));
            }
            if at >= file.len() as u64 {
                return None;
            }
            let rest = &file[at as usize..];
            let (count, next) = head_of(rest)?;
            let size = 16 + 16 * u64::from(count);
            if size > rest.len() as u64 || !self.mark(at, size) {
                return None;
            }
            for e in 0..count as usize {
                let n = u32_from(rest, 16 + 16 * e);
                if !self.mark(u64_from(rest, 24 + 16 * e), u64::from(n)) {
                    return None;
                }
            }
            held = held.saturating_add(size);
            at = next;
        }
        None
    }
}

// The count of a block of the stack, and the address of the next one.
fn head_of(bytes: &[u8]) -> Option<(u32, u64)>
    ensures { IfSome result (λ r. r.0 ≤ 1000) }
{
    if bytes.len() < 16 {
        return None;
    }
    let count = u32_from(bytes, 4);
    if count > 1000 {
        return None;
    }
    Some((count, u64_from(bytes, 8)))
}
