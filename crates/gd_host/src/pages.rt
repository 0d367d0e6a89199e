//! Pages of the host's files that were read, so that small reads near one another need few calls of the host.

ghost use Rattle.std.specs.Prelude.{◌≤◌, length, IfOk};

use crate::files::fill;
use std::alloc::Global;
use std::fs::File;
use std::io;

/// How many bytes a page has.
pub const PAGE: usize = 4096;

// How many pages are kept at the most: a megabyte.
const PLACES: usize = 256;

/// Which text of a file is meant: the file's number, and how often the file was changed.
#[derive(Clone, Copy, Debug, PartialEq, Eq)]
pub struct Text {
    pub file: u64,
    pub changes: u64,
}

// A page of a text, the last one of a file with fewer bytes, or none.
#[derive(Drop)]
struct Page {
    text: Text,
    number: u64,
    bytes: Vec<u8>,
    len: usize,
}

impl Page {
    // Holds another page, or none where the host fails.
    fn read(&mut self, alloc: Global, file: &File, text: Text, number: u64) -> io::Result<()> {
        self.len = 0;
        if self.bytes.len() < PAGE {
            self.bytes = vec![in alloc; 0u8; PAGE]?;
        }
        let count = fill(file, number.saturating_mul(PAGE as u64), &mut self.bytes)?;
        self.text = text;
        self.number = number;
        self.len = count;
        Ok(())
    }
}

/// The number of a page gives its only place. A page of a text that is no file's any more stays until its place is
/// wanted, and is never read.
#[derive(Drop)]
pub struct Pages {
    alloc: Global,
    places: Vec<Page>,
}

impl Pages {
    pub fn new(alloc: Global) -> Pages {
        Pages {
            alloc,
            places: Vec::new(alloc),
        }
    }

    fn make_places(&mut self) -> io::Result<()> {
        for _ in self.places.len()..PLACES {
            self.places.push(Page {
                text: Text {
                    file: 0,
                    changes: 0,
                },
                number: 0,
                bytes: Vec::new(self.alloc),
                len: 0,
            })?;
        }
        Ok(())
    }

    // The bytes of a page, fewer at the end of the file.
    fn page(&mut self, file: &File, text: Text, number: u64) -> io::Result<&[u8]> {
        self.make_places()?;
        let place = number.wrapping_add(text.file) % PLACES as u64;
        let Some(page) = self.places.get_mut(place as usize) else {
            return Ok(&[]);
        };
        if page.len == 0 || page.text != text || page.number != number {
            page.read(self.alloc, file, text, number)?;
        }
        Ok(page.bytes.get(..page.len).unwrap_or(&[]))
    }

    /// Copies what the page of a place has from there on.
    pub fn copy(&mut self, file: &File, text: Text, at: u64, buf: &mut [u8]) -> io::Result<usize>
        ensures { IfOk result (λ n. n ≤ length buf.new) }
    {
        let page = self.page(file, text, at / PAGE as u64)?;
        let Some(rest) = page.get((at % PAGE as u64) as usize..) else {
            return Ok(0);
        };
        let n = rest.len().min(buf.len());
        buf[..n].copy_from_slice(&rest[..n]);
        Ok(n)
    }
}
