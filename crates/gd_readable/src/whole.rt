//! The check of a whole file.

ghost use Rattle.std.specs.Prelude.{◌≡◌, length, IfOk, IfErr, IfNone, IfSome, Some, None};
ghost use Rattle.gd_format.specs.HeaderFault.{header_fault_of, header_of};
ghost use Rattle.gd_format.specs.File.{file_fault, front_of};
ghost use Rattle.gd_readable.specs.Checks.{IsHeaderIn};

use crate::directory::dir_refusal;
use gd_base::{DbError, OutOfMemory};
use gd_format::Header;
use gd_layout::Native;
use std::alloc::Global;

// The first fault of the header of a file.
#[tactic(auto, using(crate::proofs::Fronts::short_front, crate::proofs::Fronts::long_front))]
fn header_refusal(file: &[u8]) -> Option<DbError>
    ensures { result ≡ header_fault_of (front_of file.now) (length file.now) }
{
    let len = file.len();
    if len < 80 {
        return Native::header_fault(file, len as u64);
    }
    Native::header_fault(&file[..80], len as u64)
}

// The header of a file that has no header fault.
#[tactic(auto, using(crate::proofs::Fronts::long_front))]
fn header_from(file: &[u8]) -> Header
    requires { header_fault_of (front_of file.now) (length file.now) ≡ None }
    ensures header { result ≡ header_of (front_of file.now) }
    ensures inside { IsHeaderIn result (length file.now) }
{
    Native::read_header(&file[..80])
}

/// The header of a file that is readable, or the first refusal of the file.
#[tactic(auto, unfolding(gd_format::specs::File::file_fault))]
pub fn check(alloc: Global, file: &[u8]) -> Result<Result<Header, DbError>, OutOfMemory>
    ensures readable { IfOk result (λ r. IfOk r (λ h. (file_fault file.now ≡ None) × (h ≡ header_of (front_of file.now)))) }
    ensures refused { IfOk result (λ r. IfErr r (λ e. file_fault file.now ≡ Some e)) }
{
    if let Some(e) = header_refusal(file) {
        return Ok(Err(e));
    }
    let header = header_from(file);
    match dir_refusal(alloc, file, &header)? {
        Some(e) => Ok(Err(e)),
        None => Ok(Ok(header)),
    }
}

/// The first refusal of a file, if any.
pub fn file_refusal(alloc: Global, file: &[u8]) -> Result<Option<DbError>, OutOfMemory>
    ensures { IfOk result (λ r. r ≡ file_fault file.now) }
{
    match check(alloc, file)? {
        Ok(_) => Ok(None),
        Err(e) => Ok(Some(e)),
    }
}
