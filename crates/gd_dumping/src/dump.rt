//! Dumps the records of a database file, one after another.

ghost use Rattle.std.specs.Prelude.{◌≡◌, ◌≤◌, ◌<◌, ◌^◌, Ok, Err, IfOk, IfErr, None, Some, length};
ghost use Rattle.gd_base.specs.Pages.{Pends};
ghost use Rattle.gd_base.specs.Streams.{Puts};
ghost use Rattle.gd_vault.specs.Views.{HasFile, OnlyAsks};
ghost use Rattle.gd_format.specs.HeaderFault.{header_of};
ghost use Rattle.gd_format.specs.Headers.{IsHeader};
ghost use Rattle.gd_format.specs.File.{file_fault, front_of};
ghost use Rattle.gd_readable.specs.Standing.{StandsIn, left_of, slots_of_walk};
ghost use Rattle.gd_dumping.specs.Dump.{AtFile, Breaks, Counted, EndsAt, EndsFor};
ghost use Rattle.gd_dumping.specs.Forms.{dump_of, form_text, pairs_in};

use crate::ending::{Ending, refused};
use crate::parts::{put_end, put_head, put_pair};
use gd_base::{DbError, Format, Name, Page, Sink, flush};
use gd_format::Header;
use gd_readable::{Walk, readable};
use gd_vault::{FileId, Vault};
use gd_words::Form;
use std::alloc::Global;

// Puts the records that a walk has still to give behind what waits, and answers how many they are.
fn put_records<O: Sink, V: Vault>(
    page: &mut Page,
    form: Form,
    walk: &mut Walk,
    out: &mut O,
    vault: &mut V,
) -> Result<u64, Ending>
    requires there { HasFile (V.view_of vault.old) walk.old.f }
    requires stands { AtFile (V.view_of vault.old) walk.old.f (λ file. StandsIn file walk.old) }
    requires few { slots_of_walk walk.old < 2 ^ 64 }
    ensures bytes { AtFile (V.view_of vault.old) walk.old.f (λ file. Pends (O.written out.old) page.old.items (O.written out.new) page.new.items result (pairs_in form (left_of file walk.old))) }
    ensures count { AtFile (V.view_of vault.old) walk.old.f (λ file. IfOk result (λ n. n ≡ length (left_of file walk.old))) }
    ensures breaks { IfErr result (λ e. Breaks e (V.view_of vault.old).told) }
    ensures answered { IfOk result (λ _. ((V.view_of vault.new).faults ≡ (V.view_of vault.old).faults) × (O.fault_count out.new ≡ O.fault_count out.old)) }
    ensures counted { IfErr result (λ e. Counted e (V.view_of vault.old).faults (V.view_of vault.new).faults (O.fault_count out.old) (O.fault_count out.new)) }
    ensures asks { OnlyAsks (V.view_of vault.old) (V.view_of vault.new) }
    ensures later { O.fault_count out.old ≤ O.fault_count out.new }
    ensures kept { O.kept out.old out.new }
{
    let mut count = 0;
    'records: while let Some((key, value)) = walk.next(vault)? {
        put_pair(page, form, key.as_slice(), value.as_slice(), out)?;
        count += 1;
    }
    Ok(count)
}

// Puts a dump of them behind what waits.
fn put_dump<O: Sink, V: Vault>(
    page: &mut Page,
    form: Form,
    walk: &mut Walk,
    name: &Name,
    format: Format,
    out: &mut O,
    vault: &mut V,
) -> Result<(), Ending>
    requires there { HasFile (V.view_of vault.old) walk.old.f }
    requires stands { AtFile (V.view_of vault.old) walk.old.f (λ file. StandsIn file walk.old) }
    requires few { slots_of_walk walk.old < 2 ^ 64 }
    ensures bytes { AtFile (V.view_of vault.old) walk.old.f (λ file. Pends (O.written out.old) page.old.items (O.written out.new) page.new.items result (form_text form (left_of file walk.old) name.now format)) }
    ensures breaks { IfErr result (λ e. Breaks e (V.view_of vault.old).told) }
    ensures answered { IfOk result (λ _. ((V.view_of vault.new).faults ≡ (V.view_of vault.old).faults) × (O.fault_count out.new ≡ O.fault_count out.old)) }
    ensures counted { IfErr result (λ e. Counted e (V.view_of vault.old).faults (V.view_of vault.new).faults (O.fault_count out.old) (O.fault_count out.new)) }
    ensures asks { OnlyAsks (V.view_of vault.old) (V.view_of vault.new) }
    ensures later { O.fault_count out.old ≤ O.fault_count out.new }
    ensures kept { O.kept out.old out.new }
{
    put_head(page, form, format, name, out)?;
    let count = put_records(page, form, walk, out, vault)?;
    put_end(page, form, count, out)?;
    Ok(())
}

// Writes the dump of a readable file, whose header is given.
fn write_dump<O: Sink, V: Vault>(
    alloc: Global,
    f: FileId,
    header: &Header,
    form: Form,
    name: &Name,
    out: &mut O,
    vault: &mut V,
) -> Result<(), Ending>
    requires there { HasFile (V.view_of vault.old) f.0 }
    requires header { IsHeader header.now }
    requires readable { AtFile (V.view_of vault.old) f.0 (λ file. (file_fault file ≡ None) × (header.now ≡ header_of (front_of file))) }
    ensures bytes { AtFile (V.view_of vault.old) f.0 (λ file. Puts (O.written out.old) (O.written out.new) result (dump_of form name.now file)) }
    ensures breaks { IfErr result (λ e. Breaks e (V.view_of vault.old).told) }
    ensures answered { IfOk result (λ _. ((V.view_of vault.new).faults ≡ (V.view_of vault.old).faults) × (O.fault_count out.new ≡ O.fault_count out.old)) }
    ensures counted { IfErr result (λ e. Counted e (V.view_of vault.old).faults (V.view_of vault.new).faults (O.fault_count out.old) (O.fault_count out.new)) }
    ensures asks { OnlyAsks (V.view_of vault.old) (V.view_of vault.new) }
    ensures later { O.fault_count out.old ≤ O.fault_count out.new }
    ensures kept { O.kept out.old out.new }
{
    let mut walk = Walk::start(alloc, vault, f, header)?;
    let mut page = Page::new();
    put_dump(&mut page, form, &mut walk, name, header.format, out, vault)?;
    flush(&mut page, out)?;
    Ok(())
}

// Dumps a file that is there.
fn dump_file<O: Sink, V: Vault>(
    alloc: Global,
    f: FileId,
    form: Form,
    name: &Name,
    out: &mut O,
    vault: &mut V,
) -> Ending
    requires { HasFile (V.view_of vault.old) f.0 }
    ensures ends { EndsAt result form name.now (V.view_of vault.old) f.0 (O.written out.old) (O.written out.new) }
    ensures counted { Counted result (V.view_of vault.old).faults (V.view_of vault.new).faults (O.fault_count out.old) (O.fault_count out.new) }
    ensures asks { OnlyAsks (V.view_of vault.old) (V.view_of vault.new) }
    ensures later { O.fault_count out.old ≤ O.fault_count out.new }
    ensures kept { O.kept out.old out.new }
{
    let header = match readable(alloc, vault, f) {
        Ok(header) => header,
        Err(error) => return refused(error),
    };
    match write_dump(alloc, f, &header, form, name, out, vault) {
        Ok(()) => Ending::Dumped,
        Err(ending) => ending,
    }
}

/// Dumps the file with a name: the whole check comes before the first byte of output, and then each record is written
/// before the next one is read.
pub fn dump_named<O: Sink, V: Vault>(
    alloc: Global,
    form: Form,
    name: &Name,
    out: &mut O,
    vault: &mut V,
) -> Ending
    ensures ends { EndsFor result form name.now (V.view_of vault.old) (O.written out.old) (O.written out.new) }
    ensures counted { Counted result (V.view_of vault.old).faults (V.view_of vault.new).faults (O.fault_count out.old) (O.fault_count out.new) }
    ensures asks { OnlyAsks (V.view_of vault.old) (V.view_of vault.new) }
    ensures later { O.fault_count out.old ≤ O.fault_count out.new }
    ensures kept { O.kept out.old out.new }
{
    match vault.lookup(name) {
        Ok(Some(f)) => dump_file(alloc, f, form, name, out, vault),
        Ok(None) => Ending::Refused(DbError::Absent),
        Err(_) => Ending::Refused(DbError::VaultFault),
    }
}
