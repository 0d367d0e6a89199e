//! The command that sets and prints variables.

ghost use Rattle.std.specs.Prelude.{◌≡◌, ◌≤◌, ◌++◌, None, Some, Option, codes};
ghost use Rattle.std.specs.Fmt.{decimal};
ghost use Rattle.gd_base.specs.Causes.{HasCause};
ghost use Rattle.gd_base.specs.Pages.{Pends};
ghost use Rattle.gd_base.specs.Streams.{Puts};
ghost use Rattle.gd_types.specs.Printing.{printed};
ghost use Rattle.gd_session.specs.Calls.{Answers, IsReady, scene};
ghost use Rattle.gd_session.specs.Counted.{OutCounts};
ghost use Rattle.gd_lang.specs.declared.commands.Setting.TheVariants as variables;
ghost use Rattle.gd_session.specs.Due.{Causes, set_kind};
ghost use Rattle.gd_session.specs.Moves as moves;
ghost use Rattle.gd_session.specs.Proper.{IsProperOption, IsProperSetting};
ghost use Rattle.gd_session.specs.Rows.{Alone, set_row, with_setting};
ghost use Rattle.gd_session.specs.Said.{Said, Sets};
ghost use Rattle.gd_session.specs.State.{seen};
ghost use Rattle.gd_session.specs.Texts.{format_name, line, opening_name, variables_text};

use crate::Reply;
use crate::phase::Phase;
use crate::printing::put_number_line;
use crate::session::Session;
use crate::settings::Settings;
use gd_base::{Datum, DbError, Failed, Format, Page, Sink, flush, put};
use gd_lang::{Opening, Setting};
use gd_types::put_printed;
use gd_vault::Vault;

fn format_name(format: Format) -> &'static [u8]
    ensures { result.now ≡ format_name format }
{
    match format {
        Format::Standard => b"standard",
        Format::Numsync => b"numsync",
    }
}

fn opening_name(opening: Opening) -> &'static [u8]
    ensures { result.now ≡ opening_name opening }
{
    match opening {
        Opening::NewDb => b"newdb",
        Opening::WrCreat => b"wrcreat",
        Opening::Reader => b"reader",
    }
}

// Puts a variable whose value is a number behind what waits.
fn put_number_variable<O: Sink>(
    page: &mut Page,
    name: &[u8],
    value: u64,
    out: &mut O,
) -> Result<(), Failed>
    ensures bytes { Pends (O.written out.old) page.old.items (O.written out.new) page.new.items result (name.now ++ line (decimal value)) }
    ensures cause { HasCause (O.fault_count out.old) (O.fault_count out.new) result }
    ensures kept { O.kept out.old out.new }
{
    put(page, out, name)?;
    put_number_line(page, value, out)
}

fn put_line<O: Sink>(page: &mut Page, text: &[u8], out: &mut O) -> Result<(), Failed>
    ensures bytes { Pends (O.written out.old) page.old.items (O.written out.new) page.new.items result (line text.now) }
    ensures cause { HasCause (O.fault_count out.old) (O.fault_count out.new) result }
    ensures kept { O.kept out.old out.new }
{
    put(page, out, text)?;
    put(page, out, b"\n")
}

// Puts a variable whose value is a word behind what waits.
fn put_word_variable<O: Sink>(
    page: &mut Page,
    name: &[u8],
    value: &[u8],
    out: &mut O,
) -> Result<(), Failed>
    ensures bytes { Pends (O.written out.old) page.old.items (O.written out.new) page.new.items result (name.now ++ line value.now) }
    ensures cause { HasCause (O.fault_count out.old) (O.fault_count out.new) result }
    ensures kept { O.kept out.old out.new }
{
    put(page, out, name)?;
    put_line(page, value, out)
}

// Puts the delimiter behind what waits.
fn put_delim<O: Sink>(page: &mut Page, delim: &[u8], out: &mut O) -> Result<(), Failed>
    ensures bytes { Pends (O.written out.old) page.old.items (O.written out.new) page.new.items result (codes "delim1=" ++ line (printed delim.now)) }
    ensures cause { HasCause (O.fault_count out.old) (O.fault_count out.new) result }
    ensures kept { O.kept out.old out.new }
{
    put(page, out, b"delim1=")?;
    put_printed_line(page, delim, out)
}

fn put_printed_line<O: Sink>(page: &mut Page, text: &[u8], out: &mut O) -> Result<(), Failed>
    ensures bytes { Pends (O.written out.old) page.old.items (O.written out.new) page.new.items result (line (printed text.now)) }
    ensures cause { HasCause (O.fault_count out.old) (O.fault_count out.new) result }
    ensures kept { O.kept out.old out.new }
{
    put_printed(page, text, out)?;
    put(page, out, b"\n")
}

// Puts the format and the way of opening behind what waits.
fn put_words<O: Sink>(page: &mut Page, settings: &Settings, out: &mut O) -> Result<(), Failed>
    ensures bytes { Pends (O.written out.old) page.old.items (O.written out.new) page.new.items result ((codes "format=" ++ line (format_name settings.now.format)) ++ (codes "open=" ++ line (opening_name settings.now.opening))) }
    ensures cause { HasCause (O.fault_count out.old) (O.fault_count out.new) result }
    ensures kept { O.kept out.old out.new }
{
    put_word_variable(page, b"format=", format_name(settings.format), out)?;
    put_word_variable(page, b"open=", opening_name(settings.opening), out)
}

// Puts the delimiter and what comes behind it behind what waits.
fn put_rest<O: Sink>(page: &mut Page, settings: &Settings, out: &mut O) -> Result<(), Failed>
    ensures bytes { Pends (O.written out.old) page.old.items (O.written out.new) page.new.items result ((codes "delim1=" ++ line (printed settings.now.delim)) ++ ((codes "format=" ++ line (format_name settings.now.format)) ++ (codes "open=" ++ line (opening_name settings.now.opening)))) }
    ensures cause { HasCause (O.fault_count out.old) (O.fault_count out.new) result }
    ensures kept { O.kept out.old out.new }
{
    put_delim(page, settings.delim.as_slice(), out)?;
    put_words(page, settings, out)
}

// Puts all variables behind what waits.
fn put_variables<O: Sink>(page: &mut Page, settings: &Settings, out: &mut O) -> Result<(), Failed>
    ensures bytes { Pends (O.written out.old) page.old.items (O.written out.new) page.new.items result (variables_text settings.now) }
    ensures cause { HasCause (O.fault_count out.old) (O.fault_count out.new) result }
    ensures kept { O.kept out.old out.new }
{
    put_number_variable(page, b"blocksize=", u64::from(settings.block), out)?;
    put_number_variable(page, b"cachesize=", u64::from(settings.cache), out)?;
    put_rest(page, settings, out)
}

fn write_variables<O: Sink>(settings: &Settings, out: &mut O) -> Result<(), Failed>
    ensures bytes { Puts (O.written out.old) (O.written out.new) result (variables_text settings.now) }
    ensures cause { HasCause (O.fault_count out.old) (O.fault_count out.new) result }
    ensures kept { O.kept out.old out.new }
{
    let mut page = Page::new();
    put_variables(&mut page, settings, out)?;
    flush(&mut page, out)
}

// Prints all variables.
fn say_variables<O: Sink>(settings: &Settings, out: &mut O) -> Reply
    ensures said { Said (variables_text settings.now) result (O.written out.old) (O.written out.new) (O.fault_count out.old) (O.fault_count out.new) }
    ensures later { O.fault_count out.old ≤ O.fault_count out.new }
    ensures kept { O.kept out.old out.new }
    ensures sink { OutCounts result (O.fault_count out.old) (O.fault_count out.new) }
{
    match write_variables(settings, out) {
        Ok(()) => Reply::Done,
        Err(_) => Reply::SinkFault,
    }
}

impl Session {
    // Keeps so many buckets from now on.
    fn resize<V: Vault>(&mut self, size: u32, vault: &V)
        requires ready { IsReady (V.view_of vault.now) self.old }
        requires least { 1 ≤ size }
        requires most { size ≤ 4096 }
        ensures ready { IsReady (V.view_of vault.now) self.new }
        ensures state { seen self.new ≡ with_setting (seen self.old) (variables.CacheSize size) }
    {
        self.settings.cache = size;
        if let Phase::Open(store) = &mut self.phase {
            store.set_cache(size);
        }
    }

    // Sets a variable.
    fn change<V: Vault>(&mut self, setting: &Setting, vault: &V) -> Reply
        requires ready { IsReady (V.view_of vault.now) self.old }
        requires proper { IsProperSetting setting.now }
        ensures ready { IsReady (V.view_of vault.now) self.new }
        ensures set { Sets setting.now (seen self.old) (seen self.new) result }
    {
        match setting {
            Setting::BlockSize(size) => self.settings.block = *size,
            Setting::CacheSize(size) => self.resize(*size, vault),
            Setting::Delim1(delim) => {
                match Datum::from_slice(self.alloc, delim.as_slice()) {
                    Ok(delim) => self.settings.delim = delim,
                    Err(_) => return Reply::Refused(DbError::OutOfMemory),
                }
            }
            Setting::Format(format) => self.settings.format = *format,
            Setting::Opening(opening) => self.settings.opening = *opening,
        }
        Reply::Done
    }

    /// Answers `set`.
    pub(crate) fn set<V: Vault, O: Sink>(
        &mut self,
        setting: &Option<Setting>,
        vault: &V,
        out: &mut O,
    ) -> Reply
        requires ready { IsReady (V.view_of vault.now) self.old }
        requires proper { IsProperOption setting.now }
        ensures ready { IsReady (V.view_of vault.now) self.new }
        ensures later { O.fault_count out.old ≤ O.fault_count out.new }
        ensures kept { O.kept out.old out.new }
        ensures answer { Answers (Alone (set_row setting.now)) (scene self.old (V.view_of vault.now) (O.written out.old) (O.fault_count out.old)) (scene self.new (V.view_of vault.now) (O.written out.new) (O.fault_count out.new)) result }
        ensures cause { Causes None (set_kind setting.now) (scene self.old (V.view_of vault.now) (O.written out.old) (O.fault_count out.old)) (scene self.new (V.view_of vault.now) (O.written out.new) (O.fault_count out.new)) result }
        ensures sink { OutCounts result (O.fault_count out.old) (O.fault_count out.new) }
        ensures leaves { moves.SetMove setting.now (seen self.old) result (seen self.new) }
    {
        match setting {
            None => say_variables(&self.settings, out),
            Some(setting) => self.change(setting, vault),
        }
    }
}
