//! The images of a crash, along the record of all calls.

ghost use Rattle.std.specs.Prelude.{◌≡◌, ◌↔◌, ◌+◌, ◌*◌, ◌≤◌, true, IfOk, IsTrue};
ghost use Rattle.gd_vault.specs.History.{left, was};
ghost use Rattle.gd_vault.specs.Lawful.{IsLawful};
ghost use Rattle.gd_memvault.specs.Disk.{disk_content};
ghost use Rattle.gd_memvault.specs.Image.{is_quiet};
ghost use Rattle.gd_memvault.specs.Log.{events_of, moment_of};

use crate::choices::Choices;
use crate::disk::Disk;
use crate::log::Log;
use gd_base::OutOfMemory;
use std::alloc::Global;

// Whether so many moments are not past those of so many calls.
fn is_within(rest: u64, calls: u64) -> bool
    ensures { IsTrue result ↔ (rest ≤ 2 * calls) }
{
    rest / 2 + rest % 2 <= calls
}

// Whether so many moments are not past those of so many calls, nor past the one inside the next call.
fn is_before(rest: u64, calls: u64) -> bool
    ensures { IsTrue result ↔ (rest ≤ 2 * calls + 1) }
{
    rest / 2 <= calls
}

/// What the vault was at a moment.
fn was_at(alloc: Global, first: &Disk, log: &Log, t: u64) -> Result<Disk, OutOfMemory>
    ensures { IfOk result (λ d. disk_content d ≡ was (disk_content first.now) (events_of (disk_content first.now) log.now) t) }
{
    let mut before = first;
    let mut rest = t;
    for entry in log.entries() {
        if is_before(rest, entry.idle_before) {
            return before.copy(alloc);
        }
        before = &entry.after;
        rest -= 2 * entry.idle_before + 2;
    }
    before.copy(alloc)
}

fn is_quiet(pick: &[u64]) -> bool
    ensures { result ≡ is_quiet pick.now }
{
    pick.iter().all(|choice| *choice == 0)
}

/// What a crash may leave at a moment, by these choices. Where each of them is 0, it is what the vault was.
pub fn image_of_picks(
    alloc: Global,
    first: &Disk,
    log: &Log,
    t: u64,
    pick: &[u64],
) -> Result<Disk, OutOfMemory>
    requires lawful { IsLawful (disk_content first.now) (events_of (disk_content first.now) log.now) }
    requires moment { t ≤ moment_of log.now }
    ensures left { IfOk result (λ d. left (disk_content first.now) (events_of (disk_content first.now) log.now) t (disk_content d)) }
    ensures quiet { is_quiet pick.now ≡ true → IfOk result (λ d. disk_content d ≡ was (disk_content first.now) (events_of (disk_content first.now) log.now) t) }
{
    if is_quiet(pick) {
        return was_at(alloc, first, log, t);
    }
    image_of(alloc, first, log, t, &mut Choices::new(pick))
}

// What a crash may leave at a moment.
fn image_of(
    alloc: Global,
    first: &Disk,
    log: &Log,
    t: u64,
    choices: &mut Choices,
) -> Result<Disk, OutOfMemory>
    requires lawful { IsLawful (disk_content first.now) (events_of (disk_content first.now) log.now) }
    requires moment { t ≤ moment_of log.now }
    ensures { IfOk result (λ d. left (disk_content first.now) (events_of (disk_content first.now) log.now) t (disk_content d)) }
{
    let mut image = first.copy(alloc)?;
    let mut before = first;
    let mut rest = t;
    for entry in log.entries() {
        if is_within(rest, entry.idle_before) {
            return Ok(image);
        }
        rest -= 2 * entry.idle_before;
        if rest == 1 {
            image.run(alloc, &entry.step, before, &entry.after, choices)?;
            return Ok(image);
        }
        image.crash(alloc, &entry.step, entry.ok, &entry.after, choices)?;
        before = &entry.after;
        rest -= 2;
    }
    Ok(image)
}
