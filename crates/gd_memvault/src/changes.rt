//! What a changing call does to the disk, or to the log.

ghost use Rattle.std.specs.Prelude.{◌≡◌, ◌≢◌, ◌⊎◌, ◌+◌, ◌<◌, ◌^◌, Bool, true, false, Some, None, IsTrue};
ghost use Rattle.gd_vault.specs.Events.{content_after};
ghost use Rattle.gd_vault.specs.Changes.{Adds, AddsIdle, TellsAfter};
ghost use Rattle.gd_vault.specs.Effects.{DoesOrMayDo};
ghost use Rattle.gd_vault.specs.Views.{content_of};
ghost use Rattle.gd_vault.specs.Views.Told.{Records, Tells};
ghost use Rattle.gd_memvault.specs.DiskData.{DiskData};
ghost use Rattle.gd_memvault.specs.Disk.{CanDo, call_of, disk_content};
ghost use Rattle.gd_memvault.specs.Log.{DoesNothing, IsFull, events_of, moment_of, told_of};
ghost use Rattle.gd_memvault.specs.Ended.{IsAtTold, is_done};
ghost use Rattle.gd_memvault.specs.Idle.{IdleOnlyWhere};

use crate::disk::Disk;
use crate::log::Log;
use crate::steps::Step;
use std::alloc::Global;

/// How a changing call ended. One that is to fail, or for which there is no moment, has failed; one for which there is
/// no memory is starved.
pub enum Ended {
    Done,
    Failed,
    Starved,
}

/// What the vault holds.
pub fn now<'a>(disk: &'a Disk, log: &'a Option<Log>) -> &'a Disk
    ensures { content_of (told_of disk.now log.now) ≡ Some (disk_content result.now) }
{
    match log {
        Some(log) => latest(disk, log),
        None => disk,
    }
}

fn latest<'a>(first: &'a Disk, log: &'a Log) -> &'a Disk
    ensures { disk_content result.now ≡ content_after (disk_content first.now) (events_of (disk_content first.now) log.now) }
{
    match log.entries().last() {
        Some(entry) => &entry.after,
        None => first,
    }
}

fn change_disk(alloc: Global, disk: &mut Disk, listed: bool, step: &Step) -> Ended
    requires { listed ≡ false → CanDo step.now (disk_content disk.old) }
    ensures told { TellsAfter (call_of step.now) (is_done result) (Tells (disk_content disk.old)) (Tells (disk_content disk.new)) }
    ensures failed { result ≡ Ended.Failed → IsTrue listed }
    ensures listed { IsTrue listed → result ≢ Ended.Done }
    ensures content { IsTrue listed → disk.new ≡ disk.old }
{
    if listed {
        return Ended::Failed;
    }
    match disk.apply(alloc, step) {
        Ok(()) => Ended::Done,
        Err(_) => Ended::Starved,
    }
}

// Records a failure for which there is no memory.
fn starve(first: &Disk, log: &mut Log) -> Ended
    requires { moment_of log.old + 2 < 2 ^ 64 }
    ensures told { AddsIdle (disk_content first.now) (events_of (disk_content first.now) log.old) (Records (disk_content first.now) (events_of (disk_content first.now) log.new)) }
    ensures starved { result ≡ Ended.Starved }
    ensures content { content_after (disk_content first.now) (events_of (disk_content first.now) log.new) ≡ content_after (disk_content first.now) (events_of (disk_content first.now) log.old) }
{
    log.idle();
    Ended::Starved
}

// Records a call and what it left.
fn keep(first: &Disk, log: &mut Log, step: Step, ok: bool, after: Disk) -> Ended
    requires room { moment_of log.old + 2 < 2 ^ 64 }
    requires effect { DoesOrMayDo ok (call_of step) (content_after (disk_content first.now) (events_of (disk_content first.now) log.old)) (disk_content after) }
    ensures told { Adds (call_of step) (is_done result) (disk_content first.now) (events_of (disk_content first.now) log.old) (Records (disk_content first.now) (events_of (disk_content first.now) log.new)) }
    ensures failed { IsTrue ok → result ≢ Ended.Failed }
    ensures done { ok ≡ false → result ≢ Ended.Done }
    ensures content { disk_content after ≡ content_after (disk_content first.now) (events_of (disk_content first.now) log.old) → content_after (disk_content first.now) (events_of (disk_content first.now) log.new) ≡ content_after (disk_content first.now) (events_of (disk_content first.now) log.old) }
    ensures idle { IdleOnlyWhere (result ≡ Ended.Starved) (Records (disk_content first.now) (events_of (disk_content first.now) log.old)) (Records (disk_content first.now) (events_of (disk_content first.now) log.new)) }
{
    match log.push(step, ok, after) {
        Ok(()) => { if ok { Ended::Done } else { Ended::Failed } }
        Err(_) => starve(first, log),
    }
}

// Records a call that left all as it was, and that counts as having touched what it may touch.
fn fail(first: &Disk, log: &mut Log, step: Step, same: Disk) -> Ended
    requires room { moment_of log.old + 2 < 2 ^ 64 }
    requires same { disk_content same ≡ content_after (disk_content first.now) (events_of (disk_content first.now) log.old) }
    ensures told { Adds (call_of step) (is_done result) (disk_content first.now) (events_of (disk_content first.now) log.old) (Records (disk_content first.now) (events_of (disk_content first.now) log.new)) }
    ensures failed { result ≢ Ended.Done }
    ensures content { content_after (disk_content first.now) (events_of (disk_content first.now) log.new) ≡ content_after (disk_content first.now) (events_of (disk_content first.now) log.old) }
    ensures idle { IdleOnlyWhere (result ≡ Ended.Starved) (Records (disk_content first.now) (events_of (disk_content first.now) log.old)) (Records (disk_content first.now) (events_of (disk_content first.now) log.new)) }
{
    keep(first, log, step, false, same)
}

fn change_log(alloc: Global, first: &Disk, log: &mut Log, listed: bool, step: Step) -> Ended
    requires { listed ≡ false → CanDo step (content_after (disk_content first.now) (events_of (disk_content first.now) log.old)) }
    ensures told { Adds (call_of step) (is_done result) (disk_content first.now) (events_of (disk_content first.now) log.old) (Records (disk_content first.now) (events_of (disk_content first.now) log.new)) }
    ensures failed { result ≡ Ended.Failed → IsTrue listed ⊎ IsFull (Records (disk_content first.now) (events_of (disk_content first.now) log.old)) }
    ensures listed { IsTrue listed → result ≢ Ended.Done }
    ensures content { IsTrue listed → content_after (disk_content first.now) (events_of (disk_content first.now) log.new) ≡ content_after (disk_content first.now) (events_of (disk_content first.now) log.old) }
    ensures idle { IdleOnlyWhere (result ≡ Ended.Starved) (Records (disk_content first.now) (events_of (disk_content first.now) log.old)) (Records (disk_content first.now) (events_of (disk_content first.now) log.new)) }
{
    if !log.has_room() {
        return Ended::Failed;
    }
    let mut next = match latest(first, log).copy(alloc) {
        Ok(next) => next,
        Err(_) => return starve(first, log),
    };
    if listed {
        return fail(first, log, step, next);
    }
    match next.apply(alloc, &step) {
        Ok(()) => keep(first, log, step, true, next),
        Err(_) => starve(first, log),
    }
}

/// Does a step and records it, where there is a log. One that is to fail changes nothing.
pub fn change(
    alloc: Global,
    disk: &mut Disk,
    log: &mut Option<Log>,
    listed: bool,
    step: Step,
) -> Ended
    requires { listed ≡ false → IsAtTold (told_of disk.old log.old) (CanDo step) }
    ensures told { TellsAfter (call_of step) (is_done result) (told_of disk.old log.old) (told_of disk.new log.new) }
    ensures failed { result ≡ Ended.Failed → IsTrue listed ⊎ IsFull (told_of disk.old log.old) }
    ensures listed { IsTrue listed → result ≢ Ended.Done }
    ensures content { IsTrue listed → content_of (told_of disk.new log.new) ≡ content_of (told_of disk.old log.old) }
    ensures idle { IdleOnlyWhere (result ≡ Ended.Starved) (told_of disk.old log.old) (told_of disk.new log.new) }
{
    match log {
        Some(log) => change_log(alloc, disk, log, listed, step),
        None => change_disk(alloc, disk, listed, &step),
    }
}

/// Records a failure that did nothing, where there is a log.
pub fn do_nothing(log: &mut Option<Log>)
    ensures { (d : DiskData) → DoesNothing (told_of d log.old) (told_of d log.new) }
{
    if let Some(log) = log {
        if log.has_room() {
            log.idle();
        }
    }
}
