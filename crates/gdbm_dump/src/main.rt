//! `gdbm_dump [-H FORM] DB` prints the dump of a database file.
#![tactic(auto)]

use gd_top::{Ending, HostClock, HostSink, HostSource, HostVault, Tool, host_words, report, run};
use std::process::ExitCode;

fn main(rt: HostRuntime) -> ExitCode {
    let mut out = HostSink::new(rt.stdout());
    let mut err = HostSink::new(rt.stderr());
    let status = match host_words(&rt) {
        Ok(words) => {
            let mut input = HostSource::new(rt.stdin());
            let mut vault = HostVault::new(&rt, rt.alloc());
            let mut clock = HostClock::new(&rt);
            run(
                rt.alloc(),
                Tool::Dump,
                &words,
                &mut input,
                &mut out,
                &mut err,
                &mut vault,
                &mut clock,
            )
            .status
        }
        Err(_) => report(&mut err, Ending::Starved),
    };
    ExitCode::from(status)
}
