//! `gdbm_load [OPTION..] FILE [DB]` stores the pairs of a dump in a database.
#![tactic(auto)]

use gd_top::{
    HostClock, HostSink, HostSource, HostVault, LoadEnd, Tool, host_words, report_load, run,
};
use std::process::ExitCode;

fn main(rt: HostRuntime) -> ExitCode {
    let mut out = HostSink::new(rt.stdout());
    let mut err = HostSink::new(rt.stderr());
    let status = match host_words(&rt) {
        Ok(words) => {
            let mut input = HostSource::new(rt.stdin());
            let mut vault = HostVault::new(&rt, rt.alloc());
            let mut clock = HostClock::new(&rt);
            run(
                rt.alloc(),
                Tool::Load,
                &words,
                &mut input,
                &mut out,
                &mut err,
                &mut vault,
                &mut clock,
            )
            .status
        }
        Err(_) => report_load(&mut err, LoadEnd::Starved),
    };
    ExitCode::from(status)
}
