//! `gdbmtool [OPTION..] [DB]` answers the commands of its standard input, one a line.
#![tactic(auto)]

use gd_top::{
    HostClock, HostSink, HostSource, HostVault, Tool, ToolRefusal, host_words, refuse, run,
};
use std::process::ExitCode;

fn main(rt: HostRuntime) -> ExitCode {
    let mut out = HostSink::new(rt.stdout());
    let mut err = HostSink::new(rt.stderr());
    let status = match host_words(&rt) {
        Ok(words) => {
            let mut input = HostSource::new(rt.stdin());
            let mut vault = HostVault::new(&rt, rt.alloc());
            let mut clock = HostClock::new(&rt);
            run(
                rt.alloc(),
                Tool::Gdbmtool,
                &words,
                &mut input,
                &mut out,
                &mut err,
                &mut vault,
                &mut clock,
            )
            .status
        }
        Err(_) => refuse(&mut err, ToolRefusal::Memory),
    };
    ExitCode::from(status)
}
