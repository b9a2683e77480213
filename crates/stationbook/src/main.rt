#![tactic(auto)]

// A book of notes on the disk: `stationbook URL LIST NOTE... > book.md`.
use std::process::ExitCode;

fn main(rt: HostRuntime) -> ExitCode {
    let mut error = rt.stderr();
    ExitCode::from(command::run(&rt, &mut error))
}
