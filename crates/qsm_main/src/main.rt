// The executable `qsm`: the commands behind one name, each with its exit status.
#![tactic(auto)]

use std::process::ExitCode;

// 2, that a command could not be done, for what is no status.
fn status(code: i32) -> u8 {
    u8::try_from(code).unwrap_or(2)
}

fn main(rt: HostRuntime) -> ExitCode {
    ExitCode::from(status(qsm_cmd::qsm_command(&rt)))
}
