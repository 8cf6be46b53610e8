//! The program `camac`, which checks CAMAC readout scripts against the plan of a branch.
#![tactic(auto)]

use camac_tool::{arguments, exit_status, unread_status};
use std::io;
use std::process::ExitCode;

// All else is `exit_status`, so that nothing of the program is without a contract but this.
fn main(rt: HostRuntime) -> ExitCode {
    ExitCode::from(match arguments(&rt) {
        Ok(words) => exit_status(&rt, words.as_slice(), io::writer(&rt), None).0,
        Err(fault) => unread_status(&rt, fault),
    })
}
