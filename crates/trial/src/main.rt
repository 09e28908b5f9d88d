//! trial: works outlets as the lines on standard input say, and prints after each line how the outlet stands.
#![tactic(auto)]

mod line;
mod trial;

use crate::trial::Trial;
use program::exit_code;
use script::work::work_script;
use std::process::ExitCode;

fn main(rt: HostRuntime) -> ExitCode {
    let outcome = work_script::<Trial, Trial>(&rt);
    exit_code(&rt, "trial", outcome.map(|()| true))
}
