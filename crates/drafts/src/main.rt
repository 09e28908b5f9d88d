//! drafts: makes turns as the lines on standard input say, and prints after each line the answer and how the outlet stands.
#![tactic(auto)]

mod any_turn;
mod calls;
mod drafts;
mod line;

use crate::drafts::Drafts;
use ordinate::branches::Branches;
use ordinate::flow::Flow;
use program::exit_code;
use script::work::work_script;
use std::process::ExitCode;

fn main(rt: HostRuntime) -> ExitCode {
    let outcome = work_script::<Drafts<Flow>, Drafts<Branches>>(&rt);
    exit_code(&rt, "drafts", outcome.map(|()| true))
}
