//! plan: reads a plan text on standard input, and prints what each line is answered, and the legs of the sealed turn.
#![tactic(auto)]

use anyhow::bail;
use plan_session::text::answer_text;
use program::exit_code;
use std::env;
use std::io::{Read, Write};
use std::process::ExitCode;

const USAGE: &str = "usage: plan
Reads a plan text on standard input, and prints the refusals of its lines and, for
an accepted seal, the legs of the turn.";

fn run(rt: &HostRuntime) -> anyhow::Result<()> {
    let mut args = env::args(rt)?;
    args.next();
    if let Some(first) = args.next() {
        if matches!(first.as_str(), "--help" | "-h") {
            println!(rt; "{USAGE}")?;
            return Ok(());
        }
        bail!("no arguments are taken; try 'plan --help'");
    }
    let mut text = Vec::new(rt.alloc());
    rt.stdin().read_to_end(&mut text)?;
    let planned = answer_text(rt.alloc(), &text)?;
    rt.stdout().write_all(&planned.printed)?;
    Ok(())
}

fn main(rt: HostRuntime) -> ExitCode {
    exit_code(&rt, "plan", run(&rt).map(|()| true))
}
