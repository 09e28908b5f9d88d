//! plan_card: reads a plan text on standard input, prints of it what plan prints, and writes the card of its turn to a file.
#![tactic(auto)]

use anyhow::bail;
use plan_session::text::{Planned, answer_text};
use program::exit_code;
use std::env::Args;
use std::io::{Read, Write};
use std::process::ExitCode;
use std::{env, fs};

const USAGE: &str = "usage: plan_card FILE
Reads a plan text on standard input, and prints the refusals of its lines and, for
an accepted seal, the legs of the turn. If no line was refused and the turn is sealed,
writes its card to the file FILE; else leaves that file alone.";

/// What the arguments ask for.
#[derive(Drop)]
enum Request {
    Help,
    /// A card in this file.
    Card { path: String },
}

/// The first argument, which is the program's own name, is passed over.
fn request_of(mut args: Args) -> anyhow::Result<Request> {
    args.next();
    let Some(first) = args.next() else {
        bail!("one file is wanted; try 'plan_card --help'");
    };
    let more = args.next().is_some();
    match first.as_str() {
        "--help" | "-h" => Ok(Request::Help),
        option if option.starts_with('-') => {
            bail!("there is no option '{option}'; try 'plan_card --help'")
        }
        _ if more => bail!("one file is wanted; try 'plan_card --help'"),
        _ => Ok(Request::Card { path: first }),
    }
}

fn save(rt: &HostRuntime, path: &str, card: &[u8]) -> anyhow::Result<()> {
    if let Err(error) = fs::write(rt, path, card) {
        bail!("cannot write '{path}': {error}");
    }
    Ok(())
}

/// Writes the card of the text on standard input to the file.
fn write_card(rt: &HostRuntime, path: &str) -> anyhow::Result<()> {
    let mut text = Vec::new(rt.alloc());
    rt.stdin().read_to_end(&mut text)?;
    let Planned { printed, card } = answer_text(rt.alloc(), &text)?;
    rt.stdout().write_all(&printed)?;
    let Some(card) = card else {
        bail!("no card is written, since a line was refused or the turn is not sealed");
    };
    save(rt, path, &card)
}

fn run(rt: &HostRuntime) -> anyhow::Result<()> {
    match request_of(env::args(rt)?)? {
        Request::Help => {
            println!(rt; "{USAGE}")?;
            Ok(())
        }
        Request::Card { path } => write_card(rt, path.as_str()),
    }
}

fn main(rt: HostRuntime) -> ExitCode {
    exit_code(&rt, "plan_card", run(&rt).map(|()| true))
}
