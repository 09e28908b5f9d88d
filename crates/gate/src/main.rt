//! gate: reads a card, and prints what the drive will do, or why the card is refused; or writes an example card.
#![tactic(auto)]

mod example;
mod request;
mod told;

use crate::example::{LENGTH, put_example};
use crate::request::Request;
use crate::told::{tell_box, tell_flow};
use anyhow::{anyhow, bail};
use card::any::{AnyLegs, read_any};
use card::refusal::ReadError;
use program::exit_code;
use std::io::Read;
use std::process::ExitCode;
use std::{env, fs};

const USAGE: &str = "usage: gate [CARD [TICK...]]
       gate --example FILE
Reads the card in the file CARD, or on standard input where it is - or left out,
and prints its legs and, for a flow card, its value at every tick, or at each TICK.
With --example, writes an example card to the file FILE.";

/// The octets of the card that is asked for.
fn octets_of(rt: &HostRuntime, path: &Option<String>) -> anyhow::Result<Vec<u8>> {
    if let Some(path) = path {
        return fs::read(rt, path.as_str()).map_err(|error| anyhow!(
            "cannot read '{path}': {error}"
        ));
    }
    let mut octets = Vec::new(rt.alloc());
    rt.stdin().read_to_end(&mut octets)?;
    Ok(octets)
}

/// Prints the card; whether it was accepted and every tick that was asked for told.
fn tell(rt: &HostRuntime, octets: &[u8], ticks: &[u32]) -> anyhow::Result<bool> {
    match read_any(rt.alloc(), octets) {
        Ok(AnyLegs::OfFlow(legs)) => tell_flow(rt, &legs, ticks),
        Ok(AnyLegs::OfBox(legs)) => tell_box(rt, &legs, ticks),
        Err(ReadError::Refused(refusal)) => {
            println!(rt; "{refusal}")?;
            Ok(false)
        }
        Err(ReadError::NoMemory) => {
            bail!("there is not enough memory for the legs of this card")
        }
    }
}

/// Writes the example card to the file.
fn write_example(rt: &HostRuntime, path: &str) -> anyhow::Result<()> {
    let mut octets = [0u8; LENGTH];
    if let Err(refusal) = put_example(&mut octets) {
        bail!("the example is {refusal}");
    }
    if let Err(error) = fs::write(rt, path, &octets[..]) {
        bail!("cannot write '{path}': {error}");
    }
    Ok(())
}

fn run(rt: &HostRuntime) -> anyhow::Result<bool> {
    match Request::from_args(rt.alloc(), env::args(rt)?)? {
        Request::Help => {
            println!(rt; "{USAGE}")?;
            Ok(true)
        }
        Request::Example { path } => {
            write_example(rt, path.as_str())?;
            Ok(true)
        }
        Request::Card { path, ticks } => tell(rt, &octets_of(rt, &path)?, &ticks),
    }
}

fn main(rt: HostRuntime) -> ExitCode {
    exit_code(&rt, "gate", run(&rt))
}
