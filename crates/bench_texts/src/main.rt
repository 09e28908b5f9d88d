//! bench_texts: answers the plan texts on standard input, and prints what that comes to.
//! The texts and the lines are those of tests/bench/plain_texts.rs, which says what they are.
#![tactic(auto)]

mod checksum;
mod clock;
mod totals;

use crate::clock::Clock;
use crate::totals::Totals;
use anyhow::bail;
use plan_session::text::{Planned, answer_text};
use program::exit_code;
use std::alloc::Global;
use std::env::{self, Args};
use std::io::Read;
use std::process::ExitCode;
use std::time::Instant;

/// The number of rounds that is asked for. The first argument, which is the program's own name, is passed over.
fn rounds_asked(mut args: Args) -> anyhow::Result<Option<u64>> {
    args.next();
    let Some(word) = args.next() else {
        return Ok(None);
    };
    if args.next().is_some() {
        bail!("usage: bench_texts [NUMBER-OF-ROUNDS]");
    }
    match word.as_str().parse::<u64>() {
        Ok(0) | Err(_) => bail!("'{word}' is no number of rounds"),
        Ok(rounds) => Ok(Some(rounds)),
    }
}

/// The texts that were read, each without the zero octet that ends it.
fn texts_of(heap: Global, input: &[u8]) -> anyhow::Result<Vec<&[u8]>> {
    // The last zero octet begins no new text.
    match input.split_last() {
        Some((0, texts)) => Ok(texts.split(|octet| *octet == 0).collect(heap)?),
        _ => bail!("the last text is not ended by a zero octet"),
    }
}

/// Answers a text by the clock. What is done with the answer is not to count.
fn answer_timed(rt: &HostRuntime, text: &[u8], clock: &mut Clock) -> anyhow::Result<Planned> {
    let begun = Instant::now(rt)?;
    let planned = answer_text(rt.alloc(), text)?;
    clock.add(begun.elapsed(rt)?);
    Ok(planned)
}

/// One round: each text is answered once.
fn answer_all(rt: &HostRuntime, texts: &[&[u8]], clock: &mut Clock) -> anyhow::Result<Totals> {
    let mut totals = Totals::none();
    for text in texts {
        totals.add(&answer_timed(rt, text, clock)?);
    }
    Ok(totals)
}

/// What each of so many rounds comes to.
fn answer_rounds(
    rt: &HostRuntime,
    texts: &[&[u8]],
    rounds: u64,
    clock: &mut Clock,
) -> anyhow::Result<Totals> {
    let first = answer_all(rt, texts, clock)?;
    for round in 1..rounds {
        if answer_all(rt, texts, clock)? != first {
            bail!("round {round} comes to something else than round 0");
        }
    }
    Ok(first)
}

fn run(rt: &HostRuntime) -> anyhow::Result<()> {
    let asked = rounds_asked(env::args(rt)?)?;
    let mut input = Vec::new(rt.alloc());
    rt.stdin().read_to_end(&mut input)?;
    let texts = texts_of(rt.alloc(), &input)?;
    let rounds = asked.unwrap_or(1);
    let mut clock = Clock::zero();
    let totals = answer_rounds(rt, &texts, rounds, &mut clock)?;
    let number = texts.len() as u64;
    println!(rt; "texts {number}")?;
    println!(rt; "octets printed {}", totals.octets)?;
    println!(rt; "cards {}", totals.cards)?;
    println!(rt; "checksum {}", totals.checksum.value)?;
    // No two runs take the same time, and a run without a number is to print the same each time.
    if asked.is_some() {
        let answered = number.saturating_mul(rounds);
        println!(rt; "texts a second {}", clock.per_second(answered))?;
    }
    Ok(())
}

fn main(rt: HostRuntime) -> ExitCode {
    exit_code(&rt, "bench_texts", run(&rt).map(|()| true))
}
