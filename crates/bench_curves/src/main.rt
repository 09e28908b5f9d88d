//! bench_curves: lays the legs of many drawn curves, and prints what they come to.
//! The curves and the lines are those of tests/bench/plain.rs, which says how they are drawn.
#![tactic(auto)]

mod checksum;
mod desk;
mod random;
mod totals;

use crate::desk::Desk;
use crate::random::Generator;
use crate::totals::Totals;
use anyhow::{Context, bail};
use curve::span::Span;
use ordinate::branches::Branches;
use ordinate::flow::Flow;
use program::exit_code;
use std::alloc::Global;
use std::env::{self, Args};
use std::process::ExitCode;
use std::time::{Duration, Instant};

/// How many curves are drawn where no number is given.
const FEW: u64 = 2_000;

/// The number of curves that is asked for. The first argument, which is the program's own name, is passed over.
fn number_asked(mut args: Args) -> anyhow::Result<Option<u64>> {
    args.next();
    let Some(word) = args.next() else {
        return Ok(None);
    };
    if args.next().is_some() {
        bail!("usage: bench_curves [NUMBER-OF-CURVES]");
    }
    let number = word.as_str().parse::<u64>().ok();
    Ok(Some(number.context(format_args!("'{word}' is no number of curves"))?))
}

/// Draws and lays so many curves.
fn lay_curves(heap: Global, number: u64) -> anyhow::Result<Totals> {
    let span = Span::new(0, 1).context("a span of one tick cannot be had")?;
    let mut flows = Desk::<Flow>::new(heap, span)?;
    let mut boxes = Desk::<Branches>::new(heap, span)?;
    let mut random = Generator::seeded();
    let mut totals = Totals::none();
    // so many times: there is no list
    for _ in 0..number {
        if random.below(2) == 0 {
            flows.lay_next(&mut random, &mut totals)?;
        } else {
            boxes.lay_next(&mut random, &mut totals)?;
        }
    }
    Ok(totals)
}

fn per_second(number: u64, time: Duration) -> u64 {
    let micros = time.as_micros().min(u64::MAX as u128) as u64;
    number.saturating_mul(1_000_000) / micros.max(1)
}

fn run(rt: &HostRuntime) -> anyhow::Result<()> {
    let asked = number_asked(env::args(rt)?)?;
    let number = asked.unwrap_or(FEW);
    let begun = Instant::now(rt)?;
    let totals = lay_curves(rt.alloc(), number)?;
    let time = begun.elapsed(rt)?;
    println!(rt; "curves {number}")?;
    println!(rt; "too bent {}", totals.too_bent)?;
    println!(rt; "legs {}", totals.legs)?;
    println!(rt; "cells tested {}", totals.cells_tested)?;
    println!(rt; "checksum {}", totals.checksum.value)?;
    // no two runs take the same time, and a run without a number is to print the same each time
    if asked.is_some() {
        println!(rt; "curves a second {}", per_second(number, time))?;
    }
    Ok(())
}

fn main(rt: HostRuntime) -> ExitCode {
    exit_code(&rt, "bench_curves", run(&rt).map(|()| true))
}
