//! What is printed of an accepted card.
use anyhow::bail;
use card::refusal::Refusal;
use leg::leg::Leg;
use leg::value::first_value;
use ordinate::branches::Branches;
use ordinate::flow::Flow;
use ordinate::kind::Ordinate;
use std::fmt::Display;

/// The tick at which the turn ends.
fn last_tick<P>(legs: &[Leg<P>]) -> u32 {
    match legs.last() {
        Some(leg) => leg.stretch.from.saturating_add(leg.stretch.ticks),
        None => 0,
    }
}

fn tell_legs<P: Ordinate + Display>(
    rt: &HostRuntime,
    kind: &str,
    legs: &[Leg<P>],
) -> anyhow::Result<()> {
    let count = legs.len();
    let plural = if count == 1 { "leg" } else { "legs" };
    println!(rt;
        "{kind} card, {count} {plural}, ticks 0 to {}",
        last_tick(legs)
    )?;
    for (i, leg) in legs.iter().enumerate() {
        let stretch = leg.stretch;
        print!(rt; "leg {i}: from {}, ticks {}, ", stretch.from, stretch.ticks)?;
        print!(rt;
            "cell {} {}, degree {}, ",
            stretch.cell.depth, stretch.cell.index, leg.degree
        )?;
        println!(rt;
            "start {}, middle {}, end {}",
            leg.start, leg.middle, leg.end
        )?;
    }
    Ok(())
}

/// Prints the value at the tick, or that there is none.
fn tell_tick(rt: &HostRuntime, legs: &[Leg<Flow>], tick: u32) -> anyhow::Result<bool> {
    match first_value(legs, tick) {
        Some(value) => {
            println!(rt; "tick {tick}: {value}")?;
            Ok(true)
        }
        None => {
            println!(rt; "tick {tick}: {}", Refusal::PastLastLeg)?;
            Ok(false)
        }
    }
}

/// Prints the card with its values; whether each tick that was asked for was told.
pub fn tell_flow(rt: &HostRuntime, legs: &[Leg<Flow>], ticks: &[u32]) -> anyhow::Result<bool> {
    tell_legs(rt, "flow", legs)?;
    if ticks.len() == 0 {
        tell_all_ticks(rt, legs)?;
        return Ok(true);
    }
    let mut told = true;
    for tick in ticks {
        told &= tell_tick(rt, legs, *tick)?;
    }
    Ok(told)
}

fn tell_all_ticks(rt: &HostRuntime, legs: &[Leg<Flow>]) -> anyhow::Result<()> {
    if legs.len() == 0 {
        return Ok(());
    }
    // ticks are numbers: there is no list of them
    for tick in 0..=last_tick(legs) {
        tell_tick(rt, legs, tick)?;
    }
    Ok(())
}

pub fn tell_box(rt: &HostRuntime, legs: &[Leg<Branches>], ticks: &[u32]) -> anyhow::Result<bool> {
    if ticks.len() > 0 {
        bail!("this is a box card, and values are told of flow cards alone");
    }
    tell_legs(rt, "box", legs)?;
    Ok(true)
}
