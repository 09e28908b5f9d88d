//! A turn of one curve, planned over a record table and over a card.
use anyhow::bail;
use bezier::reduction::Reduction;
use card_writer::card_outlet::CardOutlet;
use curve::limits::MOST_WORK;
use distance::measure::Distance;
use leg::leg::{Cell, Leg};
use outlet::outlet::Outlet;
use outlet::table::RecordTable;
use planner::begin::Terms;
use planner::run::{Course, Turn, run};
use planner::sealed::Sealed;
use std::alloc::Global;
use std::fmt::Display;
use turn::call::Call;
use turn::refusal::Refusal;

const RECORDS: usize = 16;

/// Room for as many records of any kind.
const OCTETS: usize = 1024;

/// Calls on a turn, and the ticks that it is then asked for if it is sealed.
#[derive(Clone, Copy)]
pub struct Plan<'a, P> {
    pub terms: Terms,
    pub calls: &'a [Call<'a, P>],
    pub ticks: &'a [i64],
}

/// As in `; lay accepted`, and `; lay with 7 work points refused 10: too few work points`.
fn add_answer<P>(
    text: &mut String,
    call: &Call<'_, P>,
    answer: Result<(), Refusal>,
) -> anyhow::Result<()> {
    match call {
        Call::Lay { work, .. } => {
            text.push_str("; lay")?;
            if *work != MOST_WORK {
                write!(*text, " with {work} work points")?;
            }
        }
        Call::Strike => text.push_str("; strike")?,
        Call::Seal => text.push_str("; seal")?,
    }
    match answer {
        Ok(()) => text.push_str(" accepted")?,
        Err(refusal) => write!(*text, " {refusal}")?,
    }
    Ok(())
}

/// As in `; cell 1 0: 0 by -2 to 8`.
fn add_leg<P: Distance + Display>(text: &mut String, leg: &Leg<P>) -> anyhow::Result<()> {
    let Cell { depth, index } = leg.stretch.cell;
    write!(*text, "; cell {depth} {index}: {}", leg.start)?;
    if leg.degree == 2 {
        write!(*text, " by {}", leg.middle)?;
    }
    write!(*text, " to {}", leg.end)?;
    Ok(())
}

fn add_legs<P: Distance + Display, R, O: Outlet<P>>(
    text: &mut String,
    sealed: &Sealed<P, R>,
    outlet: &mut O,
) -> anyhow::Result<()> {
    // a sealed turn is listed leg by leg, with the outlet lent for each
    for i in 0..RECORDS {
        match sealed.list::<O>(outlet, i) {
            Ok(Some(leg)) => add_leg(text, &leg)?,
            Ok(None) => return Ok(()),
            Err(refusal) => {
                write!(*text, "; list {refusal}")?;
                return Ok(());
            }
        }
    }
    Ok(())
}

/// As in `; tells 0 1 8 27 64; tick 5 refused 16: the tick is past the agreed end`.
fn add_told<P: Distance + Display, R, O: Outlet<P>>(
    text: &mut String,
    sealed: &Sealed<P, R>,
    outlet: &mut O,
    ticks: &[i64],
) -> anyhow::Result<()> {
    text.push_str("; tells")?;
    for tick in ticks {
        match sealed.tell::<O>(outlet, *tick) {
            Ok(point) => write!(*text, " {point}")?,
            Err(refusal) => write!(*text, "; tick {tick} {refusal}")?,
        }
    }
    Ok(())
}

fn performed<P: Distance, R: Reduction<P>, O: Outlet<P>>(
    heap: Global,
    plan: Plan<'_, P>,
    outlet: &mut O,
) -> anyhow::Result<Course<P, R>> {
    Ok(run::<P, R, O>(heap, plan.terms, outlet, plan.calls)?)
}

/// The answers of the calls, the legs, and what they tell.
fn shown<P: Distance + Display, R: Reduction<P>, O: Outlet<P>>(
    heap: Global,
    plan: Plan<'_, P>,
    outlet: &mut O,
) -> anyhow::Result<String> {
    let course = performed::<P, R, O>(heap, plan, outlet)?;
    let mut text = String::new(heap);
    for (call, answer) in plan.calls.iter().zip(course.answers.iter()) {
        add_answer(&mut text, call, *answer)?;
    }
    if let Turn::Sealed(sealed) = &course.turn {
        add_legs::<P, R, O>(&mut text, sealed, outlet)?;
        add_told::<P, R, O>(&mut text, sealed, outlet, plan.ticks)?;
    }
    Ok(text)
}

/// The same over a record table and over a card; an error where they differ.
pub fn shown_by_both<P: Distance + Display, R: Reduction<P>>(
    heap: Global,
    plan: Plan<'_, P>,
) -> anyhow::Result<String> {
    let mut table = RecordTable::<P>::start(heap, RECORDS)?;
    let by_table = shown::<P, R, RecordTable<P>>(heap, plan, &mut table)?;
    let mut octets = vec![in heap; 0u8; OCTETS]?;
    let mut card = CardOutlet::<P>::start(&mut octets);
    let by_card = shown::<P, R, CardOutlet<P>>(heap, plan, &mut card)?;
    if by_table.as_str() != by_card.as_str() {
        bail!("table and card differ{by_table}, but{by_card}");
    }
    Ok(by_table)
}
