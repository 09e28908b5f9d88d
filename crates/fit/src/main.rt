//! fit: draws one curve, and prints the legs that it takes, or why it is refused.
#![tactic(auto)]

mod drawing;
mod request;

use crate::drawing::Drawing;
use crate::request::Request;
use anyhow::Context;
use bezier::chord::Chord;
use bezier::matching::Matching;
use bezier::reduction::Reduction;
use curve::accuracy::Accuracy;
use curve::legs::put;
use curve::limits::{MOST_LEGS, MOST_WORK};
use curve::refusal::CurveRefusal;
use curve::span::Span;
use curve::tally::Tally;
use distance::measure::Distance;
use leg::leg::{Cell, Leg};
use ordinate::branches::Branches;
use ordinate::flow::Flow;
use outlet::table::RecordTable;
use plan_text::form::{Kind, Legs};
use program::exit_code;
use std::env;
use std::fmt::Display;
use std::process::ExitCode;

const USAGE: &str = "usage: fit KIND REDUCTION TOLERANCE DEPTH [COORDINATE...]
Prints the legs that a curve takes: KIND is flow or box, REDUCTION is chord or
matching. A point of a flow has one coordinate, a point of a box two, left before
right.";

fn plural(number: usize) -> &'static str {
    if number == 1 { "" } else { "s" }
}

fn print_leg<P: Distance + Display>(rt: &HostRuntime, leg: &Leg<P>) -> anyhow::Result<()> {
    let Cell { depth, index } = leg.stretch.cell;
    let degree = leg.degree;
    if degree == 1 {
        println!(rt;
            "cell {depth} {index}: degree {degree}, {} to {}",
            leg.start, leg.end
        )?;
    } else {
        println!(rt;
            "cell {depth} {index}: degree {degree}, {} by {} to {}",
            leg.start, leg.middle, leg.end
        )?;
    }
    Ok(())
}

fn print_legs<P: Distance + Display>(
    rt: &HostRuntime,
    table: &RecordTable<P>,
    tally: Tally,
) -> anyhow::Result<()> {
    for leg in table.records().iter().take(tally.legs) {
        print_leg(rt, leg)?;
    }
    let Tally { legs, cells } = tally;
    println!(rt;
        "{legs} leg{}, {cells} cell{} tested",
        plural(legs),
        plural(cells)
    )?;
    Ok(())
}

/// Puts the legs of the curve into the table. The span does not matter: no tick is printed.
fn put_legs<P: Distance, R: Reduction<P>>(
    points: &[P],
    drawing: &Drawing,
    span: Span,
    work: &mut [P],
    table: &mut RecordTable<P>,
) -> Result<Tally, CurveRefusal> {
    let accuracy = Accuracy::agreed::<P>(drawing.tolerance, drawing.depth)?;
    put::<P, R, RecordTable<P>>(points, accuracy, span, work, table)
}

/// Prints the legs of the curve, or why it is refused; whether it was accepted.
fn fit<P: Distance + Display + Drop, R: Reduction<P>>(
    rt: &HostRuntime,
    points: &[P],
    drawing: &Drawing,
) -> anyhow::Result<bool> {
    let span = Span::new(0, 1).context("a span of one tick cannot be had")?;
    let mut work = vec![in rt.alloc(); P::zero(); MOST_WORK]?;
    let mut table = RecordTable::<P>::start(rt.alloc(), MOST_LEGS)?;
    match put_legs::<P, R>(points, drawing, span, &mut work, &mut table) {
        Ok(tally) => {
            print_legs(rt, &table, tally)?;
            Ok(true)
        }
        Err(refusal) => {
            println!(rt; "{refusal}")?;
            Ok(false)
        }
    }
}

/// The same by the reduction that is asked for.
fn fit_by<P: Distance + Display + Drop>(
    rt: &HostRuntime,
    points: &[P],
    drawing: &Drawing,
) -> anyhow::Result<bool> {
    match drawing.legs {
        Legs::Chord => fit::<P, Chord>(rt, points, drawing),
        Legs::Matching => fit::<P, Matching>(rt, points, drawing),
    }
}

fn run(rt: &HostRuntime) -> anyhow::Result<bool> {
    match Request::from_args(rt.alloc(), env::args(rt)?)? {
        Request::Help => {
            println!(rt; "{USAGE}")?;
            Ok(true)
        }
        Request::Fit(drawing) => match drawing.kind {
            Kind::Flow => fit_by::<Flow>(rt, &drawing.points(rt.alloc())?, &drawing),
            Kind::Box => fit_by::<Branches>(rt, &drawing.points(rt.alloc())?, &drawing),
        },
    }
}

fn main(rt: HostRuntime) -> ExitCode {
    exit_code(&rt, "fit", run(&rt))
}
