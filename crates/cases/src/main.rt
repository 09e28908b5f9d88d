//! cases: performs the turns that were worked by hand, and prints what each comes to.
#![tactic(auto)]

mod planned;
mod worked;

use crate::planned::{Plan, shown_by_both};
use crate::worked::worked_cases_hold;
use bezier::chord::Chord;
use bezier::matching::Matching;
use bezier::reduction::Reduction;
use curve::limits::MOST_WORK;
use distance::measure::Distance;
use distance::points::halved;
use ordinate::branches::Branches;
use ordinate::flow::Flow;
use plan_text::print::{LINE_ROOM, print_sealed};
use planner::begin::Terms;
use std::alloc::{AllocError, Global};
use std::fmt::Display;
use turn::call::Call;

/// The ticks of each turn.
const TICKS: [i64; 5] = [0, 1, 2, 3, 4];

/// What is agreed for a turn of four ticks.
fn within(tolerance: i64, depth: i64) -> Terms {
    Terms {
        tolerance,
        depth,
        end: 4,
    }
}

/// The points of a flow's curve.
fn flows(heap: Global, values: &[i64]) -> Result<Vec<Flow>, AllocError> {
    values
        .iter()
        .map(|value| Flow { value: *value })
        .collect(heap)
}

/// The span of these points, over all four ticks of the turn.
fn lay<'a, P>(points: &'a [P], work: usize) -> Call<'a, P> {
    Call::Lay {
        points,
        ticks: 4,
        work,
    }
}

/// Plans the turn, and prints it as in `flow matching 10 1: 0 0 0 64; ..`.
fn print_plan<P: Distance + Display, R: Reduction<P>>(
    rt: &HostRuntime,
    name: &str,
    points: &[P],
    plan: Plan<'_, P>,
) -> anyhow::Result<()> {
    let Terms {
        tolerance,
        depth,
        ..
    } = plan.terms;
    let mut text = format!(in rt.alloc(); "{name} {tolerance} {depth}:")?;
    for point in points {
        write!(text, " {point}")?;
    }
    let shown = shown_by_both::<P, R>(rt.alloc(), plan)?;
    println!(rt; "{text}{shown}")?;
    Ok(())
}

/// The turn that is laid and sealed.
fn print_turn<P: Distance + Display, R: Reduction<P>>(
    rt: &HostRuntime,
    name: &str,
    terms: Terms,
    points: &[P],
) -> anyhow::Result<()> {
    let calls = [lay(points, MOST_WORK), Call::Seal];
    let plan = Plan {
        terms,
        calls: &calls,
        ticks: &TICKS,
    };
    print_plan::<P, R>(rt, name, points, plan)
}

/// The first turn, which is also asked for ticks that it has not, and laid with just enough work points, and with too few.
fn print_rise(rt: &HostRuntime, rise: &[Flow]) -> anyhow::Result<()> {
    let calls = [lay(rise, MOST_WORK), Call::Seal];
    let plan = Plan {
        terms: within(10, 1),
        calls: &calls,
        ticks: &[0, 1, 2, 3, 4, 5, -1],
    };
    print_plan::<Flow, Matching>(rt, "flow matching", rise, plan)?;
    for work in [8, 7] {
        let calls = [lay(rise, work)];
        let plan = Plan {
            terms: within(10, 1),
            calls: &calls,
            ticks: &[],
        };
        print_plan::<Flow, Matching>(rt, "flow matching", rise, plan)?;
    }
    print_turn::<Flow, Matching>(rt, "flow matching", within(11, 1), rise)
}

/// Where nothing is laid, nothing can be struck, and the turn is not full.
fn print_hill(rt: &HostRuntime, hill: &[Flow]) -> anyhow::Result<()> {
    print_turn::<Flow, Chord>(rt, "flow chord", within(17, 1), hill)?;
    let calls = [lay(hill, MOST_WORK), Call::Strike, Call::Seal];
    let plan = Plan {
        terms: within(16, 1),
        calls: &calls,
        ticks: &TICKS,
    };
    print_plan::<Flow, Chord>(rt, "flow chord", hill, plan)?;
    print_turn::<Flow, Chord>(rt, "flow chord", within(16, 2), hill)
}

fn print_flows(rt: &HostRuntime) -> anyhow::Result<()> {
    let rise = flows(rt.alloc(), &[0, 0, 0, 64])?;
    let hill = flows(rt.alloc(), &[0, 64, 0])?;
    let ridge = flows(rt.alloc(), &[0, 64, 0, 0])?;
    let step = flows(rt.alloc(), &[0, 0, 0, 1])?;
    print_rise(rt, &rise)?;
    print_hill(rt, &hill)?;
    print_turn::<Flow, Chord>(rt, "flow chord", within(17, 2), &ridge)?;
    print_turn::<Flow, Matching>(rt, "flow matching", within(1, 0), &hill)?;
    print_turn::<Flow, Matching>(rt, "flow matching", within(1, 0), &step)
}

fn print_boxes(rt: &HostRuntime) -> anyhow::Result<()> {
    let zero = Branches { left: 0, right: 0 };
    let top = Branches {
        left: 64,
        right: 64,
    };
    let hill = [zero, top, zero];
    print_turn::<Branches, Chord>(rt, "box chord", within(128, 0), &hill)?;
    print_turn::<Branches, Chord>(rt, "box chord", within(127, 0), &hill)
}

fn print_halving(rt: &HostRuntime, a: i64, b: i64) -> anyhow::Result<()> {
    let half = halved(Flow { value: a }, Flow { value: b });
    println!(rt; "halving of {a} and {b}: {half}")?;
    Ok(())
}

/// Points at the limit and just beyond it.
fn print_limits(rt: &HostRuntime) -> anyhow::Result<()> {
    let at_limit = flows(rt.alloc(), &[0, 2_147_483_648])?;
    let past_limit = flows(rt.alloc(), &[0, 2_147_483_649])?;
    print_turn::<Flow, Chord>(rt, "flow chord", within(1, 0), &at_limit)?;
    print_turn::<Flow, Chord>(rt, "flow chord", within(1, 0), &past_limit)
}

/// A line printed into so many octets: it is refused where they are too few for any line.
fn print_into(rt: &HostRuntime, octets: usize) -> anyhow::Result<()> {
    let mut buffer = vec![in rt.alloc(); 0u8; octets]?;
    match print_sealed(2, 4, &mut buffer) {
        Ok(length) => println!(rt; "a line into {octets} octets: {length} printed")?,
        Err(refusal) => println!(rt; "a line into {octets} octets: {refusal}")?,
    }
    Ok(())
}

/// In the order of `worked` (specs/Cases.antt), and then what no case is about.
fn main(rt: HostRuntime) -> anyhow::Result<()> {
    print_flows(&rt)?;
    print_boxes(&rt)?;
    print_halving(&rt, -1, 0)?;
    print_halving(&rt, 0, 1)?;
    print_limits(&rt)?;
    print_into(&rt, LINE_ROOM - 1)?;
    print_into(&rt, LINE_ROOM)?;
    println!(rt; "table and card agree")?;
    println!(rt; "{} cases", worked_cases_hold())?;
    Ok(())
}
