//! The calls, and their answers in print.
use crate::line::{Call, Change};
use anyhow::bail;
use bezier::reduction::Reduction;
use distance::measure::Distance;
use outlet::outlet::Outlet;
use planner::draft::Draft;
use planner::run::Turn;
use planner::sealed::Sealed;
use script::shown::{add_point, leg_text};
use std::alloc::{AllocError, Global};
use turn::call;
use turn::refusal::Refusal;

/// As in `refused 11`, and `refused 6 at point 3`.
pub fn print_refusal(rt: &HostRuntime, refusal: Refusal) -> anyhow::Result<()> {
    match refusal.point() {
        Some(point) => println!(rt; "refused {} at point {point}", refusal.number())?,
        None => println!(rt; "refused {}", refusal.number())?,
    }
    Ok(())
}

/// Work points as they may be lent: none of them zero, so that any that are not used are seen.
fn used_points<P: Distance>(heap: Global, n: usize) -> Result<Vec<P>, AllocError> {
    let mut point = P::zero();
    // by index, as a point is no slice of its coordinates
    for i in 0..P::dimension() {
        point = point.with_coordinate(i, -77);
    }
    vec![in heap; point; n]
}

fn print_work<P: Distance>(rt: &HostRuntime, work: &[P]) -> anyhow::Result<()> {
    let mut text = String::new(rt.alloc());
    text.push_str("work")?;
    for point in work {
        add_point(&mut text, *point)?;
    }
    println!(rt; "{text}")?;
    Ok(())
}

/// Makes the call with these work points lent, and prints its answer.
fn make_call<P: Distance, R: Reduction<P>, O: Outlet<P>>(
    rt: &HostRuntime,
    draft: Draft<P, R>,
    outlet: &mut O,
    call: &call::Call<'_, P>,
    work: &mut [P],
) -> anyhow::Result<Turn<P, R>> {
    let (turn, answer) = draft.make::<O>(outlet, call, work);
    match answer {
        Ok(()) => println!(rt; "accepted")?,
        Err(refusal) => print_refusal(rt, refusal)?,
    }
    Ok(turn)
}

/// A lay is followed by the work points as they are left.
fn make_on_draft<P: Distance, R: Reduction<P>, O: Outlet<P>>(
    rt: &HostRuntime,
    draft: Draft<P, R>,
    outlet: &mut O,
    call: Call<P>,
) -> anyhow::Result<Turn<P, R>> {
    match call {
        Call::Lay(drawn) => {
            let mut work = used_points::<P>(rt.alloc(), drawn.work)?;
            let lay = call::Call::Lay {
                points: &drawn.points,
                ticks: drawn.ticks,
                work: drawn.work,
            };
            let turn = make_call::<P, R, O>(rt, draft, outlet, &lay, &mut work)?;
            print_work(rt, &work)?;
            Ok(turn)
        }
        Call::Strike => make_call::<P, R, O>(rt, draft, outlet, &call::Call::Strike, &mut []),
        Call::Seal => make_call::<P, R, O>(rt, draft, outlet, &call::Call::Seal, &mut []),
        Call::Tell(_) | Call::List(_) => bail!("a draft is neither told nor listed"),
    }
}

fn make_on_sealed<P: Distance, R: Reduction<P>, O: Outlet<P>>(
    rt: &HostRuntime,
    sealed: &Sealed<P, R>,
    outlet: &mut O,
    call: Call<P>,
) -> anyhow::Result<()> {
    match call {
        Call::Tell(tick) => match sealed.tell::<O>(outlet, tick) {
            Ok(point) => {
                let mut text = String::new(rt.alloc());
                add_point(&mut text, point)?;
                println!(rt; "value{text}")?;
            }
            Err(refusal) => print_refusal(rt, refusal)?,
        },
        Call::List(i) => match sealed.list::<O>(outlet, i) {
            Ok(Some(leg)) => println!(rt; "leg {}", leg_text(rt.alloc(), &leg)?)?,
            Ok(None) => println!(rt; "nothing")?,
            Err(refusal) => print_refusal(rt, refusal)?,
        },
        Call::Lay(_) | Call::Strike | Call::Seal => bail!("the turn is sealed"),
    }
    Ok(())
}

/// Makes the call, and prints its answer. A call that the turn does not have is an error.
pub fn make<P: Distance, R: Reduction<P>, O: Outlet<P>>(
    rt: &HostRuntime,
    turn: Turn<P, R>,
    outlet: &mut O,
    call: Call<P>,
) -> anyhow::Result<Turn<P, R>> {
    match turn {
        Turn::Draft(draft) => make_on_draft::<P, R, O>(rt, draft, outlet, call),
        Turn::Sealed(sealed) => {
            make_on_sealed::<P, R, O>(rt, &sealed, outlet, call)?;
            Ok(Turn::Sealed(sealed))
        }
    }
}

/// Changes the outlet, as somebody else may.
pub fn change<P: Distance, O: Outlet<P>>(
    rt: &HostRuntime,
    outlet: &mut O,
    change: Change<P>,
) -> anyhow::Result<()> {
    match change {
        Change::Put(leg) => match outlet.put(&leg) {
            Ok(()) => println!(rt; "put")?,
            Err(refusal) => println!(rt; "refused {}", refusal.number())?,
        },
        Change::Keep(n) => {
            outlet.keep(n);
            println!(rt; "kept")?;
        }
    }
    Ok(())
}
