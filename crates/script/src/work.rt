//! A script worked from its first line to its last: after each line the outlet's whole state is printed.
use crate::input::Input;
use crate::player::Player;
use crate::shown::Shown;
use crate::start::{Sort, Start};
use anyhow::{anyhow, bail};
use card_writer::card_outlet::CardOutlet;
use ordinate::branches::Branches;
use ordinate::flow::Flow;
use ordinate::kind::Ordinate;
use outlet::outlet::Outlet;
use outlet::table::RecordTable;
use plan_text::form::Kind;
use std::alloc::{AllocError, Global};

/// A line that starts an outlet, or one for the player of the outlet that stands.
#[derive(Drop)]
enum Line<L> {
    Start(Start),
    Call(L),
}

fn read<P: Ordinate, G: Player<P>>(heap: Global, text: &str) -> anyhow::Result<Line<G::Line>> {
    match Start::from_text(text)? {
        Some(start) => Ok(Line::Start(start)),
        None => Ok(Line::Call(G::read(heap, text)?)),
    }
}

/// Octets for a card, none of them 0, so that any that the card leaves unwritten is seen.
pub fn used_octets(heap: Global, n: usize) -> Result<Vec<u8>, AllocError> {
    vec![in heap; 0xa5u8; n]
}

fn tell_state<P: Ordinate, O: Outlet<P> + Shown>(
    rt: &HostRuntime,
    outlet: &mut O,
) -> anyhow::Result<()> {
    let count = outlet.count();
    let free = outlet.free();
    println!(rt; "{}", outlet.shown(rt.alloc(), count, free)?)?;
    Ok(())
}

/// Works a started outlet up to the line that starts the next, which is returned, or to the end of the script.
fn work<P: Ordinate, G: Player<P>, O: Outlet<P> + Shown + Drop>(
    rt: &HostRuntime,
    mut outlet: O,
    input: &mut Input,
) -> anyhow::Result<Option<Start>> {
    println!(rt; "started")?;
    tell_state::<P, O>(rt, &mut outlet)?;
    let mut player = G::new();
    for text in input {
        // In a `let` of its own, so that the text is let go before the line is acted on.
        let line = read::<P, G>(rt.alloc(), text?.as_str())?;
        match line {
            Line::Start(start) => return Ok(Some(start)),
            Line::Call(call) => player.play::<O>(rt, &mut outlet, call)?,
        }
        tell_state::<P, O>(rt, &mut outlet)?;
    }
    Ok(None)
}

/// Starts the outlet, and works it.
fn work_started<P: Ordinate, G: Player<P>>(
    rt: &HostRuntime,
    start: Start,
    input: &mut Input,
) -> anyhow::Result<Option<Start>> {
    match start.sort {
        Sort::Table => {
            let table = RecordTable::<P>::start(rt.alloc(), start.size)?;
            work::<P, G, RecordTable<P>>(rt, table, input)
        }
        Sort::Card => {
            let mut octets = used_octets(rt.alloc(), start.size)?;
            let card = CardOutlet::<P>::start(&mut octets);
            work::<P, G, CardOutlet<P>>(rt, card, input)
        }
    }
}

/// The first line, which must start an outlet.
fn first_start<F: Player<Flow>>(heap: Global, input: &mut Input) -> anyhow::Result<Option<Start>> {
    let Some(text) = input.next() else {
        return Ok(None);
    };
    match read::<Flow, F>(heap, text?.as_str())? {
        Line::Start(start) => Ok(Some(start)),
        Line::Call(_) => bail!("no outlet is started yet"),
    }
}

fn work_all<F: Player<Flow>, B: Player<Branches>>(
    rt: &HostRuntime,
    input: &mut Input,
) -> anyhow::Result<()> {
    let mut next = first_start::<F>(rt.alloc(), input)?;
    // counted, since nothing says how many lines an outlet leaves
    for _ in 0..u64::MAX {
        let Some(start) = next else {
            return Ok(());
        };
        next = match start.kind {
            Kind::Flow => work_started::<Flow, F>(rt, start, input)?,
            Kind::Box => work_started::<Branches, B>(rt, start, input)?,
        };
    }
    Ok(())
}

/// Works the script on standard input, with a player for each kind, and says at which line it went wrong.
pub fn work_script<F: Player<Flow>, B: Player<Branches>>(rt: &HostRuntime) -> anyhow::Result<()> {
    let mut input = Input::new(rt)?;
    work_all::<F, B>(rt, &mut input).map_err(|error| anyhow!("line {}: {error}", input.number()))
}
