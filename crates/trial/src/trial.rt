//! The calls on an outlet, and their answers in print.
use crate::line::Call;
use card_writer::write::write;
use leg::leg::Leg;
use ordinate::kind::Ordinate;
use outlet::outlet::Outlet;
use script::player::Player;
use script::shown::{hex_text, leg_text};
use script::work::used_octets;
use std::alloc::{AllocError, Global};

/// The legs that the outlet holds. It is asked for one after another, since it may be a device.
fn legs_of<P: Ordinate, O: Outlet<P>>(
    heap: Global,
    outlet: &mut O,
) -> Result<Vec<Leg<P>>, AllocError> {
    let mut legs = Vec::new(heap);
    for i in 0..outlet.count() {
        if let Some(leg) = outlet.get(i) {
            legs.push(leg)?;
        }
    }
    Ok(legs)
}

/// Writes the outlet's legs to a fresh card of so many octets, and prints that card.
fn rewrite<P: Ordinate, O: Outlet<P>>(
    rt: &HostRuntime,
    outlet: &mut O,
    size: usize,
) -> anyhow::Result<()> {
    let legs = legs_of::<P, O>(rt.alloc(), outlet)?;
    let mut octets = used_octets(rt.alloc(), size)?;
    match write(&legs, &mut octets) {
        Ok(()) => println!(rt; "written {}", hex_text(rt.alloc(), &octets)?)?,
        Err(refusal) => println!(rt; "{}", refusal.why)?,
    }
    Ok(())
}

/// Makes the calls as they are; it remembers nothing.
#[derive(Drop)]
pub struct Trial;

impl<P: Ordinate> Player<P> for Trial {
    type Line = Call<P>;

    fn new() -> Trial {
        Trial
    }

    fn read(_heap: Global, line: &str) -> anyhow::Result<Call<P>> {
        Call::from_text(line)
    }

    fn play<O: Outlet<P>>(
        &mut self,
        rt: &HostRuntime,
        outlet: &mut O,
        call: Call<P>,
    ) -> anyhow::Result<()> {
        match call {
            Call::Put(leg) => match outlet.put(&leg) {
                Ok(()) => println!(rt; "put")?,
                Err(refusal) => println!(rt; "{refusal}")?,
            },
            Call::Keep(n) => {
                outlet.keep(n);
                println!(rt; "kept")?;
            }
            Call::Get(i) => match outlet.get(i) {
                Some(leg) => println!(rt; "leg {}", leg_text(rt.alloc(), &leg)?)?,
                None => println!(rt; "nothing")?,
            },
            Call::Rewrite(size) => rewrite::<P, O>(rt, outlet, size)?,
        }
        Ok(())
    }
}
