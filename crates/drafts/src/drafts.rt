//! The player of a script: it makes one turn after another over the outlet that stands.
use crate::any_turn::AnyTurn;
use crate::calls::change;
use crate::line::Line;
use anyhow::Context;
use distance::measure::Distance;
use outlet::outlet::Outlet;
use script::player::Player;
use std::alloc::Global;

#[derive(Drop)]
pub struct Drafts<P> {
    /// Nothing where no draft is begun, or the last was refused.
    turn: Option<AnyTurn<P>>,
}

impl<P: Distance> Player<P> for Drafts<P> {
    type Line = Line<P>;

    fn new() -> Drafts<P> {
        Drafts { turn: None }
    }

    fn read(heap: Global, line: &str) -> anyhow::Result<Line<P>> {
        Line::from_text(heap, line)
    }

    fn play<O: Outlet<P>>(
        &mut self,
        rt: &HostRuntime,
        outlet: &mut O,
        line: Line<P>,
    ) -> anyhow::Result<()> {
        match line {
            Line::Begin(begin) => self.turn = AnyTurn::begin(rt, begin)?,
            Line::Call(call) => {
                let turn = self.turn.take().context("no draft is begun")?;
                self.turn = Some(turn.make::<O>(rt, outlet, call)?);
            }
            Line::Change(by_other) => change::<P, O>(rt, outlet, by_other)?,
        }
        Ok(())
    }
}
