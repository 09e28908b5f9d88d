//! The turn that a script makes, by either reduction.
use crate::calls::{make, print_refusal};
use crate::line::{Begin, Call};
use bezier::chord::Chord;
use bezier::matching::Matching;
use bezier::reduction::Reduction;
use distance::measure::Distance;
use outlet::outlet::Outlet;
use plan_text::form::Legs;
use planner::begin::{Terms, begin};
use planner::run::Turn;

#[derive(Drop)]
pub enum AnyTurn<P> {
    Chord(Turn<P, Chord>),
    Matching(Turn<P, Matching>),
}

/// Begins a draft, and prints the answer; nothing where it is refused.
fn begin_draft<P: Distance, R: Reduction<P>>(
    rt: &HostRuntime,
    terms: Terms,
) -> anyhow::Result<Option<Turn<P, R>>> {
    match begin::<P, R>(terms) {
        Ok(draft) => {
            println!(rt; "begun")?;
            Ok(Some(Turn::Draft(draft)))
        }
        Err(refusal) => {
            print_refusal(rt, refusal)?;
            Ok(None)
        }
    }
}

impl<P: Distance> AnyTurn<P> {
    /// Begins a draft, and prints the answer; nothing where it is refused.
    pub fn begin(rt: &HostRuntime, line: Begin) -> anyhow::Result<Option<AnyTurn<P>>> {
        match line.legs {
            Legs::Chord => Ok(begin_draft(rt, line.terms)?.map(AnyTurn::Chord)),
            Legs::Matching => Ok(begin_draft(rt, line.terms)?.map(AnyTurn::Matching)),
        }
    }

    /// Makes the call, and prints its answer.
    pub fn make<O: Outlet<P>>(
        self,
        rt: &HostRuntime,
        outlet: &mut O,
        call: Call<P>,
    ) -> anyhow::Result<AnyTurn<P>> {
        match self {
            AnyTurn::Chord(turn) => {
                Ok(AnyTurn::Chord(make::<P, Chord, O>(rt, turn, outlet, call)?))
            }
            AnyTurn::Matching(turn) => {
                Ok(AnyTurn::Matching(make::<P, Matching, O>(rt, turn, outlet, call)?))
            }
        }
    }
}
