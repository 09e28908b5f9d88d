//! Beginning a draft.
ghost use Rattle.std.specs.Prelude.{◌≡◌, pos, IfOk, []};
ghost use Rattle.leg.specs.Reasons.{First, refusal as why};
ghost use Rattle.outlet.specs.Outlets.{Contents};
ghost use Rattle.turn.specs.Calls.{begun};
ghost use Rattle.turn.specs.Whole.{Whole};
ghost use Rattle.planner.specs.Drafts.{begin_reasons, progress, setting};

use crate::draft::Draft;
use bezier::reduction::Reduction;
use curve::accuracy::Accuracy;
use distance::measure::Distance;
use std::marker::PhantomData;
use turn::refusal::Refusal;

/// What is agreed for a turn, in any numbers.
#[derive(Clone, Copy, PartialEq, Eq, Debug)]
pub struct Terms {
    /// How far a leg may be from the drawn curve, in grains.
    pub tolerance: i64,
    /// How often a curve may be halved.
    pub depth: i64,
    /// The last tick of the turn.
    pub end: i64,
}

/// Begins a draft: with no legs, no ticks laid and no end value.
pub fn begin<P: Distance, R: Reduction<P>>(terms: Terms) -> Result<Draft<P, R>, Refusal>
    ensures first { First (begin_reasons P.Distance.measure terms) (why result) }
    ensures agreed { IfOk result (λ d. (pos d.accuracy.tolerance ≡ terms.tolerance) × (pos d.accuracy.depth ≡ terms.depth) × (pos d.end ≡ terms.end)) }
    ensures empty { IfOk result (λ d. progress d ≡ begun) }
    ensures whole { IfOk result (λ d. (c : Contents P) → c.legs ≡ [] → Whole (setting P.Ordinate.kind P.Distance.measure R.Reduction.rule d) [] (progress d) c) }
{
    let accuracy = Accuracy::agreed::<P>(terms.tolerance, terms.depth)?;
    if !(1..=65_536).contains(&terms.end) {
        return Err(Refusal::End);
    }
    Ok(Draft {
        accuracy,
        end: terms.end as u32,
        count: 0,
        laid: 0,
        last: None,
        reduction: PhantomData,
    })
}
