//! Laying a span.
ghost use Rattle.std.specs.Prelude.{◌≡◌, ℕ, T, ◌∷◌, length, pos, Err, IfErr, IfOk, false, Some as Just};
ghost use Rattle.leg.specs.Reasons.{First, refusal as why};
ghost use Rattle.curve.specs.Refusals.{work_wanted};
ghost use Rattle.turn.specs.Calls.{History};
ghost use Rattle.turn.specs.Calls.Call.{lay as the_lay};
ghost use Rattle.turn.specs.Outcomes.{Outcome};
ghost use Rattle.turn.specs.Reasons.{Continues, facing, reasons};
ghost use Rattle.turn.specs.Whole.{Whole};
ghost use Rattle.planner.specs.Drafts.{HandsBack, answer, halving_begun, left, progress, setting, work_left};
ghost use Rattle.planner.specs.Steps.{Fits, Puts};

use crate::draft::{Draft, Refused};
use bezier::reduction::Reduction;
use curve::legs::put;
use curve::points::check_points;
use curve::span::Span;
use distance::measure::Distance;
use outlet::outlet::Outlet;
use turn::refusal::Refusal;

/// The most ticks that a span may last.
const MOST_TICKS: i64 = 4_096;

impl<P: Distance, R: Reduction<P>> Draft<P, R> {
    /// The span of so many ticks at the end of the draft, where these points may be drawn over it.
    fn next_span<O: Outlet<P>>(
        &self,
        outlet: &mut O,
        points: &[P],
        ticks: i64,
    ) -> Result<Span, Refusal>
        ensures same { O.Outlet.contents outlet.new ≡ O.Outlet.contents outlet.old }
        ensures refused { IfErr result (λ f. (halving_begun (Err f) ≡ false) × ((work : ℕ) → First (reasons (setting P.Ordinate.kind P.Distance.measure R.Reduction.rule self.now) (facing (setting P.Ordinate.kind P.Distance.measure R.Reduction.rule self.now) (progress self.now) (O.Outlet.contents outlet.old)) (the_lay points.now ticks work)) (Just f))) }
        ensures fits { IfOk result (λ s. Fits (setting P.Ordinate.kind P.Distance.measure R.Reduction.rule self.now) (progress self.now) (O.Outlet.contents outlet.old) points.now s × (pos s.ticks ≡ ticks)) }
    {
        if outlet.count() != self.count {
            return Err(Refusal::Foreign);
        }
        check_points::<P, R>(points)?;
        if !(1..=MOST_TICKS).contains(&ticks) {
            return Err(Refusal::Ticks);
        }
        if ticks > (self.end - self.laid) as i64 {
            return Err(Refusal::PastEnd);
        }
        Ok(Span::new(self.laid, ticks as u32).unwrap())
    }

    /// Whether a span may start at this point: at the one that ends the last leg, where there is one.
    fn continues_at(&self, point: P) -> bool
        ensures yes { T result → Continues self.now.last point }
        ensures no { Continues self.now.last point → T result }
    {
        self.last.is_none_or(|last| point == last)
    }

    /// Puts the legs of the curve over the span, where it goes on from the point that ends the last leg.
    fn put_span<O: Outlet<P>>(
        &self,
        outlet: &mut O,
        points: &[P],
        span: Span,
        work: &mut [P],
    ) -> Result<(), Refusal>
        requires fits { Fits (setting P.Ordinate.kind P.Distance.measure R.Reduction.rule self.now) (progress self.now) (O.Outlet.contents outlet.old) points.now span }
        ensures first { First (reasons (setting P.Ordinate.kind P.Distance.measure R.Reduction.rule self.now) (facing (setting P.Ordinate.kind P.Distance.measure R.Reduction.rule self.now) (progress self.now) (O.Outlet.contents outlet.old)) (the_lay points.now (pos span.ticks) (length work.old))) (why result) }
        ensures puts { Puts (setting P.Ordinate.kind P.Distance.measure R.Reduction.rule self.now) points.now span result (O.Outlet.contents outlet.old) (O.Outlet.contents outlet.new) }
        ensures work { work.new ≡ work_left P.Ordinate.kind result (work_wanted P.Ordinate.kind P.Distance.measure R.Reduction.rule self.now.accuracy.depth points.now) work.old }
    {
        if !self.continues_at(points[0]) {
            return Err(Refusal::Apart);
        }
        put::<P, R, O>(points, self.accuracy, span, work, outlet)?;
        Ok(())
    }

    /// Lays a span: puts the legs of the curve of these points, over so many ticks, at the end of the draft. The work points are lent: those that are used, as many as the points for each depth from 0 to the agreed one, are left at zero.
    #[inline]
    pub fn lay<O: Outlet<P>>(
        self,
        outlet: &mut O,
        points: &[P],
        ticks: i64,
        work: &mut [P],
    ) -> Result<Draft<P, R>, Refused<P, R>>
        ensures outcome { Outcome (setting P.Ordinate.kind P.Distance.measure R.Reduction.rule self) (the_lay points.now ticks (length work.old)) (progress self) (O.Outlet.contents outlet.old) (answer result) (progress (left result)) (O.Outlet.contents outlet.new) }
        ensures keeps { (h : History P) → Whole (setting P.Ordinate.kind P.Distance.measure R.Reduction.rule self) h (progress self) (O.Outlet.contents outlet.old)
            → Whole (setting P.Ordinate.kind P.Distance.measure R.Reduction.rule self) ((the_lay points.now ticks (length work.old), answer result) ∷ h) (progress (left result)) (O.Outlet.contents outlet.new) }
        ensures same { HandsBack self result }
        ensures work { work.new ≡ work_left P.Ordinate.kind (answer result) (work_wanted P.Ordinate.kind P.Distance.measure R.Reduction.rule self.accuracy.depth points.now) work.old }
    {
        // `?` would drop the draft
        let span = match self.next_span::<O>(outlet, points, ticks) {
            Ok(span) => span,
            Err(refusal) => return Err(self.refused(refusal)),
        };
        // `?` would drop the draft
        if let Err(refusal) = self.put_span::<O>(outlet, points, span, work) {
            return Err(self.refused(refusal));
        }
        Ok(Draft {
            accuracy: self.accuracy,
            end: self.end,
            count: outlet.count(),
            laid: self.laid + span.ticks(),
            last: points.last().copied(),
            reduction: self.reduction,
        })
    }
}
