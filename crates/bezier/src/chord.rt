//! The chord: the straight leg from the first point to the last.
ghost use Rattle.bezier.specs.Reductions.{chord as the_chord};
ghost use Rattle.bezier.specs.Laws.Reductions.{chord_lawful};

use crate::degree::Degree;
use crate::reduction::Reduction;
use distance::measure::Distance;

#[derive(Clone, Copy)]
pub struct Chord {}

impl<P: Distance> Reduction<P> for Chord {
    ghost rule = { the_chord P.Ordinate.kind };

    ghost lawful = { chord_lawful P.Ordinate.kind P.Distance.measure };

    fn degree() -> Degree {
        Degree::One
    }

    fn lowest() -> usize {
        1
    }

    fn middle(points: &[P]) -> P {
        points.first().copied().unwrap_or(P::zero())
    }
}
