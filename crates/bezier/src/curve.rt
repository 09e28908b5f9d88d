//! The points of one curve.
ghost use Rattle.std.specs.Prelude.{◌≡◌, ◌<◌, ◌≤◌, ◌⊎◌, length, MatchOption};
ghost use Rattle.distance.specs.Measures.{point};
ghost use Rattle.bezier.specs.Bernstein.{degree_of};

use distance::measure::Distance;

/// From two to nine points: one more than the degree of the curve.
#[derive(Drop)]
pub(crate) struct Curve<'a, P> {
    pub(crate) points: &'a [P],
    ghost some: { 2 ≤ length points.now },
    ghost few: { length points.now ≤ 9 },
}

impl<'a, P: Distance> Curve<'a, P> {
    /// Nothing for fewer points and for more.
    pub(crate) fn of(points: &'a [P]) -> Option<Curve<'a, P>>
        ensures { MatchOption result ((length points.now < 2) ⊎ (9 < length points.now)) (λ c. c.points.now ≡ points.now) }
    {
        let count = points.len();
        if count < 2 || count > 9 {
            return None;
        }
        Some(Curve { points })
    }

    pub(crate) fn degree(&self) -> u8
        ensures { result ≡ degree_of P.Ordinate.kind self.now.points.now }
    {
        self.points.len() as u8 - 1
    }

    pub(crate) fn first(&self) -> P
        ensures { result ≡ point P.Ordinate.kind self.now.points.now 0 }
    {
        self.points[0]
    }

    pub(crate) fn last(&self) -> P
        ensures { result ≡ point P.Ordinate.kind self.now.points.now (degree_of P.Ordinate.kind self.now.points.now) }
    {
        self.points[self.points.len() - 1]
    }
}
