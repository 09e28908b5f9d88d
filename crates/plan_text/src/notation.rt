//! How the points of a kind are typed and printed.
ghost use Rattle.std.specs.Prelude.{◌≡◌, ◌≢◌, MatchOption};
ghost use Rattle.plan_text.specs.declared.form.At.{At as AtT};
ghost use Rattle.plan_text.specs.Notations.{numbers_of, coordinates_of, HasFewDigitsEach};

use crate::form::At;
use ordinate::kind::Ordinate;

/// A kind whose points are typed as an `at`.
pub trait Notation: Ordinate {
    ghost at: { Self → AtT };

    /// The coordinates of this point.
    fn to_at(self) -> At
        ensures { result ≡ at self };

    /// The point that has these coordinates; nothing where they are not as many as the kind has.
    fn from_at(numbers: At) -> Option<Self>
        ensures { MatchOption result ((p : Self) → at p ≢ numbers) (λ p. at p ≡ numbers) };

    ghost same: { (p : Self) → numbers_of (at p) ≡ coordinates_of Self.kind p };

    ghost few: { HasFewDigitsEach Self.kind };
}
