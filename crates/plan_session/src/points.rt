//! The points that are typed for a span.
ghost use Rattle.std.specs.Prelude.{◌≡◌, ◌≢◌, List, map, IfOk, MatchOption};

use ordinate::kind::Ordinate;
use plan_text::form::At;
use plan_text::notation::Notation;
use std::alloc::{AllocError, Global};

/// The points of this kind that are typed so; nothing where one of them is unlike the kind.
pub(crate) fn points_of<P: Notation>(
    alloc: Global,
    numbers: &[At],
) -> Result<Option<Vec<P>>, AllocError>
    ensures { IfOk result (λ points. MatchOption points ((ps : List P) → map P.at ps ≢ numbers.now) (λ v. map P.at v.items ≡ numbers.now)) }
{
    // A loop, since nothing is promised of items that are collected into an `Option`.
    let mut points = Vec::with_capacity(alloc, numbers.len())?;
    for at in numbers {
        let Some(point) = P::from_at(*at) else {
            return Ok(None);
        };
        points.push(point)?;
    }
    Ok(Some(points))
}
