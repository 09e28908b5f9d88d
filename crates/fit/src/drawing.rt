//! A curve as the arguments draw it.
use distance::measure::Distance;
use plan_text::form::{Kind, Legs};
use std::alloc::{AllocError, Global};

#[derive(Drop)]
pub struct Drawing {
    pub kind: Kind,
    /// The legs that are tried for the cells of the curve.
    pub legs: Legs,
    pub tolerance: i64,
    pub depth: i64,
    pub coordinates: Vec<i64>,
}

impl Drawing {
    /// The points, each of as many coordinates as the kind has.
    pub fn points<P: Distance>(&self, heap: Global) -> Result<Vec<P>, AllocError> {
        let mut points = Vec::new(heap);
        for point in self.coordinates.chunks_exact(P::dimension()) {
            let numbered = point.iter().enumerate();
            points.push(numbered.fold(P::zero(), |point, (i, x)| point.with_coordinate(i, *x)))?;
        }
        Ok(points)
    }
}
