//! A desk: what is needed to draw one curve of a kind after another, and to lay its legs.
ghost use Rattle.std.specs.Prelude.{◌^◌, ◌≤◌};

use crate::random::Generator;
use crate::totals::Totals;
use anyhow::{Context, bail};
use bezier::chord::Chord;
use bezier::matching::Matching;
use bezier::reduction::Reduction;
use curve::accuracy::Accuracy;
use curve::legs::put;
use curve::limits::{MOST_LEGS, MOST_POINTS, MOST_WORK};
use curve::refusal::CurveRefusal;
use curve::span::Span;
use distance::measure::Distance;
use outlet::outlet::Outlet;
use outlet::table::RecordTable;
use std::alloc::{AllocError, Global};

/// A degree that the reduction takes.
fn draw_degree<P: Distance, R: Reduction<P>>(random: &mut Generator) -> usize
    ensures { result ≤ 8 }
{
    let lowest = R::lowest();
    lowest + random.below((MOST_POINTS - lowest) as u64) as usize
}

/// A power of two from 2^6 to 2^31.
fn draw_size(random: &mut Generator) -> u32
    ensures some { 1 ≤ result }
    ensures few { result ≤ 2 ^ 31 }
{
    1 << (6 + random.below(26))
}

fn draw_accuracy<P: Distance>(
    random: &mut Generator,
    depth: u64,
    size: u32,
) -> Result<Accuracy, CurveRefusal>
    requires { depth ≤ 10 }
{
    let tolerance = size >> random.below(2 * depth + 3);
    Accuracy::agreed::<P>(tolerance.max(1) as i64, depth as i64)
}

/// Each coordinate is drawn from -`size` to `size`.
fn draw_point<P: Distance>(random: &mut Generator, size: u32) -> P
    requires { size ≤ 2 ^ 31 }
{
    let size = size as u64;
    let mut point = P::zero();
    // by index, as a point is no slice of its coordinates
    for i in 0..P::dimension() {
        let coordinate = random.below(2 * size + 1) as i64 - size as i64;
        point = point.with_coordinate(i, coordinate);
    }
    point
}

/// The points and the table of the curve before, used again for the next.
#[derive(Drop)]
pub struct Desk<P> {
    points: Vec<P>,
    work: Vec<P>,
    span: Span,
    table: RecordTable<P>,
}

impl<P: Distance + Drop> Desk<P> {
    pub fn new(heap: Global, span: Span) -> Result<Desk<P>, AllocError> {
        Ok(Desk {
            points: Vec::with_capacity(heap, MOST_POINTS)?,
            work: vec![in heap; P::zero(); MOST_WORK]?,
            span,
            table: RecordTable::<P>::start(heap, MOST_LEGS)?,
        })
    }

    fn draw_points(
        &mut self,
        random: &mut Generator,
        degree: usize,
        size: u32,
    ) -> Result<(), AllocError>
        requires { size ≤ 2 ^ 31 }
    {
        self.points.clear();
        // so many times: there is no list
        for _ in 0..=degree {
            self.points.push(draw_point::<P>(random, size))?;
        }
        Ok(())
    }

    fn lay<R: Reduction<P>>(
        &mut self,
        random: &mut Generator,
        totals: &mut Totals,
    ) -> anyhow::Result<()> {
        let degree = draw_degree::<P, R>(random);
        let depth = random.below(11);
        let size = draw_size(random);
        let accuracy = draw_accuracy::<P>(random, depth, size)
            .ok()
            .context("a drawn accuracy is refused")?;
        self.draw_points(random, degree, size)?;
        self.table.keep(0);
        match put::<P, R, RecordTable<P>>(
            &self.points,
            accuracy,
            self.span,
            &mut self.work,
            &mut self.table,
        ) {
            Ok(tally) => totals.add(tally, self.table.records()),
            Err(CurveRefusal::TooBent) => totals.add_too_bent(),
            Err(_) => bail!("a drawn curve is refused, and not as too bent"),
        }
        Ok(())
    }

    /// Draws the next curve of this kind, and lays its legs.
    pub fn lay_next(&mut self, random: &mut Generator, totals: &mut Totals) -> anyhow::Result<()> {
        if random.below(2) == 0 {
            self.lay::<Chord>(random, totals)
        } else {
            self.lay::<Matching>(random, totals)
        }
    }
}
