//! The words of a line, which are separated by single spaces.
use anyhow::{Context, bail};
use leg::leg::{Cell, Leg, Stretch};
use ordinate::kind::Ordinate;
use std::alloc::Global;
use std::str::{FromStr, Split};

/// The words that are left of a line.
#[derive(Clone, Drop)]
pub struct Words<'a> {
    left: Split<'a, char>,
}

fn number_of<N: FromStr>(word: &str) -> anyhow::Result<N>
where
    N::Err: Drop,
{
    word.parse::<N>()
        .ok()
        .context(format_args!("'{word}' is no number that can stand here"))
}

impl<'a> Words<'a> {
    pub fn new(line: &'a str) -> Words<'a> {
        Words {
            left: line.split(' '),
        }
    }

    /// The next word; nothing at the end of the line.
    pub fn next_word(&mut self) -> Option<&'a str> {
        self.left.next()
    }

    pub fn number<N: FromStr>(&mut self) -> anyhow::Result<N>
    where
        N::Err: Drop,
    {
        number_of(self.left.next().context("there is a number too few")?)
    }

    pub fn point<P: Ordinate>(&mut self) -> anyhow::Result<P> {
        let mut point = P::zero();
        // by index, as a point is no slice of its coordinates
        for i in 0..P::dimension() {
            point = point.with_coordinate(i, self.number()?);
        }
        Ok(point)
    }

    /// The points that the rest of the line is.
    pub fn points<P: Ordinate>(&mut self, heap: Global) -> anyhow::Result<Vec<P>> {
        let mut points = Vec::new(heap);
        let mut point = P::zero();
        // How many coordinates the point has so far: a long line is not to stand in memory as numbers and as points.
        let mut i = 0usize;
        for word in &mut self.left {
            point = point.with_coordinate(i, number_of::<i64>(word)?);
            i = i.saturating_add(1);
            if i == P::dimension() {
                points.push(point)?;
                i = 0;
            }
        }
        if i > 0 {
            bail!("there is a number too few");
        }
        Ok(points)
    }

    pub fn leg<P: Ordinate>(&mut self) -> anyhow::Result<Leg<P>> {
        let from = self.number()?;
        let ticks = self.number()?;
        let cell = Cell {
            depth: self.number()?,
            index: self.number()?,
        };
        Ok(Leg {
            stretch: Stretch { from, ticks, cell },
            degree: self.number()?,
            start: self.point()?,
            middle: self.point()?,
            end: self.point()?,
        })
    }

    /// An error where the line has a word more.
    pub fn end(&mut self) -> anyhow::Result<()> {
        match self.left.next() {
            Some(word) => bail!("'{word}' is a word too many"),
            None => Ok(()),
        }
    }
}
