//! What a line of a script asks for.
use anyhow::{Context, bail};
use leg::leg::Leg;
use ordinate::kind::Ordinate;
use plan_text::form::Legs;
use plan_text::word::read_word;
use planner::begin::Terms;
use script::words::Words;
use std::alloc::Global;

/// A draft to be begun over the outlet that was started last.
#[derive(Clone, Copy)]
pub struct Begin {
    pub legs: Legs,
    pub terms: Terms,
}

/// A span to be laid, with so many work points that are lent.
#[derive(Drop)]
pub struct Drawn<P> {
    pub ticks: i64,
    pub work: usize,
    pub points: Vec<P>,
}

/// A call on the turn.
#[derive(Drop)]
pub enum Call<P> {
    Lay(Drawn<P>),
    Strike,
    Seal,
    Tell(i64),
    List(usize),
}

/// A call on the outlet alone, behind the back of any draft.
#[derive(Drop)]
pub enum Change<P> {
    Put(Leg<P>),
    Keep(usize),
}

#[derive(Drop)]
pub enum Line<P> {
    Begin(Begin),
    Call(Call<P>),
    Change(Change<P>),
}

fn next_begin(words: &mut Words<'_>) -> anyhow::Result<Begin> {
    let legs = words
        .next_word()
        .and_then(|word| read_word(word.as_bytes()))
        .context("there is no reduction: a reduction is chord or matching")?;
    let terms = Terms {
        tolerance: words.number()?,
        depth: words.number()?,
        end: words.number()?,
    };
    Ok(Begin { legs, terms })
}

fn next_drawn<P: Ordinate>(heap: Global, words: &mut Words<'_>) -> anyhow::Result<Drawn<P>> {
    Ok(Drawn {
        ticks: words.number()?,
        work: words.number()?,
        points: words.points(heap)?,
    })
}

impl<P: Ordinate> Line<P> {
    pub fn from_text(heap: Global, text: &str) -> anyhow::Result<Line<P>> {
        let mut words = Words::new(text);
        let line = match words.next_word().unwrap_or("") {
            "begin" => Line::Begin(next_begin(&mut words)?),
            "put" => Line::Change(Change::Put(words.leg()?)),
            "keep" => Line::Change(Change::Keep(words.number()?)),
            "lay" => Line::Call(Call::Lay(next_drawn(heap, &mut words)?)),
            "strike" => Line::Call(Call::Strike),
            "seal" => Line::Call(Call::Seal),
            "tell" => Line::Call(Call::Tell(words.number()?)),
            "list" => Line::Call(Call::List(words.number()?)),
            word => bail!("'{word}' begins no line of a script"),
        };
        words.end()?;
        Ok(line)
    }
}
