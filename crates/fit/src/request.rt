//! What the arguments of `fit` ask for.
use crate::drawing::Drawing;
use anyhow::{Context, bail};
use plan_text::form::{Kind, Legs};
use plan_text::word::read_word;
use std::alloc::Global;
use std::env::Args;

#[derive(Drop)]
pub enum Request {
    Help,
    Fit(Drawing),
}

fn kind_of(word: &str) -> anyhow::Result<Kind> {
    read_word(word.as_bytes()).context(format_args!(
        "'{word}' is no kind: a kind is flow or box; try 'fit --help'"
    ))
}

fn legs_of(word: &str) -> anyhow::Result<Legs> {
    read_word(word.as_bytes()).context(format_args!(
        "'{word}' is no reduction: a reduction is chord or matching; try 'fit --help'"
    ))
}

fn number_of(text: &str) -> anyhow::Result<i64> {
    text.parse::<i64>().ok().context(format_args!(
        "'{text}' is no whole number of 64 bits; try 'fit --help'"
    ))
}

fn next_arg(args: &mut Args) -> anyhow::Result<String> {
    args.next().context("a kind, a reduction, a tolerance and a depth are wanted; try 'fit --help'")
}

/// The coordinates that the rest of the arguments are; those of a box come in pairs.
fn coordinates_of(heap: Global, kind: Kind, args: Args) -> anyhow::Result<Vec<i64>> {
    let mut coordinates = Vec::new(heap);
    for arg in args {
        coordinates.push(number_of(arg.as_str())?)?;
    }
    if kind == Kind::Box && coordinates.len() % 2 != 0 {
        bail!("a point of a box has two coordinates, and the last has one; try 'fit --help'");
    }
    Ok(coordinates)
}

impl Request {
    /// The first argument, which is the program's own name, is passed over.
    pub fn from_args(heap: Global, mut args: Args) -> anyhow::Result<Request> {
        args.next();
        let first = next_arg(&mut args)?;
        if first.as_str() == "--help" || first.as_str() == "-h" {
            return Ok(Request::Help);
        }
        let kind = kind_of(first.as_str())?;
        let legs = legs_of(next_arg(&mut args)?.as_str())?;
        let tolerance = number_of(next_arg(&mut args)?.as_str())?;
        let depth = number_of(next_arg(&mut args)?.as_str())?;
        Ok(Request::Fit(Drawing {
            kind,
            legs,
            tolerance,
            depth,
            coordinates: coordinates_of(heap, kind, args)?,
        }))
    }
}
