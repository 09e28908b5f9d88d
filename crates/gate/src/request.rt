//! What the arguments of `gate` ask for.
use anyhow::{Context, bail};
use std::alloc::Global;
use std::env::Args;

#[derive(Drop)]
pub enum Request {
    Help,
    /// A card in a file, or on standard input.
    Card {
        path: Option<String>,
        ticks: Vec<u32>,
    },
    Example {
        path: String,
    },
}

fn tick_of(text: &str) -> anyhow::Result<u32> {
    text.parse::<u32>().ok().context(format_args!(
        "'{text}' is no tick: a tick is a whole number from 0 to 4294967295; try 'gate --help'"
    ))
}

/// The ticks that the rest of the arguments ask for.
fn ticks_of(heap: Global, args: Args) -> anyhow::Result<Vec<u32>> {
    let mut ticks = Vec::new(heap);
    for arg in args {
        ticks.push(tick_of(arg.as_str())?)?;
    }
    Ok(ticks)
}

/// The one file that the rest of the arguments name.
fn only_file(mut args: Args) -> anyhow::Result<String> {
    let (Some(path), None) = (args.next(), args.next()) else {
        bail!("--example wants one file; try 'gate --help'");
    };
    Ok(path)
}

impl Request {
    /// The first argument, which is the program's own name, is passed over.
    pub fn from_args(heap: Global, mut args: Args) -> anyhow::Result<Request> {
        args.next();
        let Some(first) = args.next() else {
            return Ok(Request::Card {
                path: None,
                ticks: Vec::new(heap),
            });
        };
        match first.as_str() {
            "-" => Ok(Request::Card {
                path: None,
                ticks: ticks_of(heap, args)?,
            }),
            "--help" | "-h" => Ok(Request::Help),
            "--example" => Ok(Request::Example {
                path: only_file(args)?,
            }),
            option if option.starts_with('-') => {
                bail!("there is no option '{option}'; try 'gate --help'")
            }
            _ => Ok(Request::Card {
                path: Some(first),
                ticks: ticks_of(heap, args)?,
            }),
        }
    }
}
