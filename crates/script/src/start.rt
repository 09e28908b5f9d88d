//! Lines that start an outlet.
use crate::words::Words;
use anyhow::Context;
use plan_text::form::Kind;
use plan_text::word::read_word;

#[derive(Clone, Copy)]
pub enum Sort {
    Table,
    Card,
}

/// An outlet to be started, of so many records or octets.
#[derive(Clone, Copy)]
pub struct Start {
    pub sort: Sort,
    pub kind: Kind,
    pub size: usize,
}

fn next_kind(words: &mut Words<'_>) -> anyhow::Result<Kind> {
    let word = words.next_word().context("there is no kind")?;
    read_word(word.as_bytes()).context(format_args!("'{word}' is no kind: a kind is flow or box"))
}

impl Start {
    /// What the line starts; nothing where it is none that starts an outlet.
    pub fn from_text(line: &str) -> anyhow::Result<Option<Start>> {
        let mut words = Words::new(line);
        let sort = match words.next_word() {
            Some("table") => Sort::Table,
            Some("card") => Sort::Card,
            _ => return Ok(None),
        };
        let kind = next_kind(&mut words)?;
        let size = words.number()?;
        words.end()?;
        Ok(Some(Start { sort, kind, size }))
    }
}
