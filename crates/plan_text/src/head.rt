//! What a form begins with.
ghost use Rattle.plan_text.specs.Reading.{Reads, Any, head_marks};

use crate::lexer::Lexer;
use crate::token::Token;
use crate::word::{Word, read_word};

#[derive(Clone, Copy)]
pub(crate) enum Head {
    Turn,
    Span,
    Strike,
    Seal,
}

impl Word for Head {
    ghost use Rattle.plan_text.specs.Reading.{head_word};
    ghost use Rattle.plan_text.specs.Laws.Words.{heads, every_head, heads_are_words, heads_apart};

    ghost all = { heads };

    ghost text = { head_word };

    fn all() -> &'static [Head] {
        &[Head::Turn, Head::Span, Head::Strike, Head::Seal]
    }

    fn word(self) -> &'static [u8] {
        match self {
            Head::Turn => b"turn",
            Head::Span => b"span",
            Head::Strike => b"strike",
            Head::Seal => b"seal",
        }
    }

    ghost every = { every_head };

    ghost words = { heads_are_words };

    ghost apart = { heads_apart };
}

/// A bracket and the name of a form.
pub(crate) fn read_head(lexer: Lexer<'_>) -> Option<(Head, Lexer<'_>)>
    ensures { Reads head_marks Any lexer.entry result }
{
    let (word, rest) = lexer.pass(Token::Open)?.word()?;
    Some((read_word(word)?, rest))
}
