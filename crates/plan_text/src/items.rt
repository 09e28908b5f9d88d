//! The parts of a form, each read from a place in its line.
ghost use Rattle.std.specs.Prelude.{[], ◌∷◌, MatchOption};
ghost use Rattle.decimal.specs.Numbers.{HasFewDigits};
ghost use Rattle.plan_text.specs.Tokens.{opening, word as word_mark};
ghost use Rattle.plan_text.specs.Lexing.{IsWord};
ghost use Rattle.plan_text.specs.Reading.{Passes, Reads, ReadsOne, ReadsNone, Any, word_marks, number_marks, at_marks};
ghost use Rattle.plan_text.specs.Forms.{IsTypedAt};

use crate::form::At;
use crate::lexer::Lexer;
use crate::token::Token;
use crate::word::{Word, read_word};

/// The lexer behind a bracket and the name of a list.
#[inline(always)]
pub(crate) fn list<'a>(lexer: Lexer<'a>, name: &[u8]) -> Option<Lexer<'a>>
    ensures { IsWord name.now → Passes (opening ∷ word_mark name.now ∷ []) lexer.entry result }
{
    lexer.pass(Token::Open)?.pass(Token::Word(name))
}

/// `(name N)`
pub(crate) fn number_item<'a>(lexer: Lexer<'a>, name: &[u8]) -> Option<(i64, Lexer<'a>)>
    ensures { IsWord name.now → Reads (number_marks name.now) HasFewDigits lexer.entry result }
{
    let (number, rest) = list(lexer, name)?.number()?;
    Some((number, rest.pass(Token::Close)?))
}

/// `(name WORD)`
fn word_item<'a>(lexer: Lexer<'a>, name: &[u8]) -> Option<(&'a [u8], Lexer<'a>)>
    ensures { IsWord name.now → MatchOption result
        (ReadsNone (word_marks name.now) IsWord lexer.entry)
        (λ r. ReadsOne (word_marks name.now) IsWord lexer.entry r.0.now r.1) }
{
    let (word, rest) = list(lexer, name)?.word()?;
    Some((word, rest.pass(Token::Close)?))
}

/// `(name WORD)`, and the value that the word stands for.
pub(crate) fn value_item<'a, W: Word>(lexer: Lexer<'a>, name: &[u8]) -> Option<(W, Lexer<'a>)>
    ensures { IsWord name.now → Reads (λ value. word_marks name.now (W.text value)) Any lexer.entry result }
{
    let (word, rest) = word_item(lexer, name)?;
    Some((read_word(word)?, rest))
}

/// `(at N)` or `(at N N)`
pub(crate) fn at_item(lexer: Lexer<'_>) -> Option<(At, Lexer<'_>)>
    ensures { Reads at_marks IsTypedAt lexer.entry result }
{
    let (first, rest) = list(lexer, b"at")?.number()?;
    if let Some(rest) = rest.pass(Token::Close) {
        return Some((At::One(first), rest));
    }
    let (second, rest) = rest.number()?;
    Some((At::Two(first, second), rest.pass(Token::Close)?))
}
