//! The tokens of a line, one after another.
ghost use Rattle.std.specs.Prelude.{◌≡◌, ℕ, ◌<◌, ◌≤◌, true, false, length, drop, MatchOption, slice_index};
ghost use Rattle.plan_text.specs.Tokens.{mark_of, opens};
ghost use Rattle.plan_text.specs.Lexing.{is_plain_octet, Begins, BeginsWithNone, Starts, TakesNone};

use crate::token::{Part, Token};
use decimal::read::read_number;

/// A place in a line.
#[derive(Clone, Copy)]
pub(crate) struct Lexer<'a> {
    pub line: &'a [u8],
    pub place: usize,
    /// Whether nothing of its list stands before this place.
    pub first: bool,
}

fn is_plain(octet: u8) -> bool
    ensures { result ≡ is_plain_octet octet }
{
    !matches!(octet, b'(' | b')' | b' ')
}

/// How many plain octets stand in front.
fn run_length(octets: &[u8]) -> usize
    ensures within { result ≤ length octets.now }
    ensures all { (k : ℕ) → k < result → is_plain_octet (slice_index octets.now k) ≡ true }
    ensures stops { result < length octets.now → is_plain_octet (slice_index octets.now result) ≡ false }
{
    octets
        .iter()
        .position(|octet| !is_plain(*octet))
        .unwrap_or(octets.len())
}

/// Where the run of plain octets from `place` on ends.
fn run_end(line: &[u8], place: usize) -> usize
    requires { place ≤ length line.now }
    ensures within { (place ≤ result) × (result ≤ length line.now) }
    ensures all { (k : ℕ) → place ≤ k → k < result → is_plain_octet (slice_index line.now k) ≡ true }
    ensures stops { result < length line.now → is_plain_octet (slice_index line.now result) ≡ false }
{
    place + run_length(&line[place..])
}

/// The token that begins at `place`, and where it ends.
#[inline(always)]
fn token_at<'a>(line: &'a [u8], place: usize) -> Option<(Token<'a>, usize)>
    ensures { MatchOption result
        (BeginsWithNone (drop place line.now))
        (λ t. Begins (drop place line.now) (mark_of t.0) (drop t.1 line.now)) }
{
    if place >= line.len() {
        return None;
    }
    if line[place] == b'(' {
        return Some((Token::Open, place + 1));
    }
    if line[place] == b')' {
        return Some((Token::Close, place + 1));
    }
    if line[place] == b' ' {
        return None;
    }
    let end = run_end(line, place);
    let run = &line[place..end];
    match read_number(run) {
        Some(number) => Some((Token::Number(number), end)),
        None => Some((Token::Word(run), end)),
    }
}

/// Where the next token has to begin: behind one space, but at once where it is the first of its list or closes it.
#[inline(always)]
fn token_start(line: &[u8], place: usize, first: bool) -> Option<usize>
    ensures { MatchOption result
        (TakesNone first (drop place line.now))
        (λ start. Starts first (drop place line.now) (drop start line.now)) }
{
    if first {
        return Some(place);
    }
    if place >= line.len() {
        return None;
    }
    if line[place] == b')' {
        return Some(place);
    }
    if line[place] != b' ' {
        return None;
    }
    if place + 1 < line.len() && line[place + 1] == b')' {
        return None;
    }
    Some(place + 1)
}

fn opens_list(token: Token<'_>) -> bool
    ensures { result ≡ opens (mark_of token.entry) }
{
    matches!(token, Token::Open)
}

impl<'a> Lexer<'a> {
    ghost use Rattle.std.specs.Prelude.{◌≡◌, ℕ, true, List, drop, ℤ, MatchOption};
    ghost use Rattle.plan_text.specs.Tokens.{mark_of, word as word_mark, number as number_mark};
    ghost use Rattle.plan_text.specs.Lexing.{left, Begins, TakesNone, Steps, Misses};

    /// The beginning of a line.
    pub(crate) fn new(line: &'a [u8]) -> Lexer<'a>
        ensures { result ≡ record { line = line.entry; place = 0; first = true } }
    {
        Lexer {
            line,
            place: 0,
            first: true,
        }
    }

    /// The next token, and the lexer behind it.
    // Taken into its callers, as all that hand a lexer on: by way of memory that takes longer than reading the token.
    #[inline(always)]
    pub(crate) fn next(self) -> Option<(Part<'a>, Lexer<'a>)>
        ensures { MatchOption result
            (TakesNone self.entry.first (left self.entry))
            (λ r. Steps self.entry (mark_of r.0.token) r.1
            × Begins (drop r.0.place self.entry.line.now) (mark_of r.0.token) (left r.1)) }
    {
        let place = token_start(self.line, self.place, self.first)?;
        let (token, end) = token_at(self.line, place)?;
        let rest = Lexer {
            line: self.line,
            place: end,
            first: opens_list(token),
        };
        Some((Part { token, place }, rest))
    }

    /// The lexer behind the token, if that is the next.
    #[inline(always)]
    pub(crate) fn pass(self, token: Token<'_>) -> Option<Lexer<'a>>
        ensures { MatchOption result (Misses self.entry (mark_of token.entry)) (λ rest. Steps self.entry (mark_of token.entry) rest) }
    {
        let (part, rest) = self.next()?;
        (part.token == token).then_some(rest)
    }

    /// The word that is next. (A number is of another type, so one function for both would be given how to pick it.)
    #[inline(always)]
    pub(crate) fn word(self) -> Option<(&'a [u8], Lexer<'a>)>
        ensures { MatchOption result
            ((w : List ℕ) → Misses self.entry (word_mark w))
            (λ r. Steps self.entry (word_mark r.0.now) r.1) }
    {
        let (part, rest) = self.next()?;
        match part.token {
            Token::Word(word) => Some((word, rest)),
            _ => None,
        }
    }

    #[inline(always)]
    pub(crate) fn number(self) -> Option<(i64, Lexer<'a>)>
        ensures { MatchOption result
            ((z : ℤ) → Misses self.entry (number_mark z))
            (λ r. Steps self.entry (number_mark r.0) r.1) }
    {
        let (part, rest) = self.next()?;
        match part.token {
            Token::Number(number) => Some((number, rest)),
            _ => None,
        }
    }
}
