//! The forms that a plan text is made of, one on a line.
use crate::word::Word;

/// What a turn is drawn in: the flow at a single gate, or the flows into the two branches of a division box.
#[derive(Clone, Copy, PartialEq, Eq, Debug)]
pub enum Kind {
    Flow,
    Box,
}

impl Word for Kind {
    ghost use Rattle.plan_text.specs.Forms.{kind_word};
    ghost use Rattle.plan_text.specs.Laws.Words.{kinds, every_kind, kinds_are_words, kinds_apart};

    ghost all = { kinds };

    ghost text = { kind_word };

    fn all() -> &'static [Kind] {
        &[Kind::Flow, Kind::Box]
    }

    fn word(self) -> &'static [u8] {
        match self {
            Kind::Flow => b"flow",
            Kind::Box => b"box",
        }
    }

    ghost every = { every_kind };

    ghost words = { kinds_are_words };

    ghost apart = { kinds_apart };
}

/// How a piece of a curve is made a leg: straight from end to end, or quadratic and matching the piece.
#[derive(Clone, Copy, PartialEq, Eq, Debug)]
pub enum Legs {
    Chord,
    Matching,
}

impl Word for Legs {
    ghost use Rattle.plan_text.specs.Forms.{legs_word};
    ghost use Rattle.plan_text.specs.Laws.Words.{ways, every_way, legs_are_words, legs_apart};

    ghost all = { ways };

    ghost text = { legs_word };

    fn all() -> &'static [Legs] {
        &[Legs::Chord, Legs::Matching]
    }

    fn word(self) -> &'static [u8] {
        match self {
            Legs::Chord => b"chord",
            Legs::Matching => b"matching",
        }
    }

    ghost every = { every_way };

    ghost words = { legs_are_words };

    ghost apart = { legs_apart };
}

/// The numbers of a point, as in `(at 5)` or `(at 5 -3)`.
#[derive(Clone, Copy, PartialEq, Eq, Debug)]
pub enum At {
    One(i64),
    Two(i64, i64),
}

/// `(turn (kind K) (legs R) (within N) (depth N) (ticks N))`: how near to the curve the legs must stay, how often a
/// curve may be halved, and when the turn ends.
#[derive(Clone, Copy, PartialEq, Eq, Debug)]
pub struct TurnForm {
    pub kind: Kind,
    pub legs: Legs,
    pub within: i64,
    pub depth: i64,
    pub ticks: i64,
}

/// `(span (ticks N) (at ..) ..)`: how long a curve lasts, and its control points.
#[derive(Drop)]
pub struct SpanForm {
    pub ticks: i64,
    pub points: Vec<At>,
}

#[derive(Drop)]
pub enum Form {
    /// Begins a turn.
    Turn(TurnForm),
    /// Lays a span: its curve is made legs, which go behind those that stand.
    Span(SpanForm),
    /// Strikes the last span: its legs are taken off again.
    Strike,
    /// Seals the turn: nothing more is laid or struck.
    Seal,
}
