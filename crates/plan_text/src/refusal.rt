//! Why a line, or the whole text, is refused before any call is made.
ghost use Rattle.std.specs.Prelude.{◌≡◌, Some as Just};
ghost use Rattle.plan_text.specs.Refusals.{number_of, printed};

use std::fmt;

/// `number_of` (specs/Refusals.antt) has the numbers.
#[derive(Clone, Copy, PartialEq, Eq, Debug)]
pub enum TextRefusal {
    /// The line is no form, or its points are not of the turn's kind.
    NoForm,
    /// The form is out of place: before the turn, a second turn, or after the seal.
    OutOfPlace,
    /// The text has more octets than are read.
    TextTooLong,
    /// The buffer has too few octets for a printed line.
    ShortBuffer,
}

impl TextRefusal {
    /// The number by which the refusal goes.
    // a method, and no conversion: a refusal has a number, and may name a place besides
    pub fn number(self) -> u32
        ensures { result ≡ number_of self }
    {
        match self {
            TextRefusal::NoForm => 41,
            TextRefusal::OutOfPlace => 42,
            TextRefusal::TextTooLong => 43,
            TextRefusal::ShortBuffer => 44,
        }
    }
}

/// As in `refused 42: the form is out of place`.
impl fmt::Display for TextRefusal {
    ghost output = { λ f. Just (printed f) };

    fn fmt<W: fmt::Write>(&self, f: &mut fmt::Formatter<W>) -> fmt::Result {
        let number = self.number();
        let reason = match self {
            TextRefusal::NoForm =>
                "the line is no form of the plan text, or a point is unlike the turn's kind",
            TextRefusal::OutOfPlace => "the form is out of place",
            TextRefusal::TextTooLong => "the plan text has more than 16384 octets",
            TextRefusal::ShortBuffer => "the buffer has fewer than 160 octets",
        };
        write!(f, "refused {number}: {reason}")
    }
}
