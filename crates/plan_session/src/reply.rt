//! What a line is answered.
ghost use Rattle.std.specs.Prelude.{◌≡◌};
ghost use Rattle.plan_text.specs.Printing.{Prints};
ghost use Rattle.plan_session.specs.Replies.{is_refusal as refuses, line_number, no_form as the_no_form, out_of_place as the_out_of_place, reply_text};
ghost use Rattle.plan_session.specs.declared.reply.LineRefusal.TheVariants.{Call as ByCall, Text as ByText};

use plan_text::print::{check_room, print_refused, print_sealed};
use plan_text::refusal::TextRefusal;
use turn::refusal::Refusal;

/// Why a line is refused.
#[derive(Clone, Copy, PartialEq, Eq, Debug)]
pub enum LineRefusal {
    /// As text: it is no form of this turn, or out of place.
    Text(TextRefusal),
    /// The call that it stands for is refused.
    Call(Refusal),
}

impl LineRefusal {
    /// The number by which the refusal goes.
    pub fn number(self) -> u32
        ensures { result ≡ line_number self }
    {
        match self {
            LineRefusal::Text(refusal) => refusal.number(),
            LineRefusal::Call(refusal) => refusal.number(),
        }
    }
}

impl From<TextRefusal> for LineRefusal {
    ghost from_gives = { λ before after. after ≡ ByText before };

    fn from(refusal: TextRefusal) -> LineRefusal {
        LineRefusal::Text(refusal)
    }
}

impl From<Refusal> for LineRefusal {
    ghost from_gives = { λ before after. after ≡ ByCall before };

    fn from(refusal: Refusal) -> LineRefusal {
        LineRefusal::Call(refusal)
    }
}

#[derive(Clone, Copy, PartialEq, Eq, Debug)]
pub enum Reply {
    /// Accepted, and nothing is printed.
    Silent,
    Refused(LineRefusal),
    /// An accepted seal: how many legs the turn has, and its last tick.
    Sealed { legs: usize, ticks: u32 },
}

impl Reply {
    /// The line is no form, or its points are unlike the turn's kind.
    pub(crate) fn no_form() -> Reply
        ensures { result ≡ the_no_form }
    {
        Reply::Refused(TextRefusal::NoForm.into())
    }

    pub(crate) fn out_of_place() -> Reply
        ensures { result ≡ the_out_of_place }
    {
        Reply::Refused(TextRefusal::OutOfPlace.into())
    }

    pub(crate) fn is_refusal(self) -> bool
        ensures { result ≡ refuses self }
    {
        matches!(self, Reply::Refused(_))
    }

    /// Prints the answer to the line of this number, and answers how many octets that takes.
    pub(crate) fn print(self, line: usize, buffer: &mut [u8]) -> Result<usize, TextRefusal>
        ensures { Prints (reply_text line self) buffer.old result buffer.new }
    {
        check_room(buffer)?;
        match self {
            Reply::Silent => Ok(0),
            Reply::Refused(refusal) => print_refused(refusal.number(), line, buffer),
            Reply::Sealed { legs, ticks } => print_sealed(legs, ticks, buffer),
        }
    }
}
