//! A whole plan text, heard line by line.
ghost use Rattle.std.specs.Prelude.{◌≡◌, ℕ, List, [], ◌∷◌, true, ◌++◌, IfOk, vec_items};
ghost use Rattle.plan_session.specs.Listing.{sealed_state};
ghost use Rattle.plan_session.specs.Promises.{Promise};
ghost use Rattle.plan_session.specs.Replies.{reply_text};
ghost use Rattle.plan_session.specs.Texts.{Adds, AnswersText, Printed, legs_text, newest_first};
ghost use Rattle.plan_session.specs.Views.{new_view, view_of};
ghost use Rattle.plan_text.specs.Lines.{lines_of};

use crate::calls::MOST_LEGS;
use crate::reply::Reply;
use crate::session::Session;
use plan_text::lines::{check_length, next_line};
use plan_text::print::LINE_ROOM;
use std::alloc::{AllocError, Global};

/// What became of a plan text.
#[derive(Drop)]
pub struct Planned {
    /// The lines that are printed for it.
    pub printed: Vec<u8>,
    /// The card of its turn, where that was sealed and no line was refused.
    pub card: Option<Vec<u8>>,
}

fn print_reply(printed: &mut Vec<u8>, number: usize, reply: Reply) -> Result<(), AllocError>
    ensures { IfOk result (λ _. vec_items printed.new ≡ vec_items printed.old ++ reply_text number reply) }
{
    let mut buffer = [0u8; LINE_ROOM];
    match reply.print(number, &mut buffer) {
        Ok(length) => printed.extend_from_slice(&buffer[..length]),
        // The buffer has room for any line.
        Err(_) => Ok(()),
    }
}

/// Prints the legs of the sealed turn.
fn print_legs(printed: &mut Vec<u8>, session: &mut Session) -> Result<(), AllocError>
    ensures legs { IfOk result (λ _. (lines : List (List ℕ)) → Promise lines (view_of session.old).state → sealed_state (view_of session.old).state ≡ true → vec_items printed.new ≡ vec_items printed.old ++ legs_text (view_of session.old).state) }
    ensures same { session.new ≡ session.old }
{
    let mut buffer = [0u8; LINE_ROOM];
    // A session prints leg by leg: it is no iterator.
    for i in 0..MOST_LEGS {
        // The buffer has room for any leg.
        let Ok(shown) = session.leg(i, &mut buffer) else {
            return Ok(());
        };
        let Some(length) = shown else {
            return Ok(());
        };
        printed.extend_from_slice(&buffer[..length])?;
    }
    Ok(())
}

/// Prints what the line is answered, behind the legs where it seals the turn.
fn print_answer(
    printed: &mut Vec<u8>,
    session: &mut Session,
    heap: Global,
    line: &[u8],
) -> Result<(), AllocError>
    ensures { IfOk result (λ _. (lines : List (List ℕ)) → Promise lines (view_of session.old).state → Adds line.now (view_of session.old) (vec_items printed.old) (view_of session.new) (vec_items printed.new) × Promise (line.now ∷ lines) (view_of session.new).state) }
{
    let (number, reply) = session.next(heap, line)?;
    if let Reply::Sealed { .. } = reply {
        print_legs(printed, session)?;
    }
    print_reply(printed, number, reply)
}

/// Prints what all lines of the text are answered.
fn print_answers(heap: Global, session: &mut Session, text: &[u8]) -> Result<Vec<u8>, AllocError>
    requires { view_of session.old ≡ new_view }
    ensures { IfOk result (λ printed. Printed (newest_first (lines_of text.now) []) (view_of session.new) (vec_items printed) × Promise (newest_first (lines_of text.now) []) (view_of session.new).state) }
{
    let mut printed = Vec::new(heap);
    let mut rest = text;
    while let Some((line, behind)) = next_line(rest) {
        print_answer(&mut printed, session, heap, line)?;
        rest = behind;
    }
    Ok(printed)
}

/// Hears a whole plan text: what is printed for it, and the card of its turn. A text that is too long is refused as a whole.
/// All is done in memory, and where that is wanting nothing is printed.
pub fn answer_text(heap: Global, text: &[u8]) -> Result<Planned, AllocError>
    ensures { IfOk result (λ planned. AnswersText text.now planned) }
{
    if let Err(refusal) = check_length(text) {
        let mut printed = Vec::new(heap);
        print_reply(&mut printed, 0, Reply::Refused(refusal.into()))?;
        return Ok(Planned {
            printed,
            card: None,
        });
    }
    let mut session = Session::new();
    let printed = print_answers(heap, &mut session, text)?;
    let card = session.card(heap)?;
    Ok(Planned { printed, card })
}
