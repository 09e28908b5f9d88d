//! A session: hears the lines of a plan text one by one, and prints what each is answered.
ghost use Rattle.std.specs.Prelude.{◌≡◌, ℕ, List, [], ◌∷◌, IfOk, IfErr};
ghost use Rattle.plan_session.specs.Sessions.{SaysAndHears, state_of};
ghost use Rattle.plan_session.specs.Promises.{Promise};
ghost use Rattle.plan_session.specs.Views.{AnswersLine, Heard, new_view, next_number, view_of};

use crate::reply::Reply;
use crate::stage::Stage;
use plan_text::parse::parse;
use plan_text::print::check_room;
use plan_text::refusal::TextRefusal;
use std::alloc::{AllocError, Global};
use std::mem;

/// The turn that is typed, with its legs, how many lines were heard, and whether one of them was refused.
#[derive(Drop)]
pub struct Session {
    pub(crate) stage: Stage,
    pub(crate) heard: usize,
    pub(crate) refused: bool,
}

impl Session {
    /// A session that has heard no line.
    pub fn new() -> Session
        ensures new { view_of result ≡ new_view }
        ensures begins { Promise [] (view_of result).state }
    {
        Session {
            stage: Stage::Waiting,
            heard: 0,
            refused: false,
        }
    }

    /// Hears the next line, without its line feed, and prints what it is answered: the refusal, or for an accepted seal the line that counts the legs; nothing for other accepted forms. Answers how many octets were printed.
    /// A buffer of fewer than 160 octets is refused before anything else, and the line is not heard then; nor is it where memory is wanting.
    pub fn answer(
        &mut self,
        alloc: Global,
        line: &[u8],
        buffer: &mut [u8],
    ) -> Result<Result<usize, TextRefusal>, AllocError>
        ensures answered { IfOk result (λ r. AnswersLine (view_of self.old) line.now buffer.old r buffer.new (view_of self.new)) }
        // Whatever lines came before, the promise holds of the turn that they make, and goes on to hold.
        ensures promise { IfOk result (λ r. IfOk r (λ _. (lines : List (List ℕ)) → Promise lines (view_of self.old).state → Promise (line.now ∷ lines) (view_of self.new).state)) }
        ensures failed { IfErr result (λ _. (self.new ≡ self.old) × (buffer.new ≡ buffer.old)) }
    {
        if let Err(refusal) = check_room(buffer) {
            return Ok(Err(refusal));
        }
        let (number, reply) = self.next(alloc, line)?;
        Ok(reply.print(number, buffer))
    }

    /// Hears the next line, and answers its number and the reply to it. Where memory is wanting the line is not heard.
    pub(crate) fn next(&mut self, alloc: Global, line: &[u8]) -> Result<(usize, Reply), AllocError>
        ensures heard { IfOk result (λ r. (r.0 ≡ next_number self.old.heard) × Heard (view_of self.old) line.now r.1 (view_of self.new)) }
        ensures promise { IfOk result (λ r. (lines : List (List ℕ)) → Promise lines (view_of self.old).state → Promise (line.now ∷ lines) (view_of self.new).state) }
        ensures failed { IfErr result (λ _. self.new ≡ self.old) }
    {
        let number = self.heard.saturating_add(1);
        let reply = self.hear(alloc, line)?;
        self.heard = number;
        self.refused = self.refused || reply.is_refusal();
        Ok((number, reply))
    }

    /// What the line is answered. Where memory is wanting nothing changes.
    fn hear(&mut self, alloc: Global, line: &[u8]) -> Result<Reply, AllocError>
        ensures hears { IfOk result (λ r. SaysAndHears (state_of self.old.stage) line.now r (state_of self.new.stage)) }
        ensures same { (self.new.heard ≡ self.old.heard) × (self.new.refused ≡ self.old.refused) }
        ensures failed { IfErr result (λ _. self.new ≡ self.old) }
    {
        let Some(form) = parse(alloc, line)? else {
            return Ok(Reply::no_form());
        };
        let stage = mem::replace(&mut self.stage, Stage::Waiting);
        let (stage, reply) = stage.hear(alloc, &form);
        self.stage = stage;
        reply
    }
}
