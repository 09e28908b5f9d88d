//! A line read as a form.
ghost use Rattle.std.specs.Prelude.{◌≡◌, ◌↔◌, [], ◌∷◌, IsTrue, IfOk, Some};
ghost use Rattle.std.specs.Option.{option_map};
ghost use Rattle.plan_text.specs.Tokens.{closing};
ghost use Rattle.plan_text.specs.Reading.{Spells, Completes, turn_marks, ats_marks, span_marks, span_of, IsTypedTurn, IsTypedSpan};
ghost use Rattle.plan_text.specs.Forms.{PlanForm, form_of, text_of, IsTyped, AreTyped, Says};

use crate::form::{At, Form, SpanForm, TurnForm};
use crate::head::{Head, read_head};
use crate::items::{at_item, number_item, value_item};
use crate::lexer::Lexer;
use crate::token::Token;
use std::alloc::{AllocError, Global};

/// Whether nothing but the bracket that closes the form is left of the line.
fn is_closed(lexer: Lexer<'_>) -> bool
    ensures { IsTrue result ↔ Spells lexer.entry (closing ∷ []) }
{
    lexer
        .pass(Token::Close)
        .is_some_and(|rest| rest.place >= rest.line.len())
}

/// A turn, behind its name.
fn read_turn(lexer: Lexer<'_>) -> Option<TurnForm>
    ensures { Completes turn_marks IsTypedTurn lexer.entry result }
{
    let (kind, rest) = value_item(lexer, b"kind")?;
    let (legs, rest) = value_item(rest, b"legs")?;
    let (within, rest) = number_item(rest, b"within")?;
    let (depth, rest) = number_item(rest, b"depth")?;
    let (ticks, rest) = number_item(rest, b"ticks")?;
    if !is_closed(rest) {
        return None;
    }
    Some(TurnForm {
        kind,
        legs,
        within,
        depth,
        ticks,
    })
}

/// The points that are left of a span.
fn read_points(alloc: Global, lexer: Lexer<'_>) -> Result<Option<Vec<At>>, AllocError>
    ensures { IfOk result (λ points. Completes ats_marks AreTyped lexer.entry (option_map (λ v. v.items) points)) }
{
    let mut points = Vec::new(alloc);
    let mut rest = lexer;
    while !is_closed(rest) {
        let Some((at, behind)) = at_item(rest) else {
            return Ok(None);
        };
        points.push(at)?;
        rest = behind;
    }
    Ok(Some(points))
}

/// A span, behind its name.
fn read_span(alloc: Global, lexer: Lexer<'_>) -> Result<Option<SpanForm>, AllocError>
    ensures { IfOk result (λ span. Completes span_marks IsTypedSpan lexer.entry (option_map span_of span)) }
{
    let Some((ticks, rest)) = number_item(lexer, b"ticks") else {
        return Ok(None);
    };
    let points = read_points(alloc, rest)?;
    Ok(points.map(|points| SpanForm { ticks, points }))
}

fn read_form(alloc: Global, line: &[u8]) -> Result<Option<Form>, AllocError>
    ensures { IfOk result (λ form. Says line.now (option_map form_of form)) }
{
    let Some((head, rest)) = read_head(Lexer::new(line)) else {
        return Ok(None);
    };
    match head {
        Head::Turn => Ok(read_turn(rest).map(Form::Turn)),
        Head::Span => Ok(read_span(alloc, rest)?.map(Form::Span)),
        Head::Strike => Ok(is_closed(rest).then_some(Form::Strike)),
        Head::Seal => Ok(is_closed(rest).then_some(Form::Seal)),
    }
}

/// The form that the line, without its line feed, is the text of; nothing where it is the text of none.
/// Only want of memory for the points of a span is an error.
pub fn parse(alloc: Global, line: &[u8]) -> Result<Option<Form>, AllocError>
    ensures found { IfOk result (λ form. Says line.now (option_map form_of form)) }
    // A form that is printed and read again is the same.
    ensures again { (f : PlanForm) → IsTyped f → line.now ≡ text_of f → IfOk result (λ form. option_map form_of form ≡ Some f) }
    // No line is two forms.
    ensures one { (f g : PlanForm) → IsTyped f → IsTyped g → text_of f ≡ text_of g → f ≡ g }
{
    read_form(alloc, line)
}
