ghost use Rattle.std.specs.Prelude.{◌≡◌, ◌∷◌, [], IfOk, List, map};
ghost use Rattle.std.specs.Option.{option_map};
ghost use Rattle.lvish_syntax.specs.Words.{Word};
ghost use Rattle.lvish_syntax.specs.declared.term.Term.{Term};
ghost use Rattle.lvish_syntax.specs.declared.command.Command.{Command};
ghost use Rattle.lvish_syntax.specs.declared.command.Command.TheVariants.{Fork, Call};
ghost use Rattle.lvish_checks.specs.declared.line.Line.TheVariants.{Do};
ghost use Rattle.lvish_checks.specs.Form.{or_bad, value_of, let_line, put_of, put_line, get_at, get_of, get_line, run_line, handle_line, freeze_line, command_form};

use crate::form::freeze::freeze_of;
use crate::form::term::{operator_of, term_of, terms_of};
use crate::form::threshold::threshold_of;
use crate::line::Line;
use crate::word::{is, is_name};
use lvish_base::Boxed;
use lvish_syntax::{Command, Identifier, LetValue, Terms};
use std::alloc::{AllocError, Global};

/// The line of a statement, where there is one.
fn command_line(alloc: Global, command: Option<Command>) -> Result<Line, AllocError>
    ensures { IfOk result (λ l. l ≡ or_bad (option_map (λ c. Do c) command)) }
{
    match command {
        Some(command) => Ok(Line::Do(Boxed::new(alloc, command)?)),
        None => Ok(Line::Bad),
    }
}

/// Two terms combined.
fn combined(left: &[u8], operator: &[u8], right: &[u8]) -> Option<LetValue>
    ensures { result ≡ value_of (left.now ∷ operator.now ∷ right.now ∷ []) }
{
    let left = term_of(left)?;
    let operator = operator_of(operator)?;
    let right = term_of(right)?;
    Some(LetValue::Combined(left, operator, right))
}

fn value_of(words: &[&[u8]]) -> Option<LetValue>
    ensures { result ≡ value_of (map (λ w. w.now) words.now) }
{
    match words {
        [word] => Some(LetValue::Same(term_of(word)?)),
        [left, operator, right] => combined(left, operator, right),
        _ => None,
    }
}

#[tactic(auto, unfolding(crate::specs::Form::let_line))]
fn let_line(alloc: Global, words: &[&[u8]]) -> Result<Line, AllocError>
    ensures { IfOk result (λ l. l ≡ let_line (map (λ w. w.now) words.now)) }
{
    match words {
        [] => Ok(Line::Bad),
        [local, rest @ ..] => {
            if !is_name(local) {
                return Ok(Line::Bad);
            }
            match value_of(rest) {
                Some(value) => {
                    let command = Command::Let(Identifier::new(local), value);
                    Ok(Line::Do(Boxed::new(alloc, command)?))
                }
                None => Ok(Line::Bad),
            }
        }
    }
}

/// What puts a term's value at a place of the variable.
fn put_at(variable: Identifier, place: &[u8], word: &[u8]) -> Option<Command>
    ensures { result ≡ put_of variable (place.now ∷ word.now ∷ []) }
{
    let place = term_of(place)?;
    let term = term_of(word)?;
    Some(Command::PutAt(variable, place, term))
}

fn put_of(variable: Identifier, words: &[&[u8]]) -> Option<Command>
    ensures { result ≡ put_of variable (map (λ w. w.now) words.now) }
{
    match words {
        [word] => Some(Command::Put(variable, term_of(word)?)),
        [place, word] => put_at(variable, place, word),
        _ => None,
    }
}

#[tactic(auto, unfolding(crate::specs::Form::put_line))]
fn put_line(alloc: Global, words: &[&[u8]]) -> Result<Line, AllocError>
    ensures { IfOk result (λ l. l ≡ put_line (map (λ w. w.now) words.now)) }
{
    match words {
        [] => Ok(Line::Bad),
        [variable, rest @ ..] => {
            if !is_name(variable) {
                return Ok(Line::Bad);
            }
            let variable = Identifier::new(variable);
            command_line(alloc, put_of(variable, rest))
        }
    }
}

/// What waits for the place of a variable that the first word names.
fn get_at(
    alloc: Global,
    local: Identifier,
    variable: Identifier,
    words: &[&[u8]],
) -> Result<Option<Command>, AllocError>
    ensures { IfOk result (λ c. c ≡ get_at local variable (map (λ w. w.now) words.now)) }
{
    match words {
        [] => Ok(None),
        [word, rest @ ..] => {
            let Some(place) = term_of(word) else {
                return Ok(None);
            };
            match threshold_of(alloc, rest)? {
                Some(threshold) => Ok(Some(Command::GetAt(local, variable, place, threshold))),
                None => Ok(None),
            }
        }
    }
}

/// What waits for a variable, or for the place of it that the first word may name.
fn get_of(
    alloc: Global,
    local: Identifier,
    variable: Identifier,
    words: &[&[u8]],
) -> Result<Option<Command>, AllocError>
    ensures { IfOk result (λ c. c ≡ get_of local variable (map (λ w. w.now) words.now)) }
{
    match threshold_of(alloc, words)? {
        Some(threshold) => Ok(Some(Command::Get(local, variable, threshold))),
        None => get_at(alloc, local, variable, words),
    }
}

#[tactic(auto, unfolding(crate::specs::Form::get_line))]
fn get_line(alloc: Global, words: &[&[u8]]) -> Result<Line, AllocError>
    ensures { IfOk result (λ l. l ≡ get_line (map (λ w. w.now) words.now)) }
{
    match words {
        [local, variable, rest @ ..] => {
            if !is_name(local) || !is_name(variable) {
                return Ok(Line::Bad);
            }
            let local = Identifier::new(local);
            let variable = Identifier::new(variable);
            command_line(alloc, get_of(alloc, local, variable, rest)?)
        }
        _ => Ok(Line::Bad),
    }
}

/// A procedure and the terms on which it is to run.
#[tactic(auto, unfolding(crate::specs::Form::run_line))]
fn run_of(alloc: Global, words: &[&[u8]]) -> Result<Option<(Identifier, Terms)>, AllocError>
    ensures { IfOk result (λ p. (f : Word → List Term → Command) → or_bad (option_map (λ q. Do (f q.0 q.1)) p) ≡ run_line f (map (λ w. w.now) words.now)) }
{
    match words {
        [] => Ok(None),
        [name, rest @ ..] => {
            if !is_name(name) {
                return Ok(None);
            }
            match terms_of(alloc, rest)? {
                Some(terms) => Ok(Some((Identifier::new(name), terms))),
                None => Ok(None),
            }
        }
    }
}

fn fork_line(alloc: Global, words: &[&[u8]]) -> Result<Line, AllocError>
    ensures { IfOk result (λ l. l ≡ run_line (λ n ts. Fork n ts) (map (λ w. w.now) words.now)) }
{
    match run_of(alloc, words)? {
        Some((procedure, terms)) => {
            Ok(Line::Do(Boxed::new(alloc, Command::Fork(procedure, terms))?))
        }
        None => Ok(Line::Bad),
    }
}

fn call_line(alloc: Global, words: &[&[u8]]) -> Result<Line, AllocError>
    ensures { IfOk result (λ l. l ≡ run_line (λ n ts. Call n ts) (map (λ w. w.now) words.now)) }
{
    match run_of(alloc, words)? {
        Some((procedure, terms)) => {
            Ok(Line::Do(Boxed::new(alloc, Command::Call(procedure, terms))?))
        }
        None => Ok(Line::Bad),
    }
}

#[tactic(auto, unfolding(crate::specs::Form::handle_line))]
fn handle_line(alloc: Global, words: &[&[u8]]) -> Result<Line, AllocError>
    ensures { IfOk result (λ l. l ≡ handle_line (map (λ w. w.now) words.now)) }
{
    match words {
        [pool, procedure] if is_name(pool) && is_name(procedure) => {
            let pool = Identifier::new(pool);
            let procedure = Identifier::new(procedure);
            Ok(Line::Do(Boxed::new(alloc, Command::Handle(pool, procedure))?))
        }
        _ => Ok(Line::Bad),
    }
}

/// A freeze of a variable.
#[tactic(auto, unfolding(crate::specs::Form::freeze_line))]
fn freeze_line(alloc: Global, words: &[&[u8]]) -> Result<Line, AllocError>
    ensures { IfOk result (λ l. l ≡ freeze_line (map (λ w. w.now) words.now)) }
{
    match words {
        [local, variable, rest @ ..] => {
            if !is_name(local) || !is_name(variable) {
                return Ok(Line::Bad);
            }
            let local = Identifier::new(local);
            let variable = Identifier::new(variable);
            command_line(alloc, freeze_of(alloc, local, variable, rest)?)
        }
        _ => Ok(Line::Bad),
    }
}

/// What a line says that begins as a statement of one line.
pub fn command_form(alloc: Global, word: &[u8], rest: &[&[u8]]) -> Result<Line, AllocError>
    ensures { IfOk result (λ l. l ≡ command_form word.now (map (λ w. w.now) rest.now)) }
{
    if is(word, b"let") {
        let_line(alloc, rest)
    } else if is(word, b"put") {
        put_line(alloc, rest)
    } else if is(word, b"get") {
        get_line(alloc, rest)
    } else if is(word, b"fork") {
        fork_line(alloc, rest)
    } else if is(word, b"call") {
        call_line(alloc, rest)
    } else if is(word, b"handle") {
        handle_line(alloc, rest)
    } else if is(word, b"freeze") {
        freeze_line(alloc, rest)
    } else {
        Ok(Line::Bad)
    }
}
