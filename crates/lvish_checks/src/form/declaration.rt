ghost use Rattle.std.specs.Prelude.{◌≡◌, IfOk, map, true};
ghost use Rattle.std.specs.List.{list_all};
ghost use Rattle.lvish_syntax.specs.Words.{is_name};
ghost use Rattle.lvish_checks.specs.Form.{variable_line, pair_kind, pair_line, pool_line, proc_line, declaration_form};

use crate::form::term::simple_kind;
use crate::line::Line;
use crate::word::{is, is_name};
use lvish_base::Boxed;
use lvish_syntax::{Declaration, Identifier, Identifiers, SimpleKind, VariableKind};
use std::alloc::{AllocError, Global};

fn are_names(words: &[&[u8]]) -> bool
    ensures { result ≡ list_all is_name (map (λ w. w.now) words.now) }
{
    for word in words {
        if !is_name(word) {
            return false;
        }
    }
    true
}

/// The names that words write.
pub fn names_of(alloc: Global, words: &[&[u8]]) -> Result<Identifiers, AllocError>
    requires { list_all is_name (map (λ w. w.now) words.now) ≡ true }
    ensures { IfOk result (λ n. n ≡ map (λ w. w.now) words.now) }
{
    let mut names = Vec::with_capacity(alloc, words.len())?;
    for word in words {
        names.push(Identifier::new(word))?;
    }
    Ok(Identifiers::from(names))
}

#[tactic(auto, unfolding(crate::specs::Form::variable_line))]
fn variable_line(alloc: Global, kind: VariableKind, words: &[&[u8]]) -> Result<Line, AllocError>
    ensures { IfOk result (λ l. l ≡ variable_line kind (map (λ w. w.now) words.now)) }
{
    match words {
        [name] if is_name(name) => {
            let name = Identifier::new(name);
            Ok(Line::Declare(Boxed::new(alloc, Declaration::Variable(name, kind))?))
        }
        _ => Ok(Line::Bad),
    }
}

/// The kind of a pair with these sides.
fn pair_kind(first: &[u8], second: &[u8]) -> Option<VariableKind>
    ensures { result ≡ pair_kind first.now second.now }
{
    match (simple_kind(first), simple_kind(second)) {
        (Some(first), Some(second)) => Some(VariableKind::Pair(first, second)),
        _ => None,
    }
}

#[tactic(auto, unfolding(crate::specs::Form::pair_line))]
fn pair_line(alloc: Global, words: &[&[u8]]) -> Result<Line, AllocError>
    ensures { IfOk result (λ l. l ≡ pair_line (map (λ w. w.now) words.now)) }
{
    match words {
        [name, first, second] if is_name(name) => match pair_kind(first, second) {
            Some(kind) => {
                let name = Identifier::new(name);
                Ok(Line::Declare(Boxed::new(alloc, Declaration::Variable(name, kind))?))
            }
            None => Ok(Line::Bad),
        },
        _ => Ok(Line::Bad),
    }
}

#[tactic(auto, unfolding(crate::specs::Form::pool_line))]
fn pool_line(alloc: Global, words: &[&[u8]]) -> Result<Line, AllocError>
    ensures { IfOk result (λ l. l ≡ pool_line (map (λ w. w.now) words.now)) }
{
    match words {
        [pool, variable] if is_name(pool) && is_name(variable) => {
            let pool = Identifier::new(pool);
            let variable = Identifier::new(variable);
            Ok(Line::Declare(Boxed::new(alloc, Declaration::Pool(pool, variable))?))
        }
        _ => Ok(Line::Bad),
    }
}

#[tactic(auto, unfolding(crate::specs::Form::proc_line))]
fn proc_line(alloc: Global, words: &[&[u8]]) -> Result<Line, AllocError>
    ensures { IfOk result (λ l. l ≡ proc_line (map (λ w. w.now) words.now)) }
{
    match words {
        [] => Ok(Line::Bad),
        [name, rest @ ..] => {
            if is_name(name) && are_names(rest) {
                let name = Identifier::new(name);
                let parameters = names_of(alloc, rest)?;
                Ok(Line::Proc(Boxed::new(alloc, name)?, Boxed::new(alloc, parameters)?))
            } else {
                Ok(Line::Bad)
            }
        }
    }
}

/// What a line says that begins with a kind of variable, with `pool` or with `proc`.
pub fn declaration_form(alloc: Global, word: &[u8], rest: &[&[u8]]) -> Result<Line, AllocError>
    ensures { IfOk result (λ l. l ≡ declaration_form word.now (map (λ w. w.now) rest.now)) }
{
    if is(word, b"cell") {
        variable_line(alloc, VariableKind::Simple(SimpleKind::Cell), rest)
    } else if is(word, b"set") {
        variable_line(alloc, VariableKind::Simple(SimpleKind::Set), rest)
    } else if is(word, b"max") {
        variable_line(alloc, VariableKind::Simple(SimpleKind::Max), rest)
    } else if is(word, b"map") {
        variable_line(alloc, VariableKind::Map, rest)
    } else if is(word, b"pair") {
        pair_line(alloc, rest)
    } else if is(word, b"tally") {
        variable_line(alloc, VariableKind::Tally, rest)
    } else if is(word, b"pool") {
        pool_line(alloc, rest)
    } else if is(word, b"proc") {
        proc_line(alloc, rest)
    } else {
        Ok(Line::Bad)
    }
}
