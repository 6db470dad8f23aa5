ghost use Rattle.std.specs.Prelude.{◌≡◌, IfOk, length, map, take, take_while, true};
ghost use Rattle.std.specs.List.{list_all};
ghost use Rattle.std.specs.Str.{bytes_eq};
ghost use Rattle.lvish_syntax.specs.Words.{is_name};
ghost use Rattle.lvish_checks.specs.Form.{freeze_each, freeze_after, freeze_of};

use crate::form::declaration::names_of;
use crate::word::{is, is_name};
use lvish_syntax::{Command, Identifier, Identifiers};
use std::alloc::{AllocError, Global};

/// How many words at the front are names.
fn name_count(words: &[&[u8]]) -> usize
    ensures { result ≡ length (take_while is_name (map (λ w. w.now) words.now)) }
{
    words.iter().take_while(|word| is_name(word)).count()
}

/// A freeze after these pools, with what may follow them.
fn freeze_each(
    local: Identifier,
    variable: Identifier,
    pools: Identifiers,
    words: &[&[u8]],
) -> Option<Command>
    ensures { result ≡ freeze_each local variable pools (map (λ w. w.now) words.now) }
{
    match words {
        [] => Some(Command::Freeze(local, variable, pools)),
        [word, procedure] => {
            if is(word, b"each") && is_name(procedure) {
                let procedure = Identifier::new(procedure);
                Some(Command::FreezeEach(local, variable, pools, procedure))
            } else {
                None
            }
        }
        _ => None,
    }
}

/// A freeze with what stands after `after`.
fn freeze_after(
    alloc: Global,
    local: Identifier,
    variable: Identifier,
    words: &[&[u8]],
) -> Result<Option<Command>, AllocError>
    ensures { IfOk result (λ c. c ≡ freeze_after local variable (map (λ w. w.now) words.now)) }
{
    let count = name_count(words);
    if count == 0 {
        return Ok(None);
    }
    let pools = names_of(alloc, &words[..count])?;
    Ok(freeze_each(local, variable, pools, &words[count..]))
}

/// A freeze of a variable with what stands after it.
pub fn freeze_of(
    alloc: Global,
    local: Identifier,
    variable: Identifier,
    words: &[&[u8]],
) -> Result<Option<Command>, AllocError>
    ensures { IfOk result (λ c. c ≡ freeze_of local variable (map (λ w. w.now) words.now)) }
{
    match words {
        [word, rest @ ..] if is(word, b"after") => { freeze_after(alloc, local, variable, rest) }
        _ => Ok(freeze_each(local, variable, Identifiers::from(Vec::new(alloc)), words)),
    }
}
