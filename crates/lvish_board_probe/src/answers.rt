//! What boards of a script answer, call by call.

ghost use Rattle.std.specs.Prelude.{◌≡◌, ◌≤◌};

use crate::board_desk::{write_calls, write_calls_after};
use crate::calls::Calls;
use crate::naming::{Naming, Of};
use lvish_board::Stand;
use lvish_history::Opened;
use lvish_script::{Fault, ScriptFault, read_script};
use lvish_task::ScriptCode;
use std::alloc::{AllocError, Global};
use std::marker::Brand;

/// The most steps that a run of a script may have.
const MOST_STEPS: u64 = 1_000_000;

/// The status and the text of the answer to what was read: a script, and calls that stand below it.
pub fn answer_to(alloc: Global, budget: u64, input: &str) -> Result<(u8, String), AllocError> {
    let (script, calls) = input.split_once("-- calls\n").unwrap_or((input, ""));
    match read_script(alloc, script.as_bytes()) {
        Ok(script) => {
            let code = ScriptCode::new(alloc, &script)?;
            Ok((0, answers_of(alloc, &code, budget, calls)?))
        }
        Err(refused) => Ok((4, refusal(alloc, &refused)?)),
    }
}

/// The answer about a text that is no script; none where there was no memory to read it.
fn refusal(alloc: Global, refused: &ScriptFault) -> Result<String, AllocError> {
    if let Fault::Memory = refused.fault {
        return Err(AllocError);
    }
    let (number, name, line) = (refused.fault.number(), refused.fault.name(), refused.line);
    format!(in alloc; "refused {number} {name} line {line}\n")
}

/// The calls, each with what the board answers to it.
fn answers_of(
    alloc: Global,
    code: &ScriptCode,
    budget: u64,
    calls: &str,
) -> Result<String, AllocError> {
    let mut text = String::new(alloc);
    write_one(alloc, code, &mut text, budget, calls)?;
    Ok(text)
}

/// Writes what a board with this budget answers to the calls. No board has a larger budget than a
/// run may have.
fn write_one(
    alloc: Global,
    code: &ScriptCode,
    text: &mut String,
    budget: u64,
    calls: &str,
) -> Result<(), AllocError> {
    if budget > MOST_STEPS {
        return text.push_str("no such budget\n");
    }
    let calls = match calls.split_once("another board\n") {
        Some((lines, others)) => Calls {
            lines,
            others: Some(others),
        },
        None => Calls {
            lines: calls,
            others: None,
        },
    };
    let (here, there) = (Opened::new(), Opened::new());
    write_named::<Brand, Brand>(alloc, code, text, budget, &calls, here, there)
}

/// Writes what it answers, under a name of its own, and then what another board answers, if calls are made
/// of one: that has the work that this one has left.
fn write_named<N: Naming, M: Naming>(
    alloc: Global,
    code: &ScriptCode,
    text: &mut String,
    budget: u64,
    calls: &Calls<'_>,
    here: Opened<Stand<ScriptCode>>,
    there: Opened<Stand<ScriptCode>>,
) -> Result<(), AllocError>
    requires program { code.now ≡ N.code }
    requires budget { budget ≡ N.budget }
    requires bounded { N.budget ≤ MOST_STEPS }
    requires history { here.seen.book ≡ N.book }
    requires other_program { code.now ≡ M.code }
    requires other_budget { budget ≡ M.budget }
    requires other_bounded { M.budget ≤ MOST_STEPS }
    requires other_history { there.seen.book ≡ M.book }
{
    let left = write_calls::<ScriptCode, Of<N>>(alloc, code, text, budget, calls.lines, here)?;
    let Some(lines) = calls.others else {
        return Ok(());
    };
    text.push_str("another board -> opened\n")?;
    write_calls_after::<ScriptCode, Of<M>, Of<N>>(alloc, code, text, budget, lines, left, there)
}
