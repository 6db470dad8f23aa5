ghost use Rattle.std.specs.Prelude.{◌≤◌, ◌≡◌, IfOk, string_bytes};
ghost use Rattle.lvish_cli.specs.Checked.{IsAlikeKnown, IsCheckAnswer, IsEndsKnown, checked_text};

use crate::lines::{alike_line, bound_line, ok_line};
use crate::order::CheckOrder;
use crate::output::Output;
use crate::status::Status;
use lvish_alike::ends_alike;
use lvish_json::{Alike, check_json};
use lvish_run::{MOST_STEPS, RunMeaning, always_alike, always_ends};
use lvish_syntax::Script;
use std::alloc::{AllocError, Global};

/// The answer to a script that is checked.
pub fn check_answer(
    alloc: Global,
    script: &Script,
    asked: &CheckOrder,
) -> Result<Output, AllocError>
    requires { asked.now.budget ≤ MOST_STEPS }
    ensures { IfOk result (λ answer.
        IsCheckAnswer ⟦<Script as RunMeaning>⟧ script.now asked.now answer.status answer.text.items) }
{
    let ends = ends_known(alloc, script, asked)?;
    let alike = alike_known(alloc, script, asked)?;
    let text = if asked.json {
        check_json(alloc, ends, alike)?
    } else {
        checked_text(alloc, ends, alike)?.into_bytes()
    };
    Ok(Output::said(Status::Done, text))
}

/// What is known of whether all runs of the script end, where it is asked for.
fn ends_known(
    alloc: Global,
    script: &Script,
    asked: &CheckOrder,
) -> Result<Option<Option<u64>>, AllocError>
    requires { asked.now.budget ≤ MOST_STEPS }
    ensures { IfOk result (λ known. IsEndsKnown ⟦<Script as RunMeaning>⟧.is_bound script.now asked.now.ends asked.now.budget known) }
{
    if !asked.ends {
        return Ok(None);
    }
    Ok(Some(always_ends(alloc, script, asked.budget)?))
}

/// What is known of whether all its runs come to the same end, or all its ends are alike, where it is
/// asked for.
fn alike_known(
    alloc: Global,
    script: &Script,
    asked: &CheckOrder,
) -> Result<Option<Alike>, AllocError>
    requires { asked.now.budget ≤ MOST_STEPS }
    ensures { IfOk result (λ known. IsAlikeKnown ⟦<Script as RunMeaning>⟧.is_alike_bound script.now asked.now.alike asked.now.budget known) }
{
    if !asked.alike {
        return Ok(None);
    }
    if let Some(steps) = always_alike(alloc, script, asked.budget)? {
        return Ok(Some(Alike::Always(steps)));
    }
    if ends_alike(alloc, script)? {
        Ok(Some(Alike::Ends))
    } else {
        Ok(Some(Alike::Unknown))
    }
}

/// `ok`, and the lines on what is known of all its runs.
fn checked_text(
    alloc: Global,
    ends: Option<Option<u64>>,
    alike: Option<Alike>,
) -> Result<String, AllocError>
    ensures { IfOk result (λ text. string_bytes text ≡ checked_text ends alike) }
{
    let mut text = ok_line(alloc)?;
    if let Some(bound) = ends {
        text.push_str(bound_line(alloc, bound)?.as_str())?;
    }
    if let Some(alike) = alike {
        text.push_str(alike_line(alloc, alike)?.as_str())?;
    }
    Ok(text)
}
