ghost use Rattle.std.specs.Prelude.{◌≤◌, IfOk};
ghost use Rattle.lvish_cli.specs.Tries.{IsTriedStatus, IsTryAnswer};

use crate::order::TryOrder;
use crate::output::Output;
use crate::status::Status;
use lvish_json::tried_json;
use lvish_run::MOST_STEPS;
use lvish_syntax::Script;
use lvish_try::{Tried, tried_text, try_runs};
use std::alloc::{AllocError, Global};

/// The answer to a script that is run by drawn picks.
pub fn try_answer(alloc: Global, script: &Script, asked: &TryOrder) -> Result<Output, AllocError>
    requires { asked.now.budget ≤ MOST_STEPS }
    ensures { IfOk result (λ answer. IsTryAnswer script.now asked.now answer.status answer.text.items) }
{
    let tried = try_runs(alloc, script, asked.times, asked.seed, asked.budget)?;
    let text = if asked.json {
        tried_json(alloc, script, &tried)?
    } else {
        tried_text(alloc, script, &tried)?.into_bytes()
    };
    Ok(Output::said(status_of(&tried), text))
}

/// Whether all runs agree.
fn status_of(tried: &Tried) -> Status
    ensures { IsTriedStatus tried.now result }
{
    if tried.agree() {
        Status::Done
    } else {
        Status::Differ
    }
}
