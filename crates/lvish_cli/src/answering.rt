ghost use Rattle.std.specs.Prelude.{◌≡◌, IfErr, IfOk, false};
ghost use Rattle.lvish_cli.specs.Orders.{IsInBounds, asks_format};
ghost use Rattle.lvish_cli.specs.Answers.{IsAnswer, IsAnswerAbout, IsUnanswered, CanMeet, IsScriptAnswer};

use crate::checking::check_answer;
use crate::graphing::graph_answer;
use crate::layout::format_answer;
use crate::order::Order;
use crate::output::Output;
use crate::refusing::refusal_answer;
use crate::running::{pick_answer, run_answer};
use crate::seeking::why_answer;
use crate::trying::try_answer;
use lvish_run::{RunFault, RunMeaning};
use lvish_script::read_script;
use lvish_syntax::Script;
use std::alloc::Global;
use std::sync::Wait;
use std::thread::Threads;

/// The answer to an order about the script that the input spells.
///
/// # Errors
///
/// `Memory` where a growth was refused; of a run by workers the fault that left no report.
pub fn answer_to<R: Threads + Wait + Sync>(
    rt: &R,
    alloc: Global,
    order: &Order,
    input: &[u8],
) -> Result<Output, RunFault>
    requires { IsInBounds order.now }
    ensures ok { IfOk result (λ answer.
        IsAnswer ⟦<Script as RunMeaning>⟧ order.now input.now answer.status answer.text.items) }
    ensures err { IfErr result (λ fault. IsUnanswered order.now input.now fault) }
{
    if order.asks_format() {
        return Ok(format_answer(alloc, input)?);
    }
    answer_about(rt, alloc, order, input)
}

/// The answer to an order about the script that the input spells, or its first fault.
fn answer_about<R: Threads + Wait + Sync>(
    rt: &R,
    alloc: Global,
    order: &Order,
    input: &[u8],
) -> Result<Output, RunFault>
    requires bounds { IsInBounds order.now }
    requires about { asks_format order.now ≡ false }
    ensures ok { IfOk result (λ answer.
        IsAnswerAbout ⟦<Script as RunMeaning>⟧ order.now input.now answer.status answer.text.items) }
    ensures err { IfErr result (λ fault. IsUnanswered order.now input.now fault) }
{
    match read_script(alloc, input) {
        Ok(script) => match script_answer(rt, alloc, order, input, &script) {
            Ok(answer) => Ok(answer.about(script)),
            Err(fault) => Err(fault),
        },
        Err(fault) => Ok(refusal_answer(alloc, fault, order.asks_json())?),
    }
}

/// The answer to an order about a script, and the text that spells it.
fn script_answer<R: Threads + Wait + Sync>(
    rt: &R,
    alloc: Global,
    order: &Order,
    text: &[u8],
    script: &Script,
) -> Result<Output, RunFault>
    requires bounds { IsInBounds order.now }
    requires about { asks_format order.now ≡ false }
    ensures ok { IfOk result (λ answer.
        IsScriptAnswer ⟦<Script as RunMeaning>⟧ script.now order.now answer.status answer.text.items) }
    ensures err { IfErr result (λ fault. CanMeet order.now fault) }
{
    match order {
        Order::Check(asked) => Ok(check_answer(alloc, script, asked)?),
        Order::Run(asked) => run_answer(rt, alloc, script, asked),
        Order::Pick(asked) => Ok(pick_answer(alloc, script, asked)?),
        Order::Try(asked) => Ok(try_answer(alloc, script, asked)?),
        Order::Why(asked) => Ok(why_answer(alloc, text, script, asked)?),
        Order::Graph(asked) => Ok(graph_answer(alloc, script, asked)?),
        Order::Format => unreachable!(),
    }
}
