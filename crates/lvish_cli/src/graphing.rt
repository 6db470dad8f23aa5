ghost use Rattle.std.specs.Prelude.{IfOk};
ghost use Rattle.lvish_cli.specs.Graphs.{IsGraphAnswer};

use crate::order::GraphOrder;
use crate::output::Output;
use crate::status::Status;
use lvish_graph::{graph_dot, graph_text};
use lvish_syntax::Script;
use std::alloc::{AllocError, Global};

/// The answer about what the script's procedures do.
pub fn graph_answer(
    alloc: Global,
    script: &Script,
    asked: &GraphOrder,
) -> Result<Output, AllocError>
    ensures { IfOk result (λ answer. IsGraphAnswer script.now asked.now answer.status answer.text.items) }
{
    let text = if asked.dot {
        graph_dot(alloc, script)?
    } else {
        graph_text(alloc, script)?
    };
    Ok(Output::said(Status::Done, text.into_bytes()))
}
