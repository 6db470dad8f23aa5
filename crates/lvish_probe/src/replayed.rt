//! Runs of a script by workers and by picks, each of them replayed from its trace.

mod comparing;
mod otherwise;
mod replay_counts;
mod replay_question;
mod retracing;
mod runs;

use crate::answer::{ProbeAnswer, done, misuse, refusal};
use crate::host::Host;
use lvish_script::read_script;
use lvish_syntax::Script;
use otherwise::Otherwise;
use replay_counts::ReplayCounts;
use replay_question::{ReplayQuestion, asked_by};
use runs::replay_all;
use std::alloc::AllocError;

/// Whether the script's runs by workers, and the one by no picks, are what their reports say; or the
/// first thing that differs, with the number of workers.
pub fn runs_replayed<R: Host>(
    rt: &R,
    words: &[String],
    script: &[u8],
) -> Result<ProbeAnswer, AllocError> {
    let alloc = rt.alloc();
    let Some(asked) = asked_by(words) else {
        return misuse(alloc, "no replay\n");
    };
    match read_script(alloc, script) {
        Ok(script) => replayed_by_all(rt, &script, asked),
        Err(refused) => refusal(alloc, &refused),
    }
}

/// The answer about the runs by picks and by each number of workers.
fn replayed_by_all<R: Host>(
    rt: &R,
    script: &Script,
    asked: ReplayQuestion,
) -> Result<ProbeAnswer, AllocError> {
    let mut counts = ReplayCounts::new(rt.alloc());
    match replay_all(rt, script, asked, &mut counts) {
        Ok(()) => Ok(done(counts.text(rt.alloc(), asked)?)),
        Err(Otherwise::Memory) => Err(AllocError),
        Err(why) => {
            let text = counts.fault_text(rt.alloc(), why)?;
            Ok(ProbeAnswer { status: 1, text })
        }
    }
}
