ghost use Rattle.std.specs.Prelude.{◌≡◌, ◌≢◌, ◌==◌, ◌<◌, IfOk, count_by};
ghost use Rattle.std.specs.List.{AllByRecursion};
ghost use Rattle.lvish_run.specs.Crew.{AreCounts};

use crate::fault::RunFault;
use lvish_board::PackedStep;
use lvish_report::Counts;
use std::alloc::Global;

/// How many of the noted steps the worker made.
fn made_by(noted: &[PackedStep], worker: usize) -> u64
    ensures { result ≡ count_by (λ n. n.worker == worker) noted.now }
{
    noted
        .iter()
        .filter(|entry| entry.worker() == worker)
        .count() as u64
}

/// How many of the noted steps each worker made; `Mixed` where some were made by others.
pub fn count_by_worker(
    alloc: Global,
    noted: &[PackedStep],
    workers: usize,
) -> Result<Counts, RunFault>
    ensures counts { IfOk result (λ counts. AreCounts workers noted.now counts) }
    ensures mixed { result ≡ Err RunFault.Mixed → AllByRecursion (λ n. n.worker < workers) noted.now → ⊥ }
    ensures not_stopped { result ≢ Err RunFault.Stopped }
    ensures all_there { result ≢ Err RunFault.NoThread }
{
    let mut by_worker = Vec::new(alloc);
    let mut total = 0u64;
    for worker in 0..workers {
        let steps = made_by(noted, worker);
        let Some(more) = total.checked_add(steps) else {
            return Err(RunFault::Mixed);
        };
        total = more;
        if by_worker.push(steps).is_err() {
            return Err(RunFault::Memory);
        }
    }
    if total == noted.len() as u64 {
        Ok(Counts::from(by_worker))
    } else {
        Err(RunFault::Mixed)
    }
}
