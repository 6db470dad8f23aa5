ghost use Rattle.std.specs.Prelude.{◌≡◌, ◌≤◌, [], IfOk, IsOkAnd};
ghost use Rattle.lvish_cli.specs.Orders.{IsInBounds, usual_run};

use crate::commands::{
    CommandKind, USUAL_DEPTH, USUAL_SEED, USUAL_STEPS, USUAL_TIMES, USUAL_WORKERS, kind_of, program,
};
use crate::order::{
    CheckOrder, GraphOrder, NumberWords, Order, PickOrder, Picks, RunOrder, Source, TryOrder,
    UsageFault, WhyOrder,
};
use clap::error::ErrorKind;
use clap::{ArgMatches, Error};
use lvish_run::{MOST_STEPS, MOST_WORKERS};
use std::alloc::{AllocError, Global};
use std::convert::AsStr;

/// What words ask for.
#[derive(Drop)]
pub struct Words {
    pub order: Order,
    /// Where the script is.
    pub source: Source,
    /// Whether standard error explains what came of it, where they say so.
    pub why: Option<bool>,
}

/// The order that the words give, and where its script is.
pub fn order_of<S: AsStr>(alloc: Global, words: &[S]) -> Result<(Order, Source), UsageFault>
    ensures within { IfOk result (λ asked. IsInBounds asked.0) }
    // With no words, standard input is run with all defaults, and every variable is reported.
    ensures none { words.now ≡ [] → IsOkAnd result (λ asked.
        (asked.0 ≡ Order.Run usual_run) × (asked.1 ≡ Source.StandardInput)) }
{
    let Words {
        order,
        source,
        why: _,
    } = asked_by(alloc, words)?;
    Ok((order, source))
}

/// The order that the words give, where its script is, and whether they speak of explanations.
pub(crate) fn asked_by<S: AsStr>(alloc: Global, words: &[S]) -> Result<Words, UsageFault>
    ensures within { IfOk result (λ asked. IsInBounds asked.order) }
    ensures none { words.now ≡ [] → IsOkAnd result (λ asked.
        (asked.order ≡ Order.Run usual_run) × (asked.source ≡ Source.StandardInput)) }
{
    let Some(first) = words.first() else {
        let order = Order::Run(RunOrder {
            workers: USUAL_WORKERS,
            budget: USUAL_STEPS,
            all: true,
            trace: false,
            picks: false,
            json: false,
        });
        return Ok(Words {
            order,
            source: Source::StandardInput,
            why: None,
        });
    };
    let command = program(alloc, first.as_str())?;
    match command.try_get_matches_from(words) {
        Ok(matches) => asked_of(alloc, &matches),
        Err(error) => Err(refusal(alloc, &error)),
    }
}

/// What words that match ask for.
fn asked_of(alloc: Global, matches: &ArgMatches<'_>) -> Result<Words, UsageFault>
    ensures { IfOk result (λ asked. IsInBounds asked.order) }
{
    let Some((command, words)) = matches.subcommand() else {
        return Err(UsageFault::Refused(String::new(alloc)));
    };
    let order = order_by(alloc, command, words)?;
    Ok(Words {
        order,
        source: source_of(alloc, words)?,
        why: words.get_str("why").map(|asked| asked == "yes"),
    })
}

/// The order of the words of a command.
fn order_by(alloc: Global, command: &str, words: &ArgMatches<'_>) -> Result<Order, UsageFault>
    ensures { IfOk result IsInBounds }
{
    let Some(kind) = kind_of(command) else {
        return Err(UsageFault::Refused(String::new(alloc)));
    };
    Ok(match kind {
        CommandKind::Check => check_of(words),
        CommandKind::Run => run_of(words),
        CommandKind::Pick => pick_of(alloc, words)?,
        CommandKind::Try => try_of(words),
        CommandKind::Why => why_of(alloc, words)?,
        CommandKind::Graph => Order::Graph(GraphOrder {
            dot: words.get_flag("dot"),
        }),
        CommandKind::Format => Order::Format,
    })
}

/// Where the script of the words is: `-` is standard input.
fn source_of(alloc: Global, words: &ArgMatches<'_>) -> Result<Source, AllocError> {
    let path = words.get_str("file").unwrap_or("-");
    if path == "-" {
        return Ok(Source::StandardInput);
    }
    Ok(Source::File(String::from_str(alloc, path)?))
}

/// The order of the words of a check.
fn check_of(words: &ArgMatches<'_>) -> Order
    ensures { IsInBounds result }
{
    Order::Check(CheckOrder {
        ends: words.get_flag("ends"),
        alike: words.get_flag("alike"),
        budget: budget_of(words),
        json: words.get_flag("json"),
    })
}

/// The order of the words of a run.
fn run_of(words: &ArgMatches<'_>) -> Order
    ensures { IsInBounds result }
{
    Order::Run(RunOrder {
        workers: workers_of(words),
        budget: budget_of(words),
        all: words.get_flag("all"),
        trace: words.get_flag("trace"),
        picks: words.get_flag("picks"),
        json: words.get_flag("json"),
    })
}

/// The order of the words of a run by picks.
fn pick_of(alloc: Global, words: &ArgMatches<'_>) -> Result<Order, AllocError>
    ensures { IfOk result IsInBounds }
{
    Ok(Order::Pick(PickOrder {
        picks: picks_of(alloc, words)?,
        budget: budget_of(words),
        all: words.get_flag("all"),
        json: words.get_flag("json"),
    }))
}

/// The order of the words of runs by drawn picks.
fn try_of(words: &ArgMatches<'_>) -> Order
    ensures { IsInBounds result }
{
    Order::Try(TryOrder {
        times: words.get_one::<u64>("times").unwrap_or(USUAL_TIMES),
        seed: words.get_one::<u64>("seed").unwrap_or(USUAL_SEED),
        budget: budget_of(words),
        json: words.get_flag("json"),
    })
}

/// The order of words that ask how an event came about.
fn why_of(alloc: Global, words: &ArgMatches<'_>) -> Result<Order, AllocError>
    ensures { IfOk result IsInBounds }
{
    Ok(Order::Why(WhyOrder {
        variable: String::from_str(alloc, words.get_str("variable").unwrap_or(""))?,
        numbers: numbers_of(alloc, words)?,
        budget: budget_of(words),
        depth: words.get_one::<u64>("depth").unwrap_or(USUAL_DEPTH),
        dot: words.get_flag("dot"),
    }))
}

/// The number of workers, as it is given or usual.
fn workers_of(words: &ArgMatches<'_>) -> usize
    ensures least { 1 ≤ result }
    ensures most { result ≤ MOST_WORKERS }
{
    let workers = words.get_one::<usize>("workers").unwrap_or(USUAL_WORKERS);
    workers.clamp(1, MOST_WORKERS)
}

/// After how many steps a run is stopped, as it is given or usual.
fn budget_of(words: &ArgMatches<'_>) -> u64
    ensures { result ≤ MOST_STEPS }
{
    let budget = words.get_one::<u64>("steps").unwrap_or(USUAL_STEPS);
    budget.min(MOST_STEPS)
}

/// The picks that are given.
fn picks_of(alloc: Global, words: &ArgMatches<'_>) -> Result<Picks, AllocError> {
    let mut picks = Vec::new(alloc);
    if let Some(numbers) = words.get_many::<u64>("picks") {
        for number in numbers {
            if let Ok(number) = number {
                picks.push(number)?;
            }
        }
    }
    Ok(Picks::from(picks))
}

/// The numbers of an event and of picks that are given.
fn numbers_of(alloc: Global, words: &ArgMatches<'_>) -> Result<NumberWords, AllocError> {
    let mut numbers = Vec::new(alloc);
    if let Some(given) = words.get_many::<i64>("numbers") {
        for number in given {
            if let Ok(number) = number {
                numbers.push(number)?;
            }
        }
    }
    Ok(NumberWords::from(numbers))
}

/// Help that was asked for, or why words are refused.
fn refusal(alloc: Global, error: &Error) -> UsageFault {
    if error.kind() == ErrorKind::OutOfMemory {
        return UsageFault::Memory;
    }
    match error.to_string(alloc) {
        Ok(text) if error.use_stderr() => UsageFault::Refused(text),
        Ok(text) => UsageFault::Help(text),
        Err(_) => UsageFault::Memory,
    }
}
