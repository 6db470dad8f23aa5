//! The words that the program knows, with their help.

use crate::arguments::{
    ALIKE, ALL, Argument, DEPTH, DOT, ENDS, FILE, JSON, NUMBERS, PICKS, PICKS_LINE, SEED, STEPS,
    TIMES, TRACE, TRIED_STEPS, VARIABLE, WHY, WORKERS, with_arguments,
};
use clap::Command;
use std::alloc::{AllocError, Global};

/// The budget of a run whose words give none.
pub const USUAL_STEPS: u64 = 100_000;

/// The number of workers of a run whose words give none.
pub const USUAL_WORKERS: usize = 2;

/// The number of runs that are tried where words give none.
pub const USUAL_TIMES: u64 = 100;

/// The seed of runs that are tried where words give none: always the same, so that answers are alike.
pub const USUAL_SEED: u64 = 1;

/// How many causes deep a tree is printed where words don't say.
pub const USUAL_DEPTH: u64 = 10;

/// What a command asks for.
#[derive(Clone, Copy)]
pub enum CommandKind {
    Check,
    Run,
    Pick,
    Try,
    Why,
    Graph,
    Format,
}

/// What is told of a command: its name, what it asks for, what it does, its help, and how it is written where its arguments
/// don't say it.
#[derive(Clone, Copy)]
struct CommandText {
    name: &'static str,
    kind: CommandKind,
    about: &'static str,
    help: &'static str,
    usage: Option<&'static str>,
}

/// The commands. They are data, since a function for each would be proved for each.
const COMMANDS: [CommandText; 7] = [
    CommandText {
        name: "check",
        kind: CommandKind::Check,
        about: "Says whether a text is a script",
        help: CHECK_HELP,
        usage: None,
    },
    CommandText {
        name: "run",
        kind: CommandKind::Run,
        about: "Runs a script and prints its report",
        help: RUN_HELP,
        usage: None,
    },
    CommandText {
        name: "pick",
        kind: CommandKind::Pick,
        about: "Runs a script by picks and prints its trace and its report",
        help: PICK_HELP,
        usage: None,
    },
    CommandText {
        name: "try",
        kind: CommandKind::Try,
        about: "Runs a script many times by drawn picks and prints each outcome once",
        help: TRY_HELP,
        usage: None,
    },
    CommandText {
        name: "why",
        kind: CommandKind::Why,
        about: "Runs a script by picks and prints how one event came about",
        help: WHY_HELP,
        usage: Some(WHY_USAGE),
    },
    CommandText {
        name: "graph",
        kind: CommandKind::Graph,
        about: "Prints what each procedure of a script does",
        help: GRAPH_HELP,
        usage: None,
    },
    CommandText {
        name: "fmt",
        kind: CommandKind::Format,
        about: "Prints a text in one layout",
        help: FORMAT_HELP,
        usage: None,
    },
];

/// The arguments of a command.
fn arguments_of(kind: CommandKind) -> &'static [Argument] {
    match kind {
        CommandKind::Check => CHECK.as_slice(),
        CommandKind::Run => RUN.as_slice(),
        CommandKind::Pick => PICK.as_slice(),
        CommandKind::Try => TRY.as_slice(),
        CommandKind::Why => DERIVATION.as_slice(),
        CommandKind::Graph => GRAPH.as_slice(),
        CommandKind::Format => FORMAT.as_slice(),
    }
}

/// What is told of the command of this name, if there is one.
fn text_of(name: &str) -> Option<CommandText> {
    for text in COMMANDS.as_slice() {
        if text.name == name {
            return Some(*text);
        }
    }
    None
}

/// What the command of this name asks for, if there is one.
pub fn kind_of(name: &str) -> Option<CommandKind> {
    let text = text_of(name)?;
    Some(text.kind)
}

/// The program with the command of this name, or with all commands where none has it. So words that name
/// one don't wait for the others.
pub fn program<'a>(alloc: Global, name: &str) -> Result<Command<'a>, AllocError> {
    let program = without_commands(alloc)?;
    match text_of(name) {
        Some(text) => with_command(alloc, program, &text),
        None => with_all(alloc, program),
    }
}

/// What the program says of itself.
fn without_commands<'a>(alloc: Global) -> Result<Command<'a>, AllocError> {
    Ok(
        Command::new(alloc, "lvish")
            .bin_name("lvish")?
            .no_binary_name(true)
            .version(VERSION)
            .about("Runs scripts whose tasks share variables that only grow")
            .override_usage(PROGRAM_USAGE)
            .after_help(PROGRAM_HELP)
            .subcommand_required(true)
            .disable_help_subcommand(true),
    )
}

/// The program with all commands.
fn with_all<'a>(alloc: Global, program: Command<'a>) -> Result<Command<'a>, AllocError> {
    let mut program = program;
    for text in COMMANDS.as_slice() {
        program = with_command(alloc, program, text)?;
    }
    Ok(program)
}

/// The program with one command more.
fn with_command<'a>(
    alloc: Global,
    program: Command<'a>,
    text: &CommandText,
) -> Result<Command<'a>, AllocError> {
    let command = command_of(alloc, text)?;
    program.subcommand(command)
}

/// The command of which this is told.
fn command_of<'a>(alloc: Global, text: &CommandText) -> Result<Command<'a>, AllocError> {
    let command = Command::new(alloc, text.name)
        .about(text.about)
        .after_help(text.help);
    let command = match text.usage {
        Some(usage) => command.override_usage(usage),
        None => command,
    };
    with_arguments(alloc, command, arguments_of(text.kind))
}

/// What `--version` prints behind the name of the program.
const VERSION: &str = "0.1.0";

const PROGRAM_USAGE: &str = "lvish
       lvish check FILE [--ends] [--alike] [--steps N] [--json] [--why[=no]]
       lvish run FILE [--workers N] [--steps N] [--all] [--trace] [--picks] [--json] [--why[=no]]
       lvish pick FILE [--steps N] [--all] [--json] [--why[=no]] [N]...
       lvish try FILE [--times N] [--seed S] [--steps N] [--json] [--why[=no]]
       lvish why FILE VAR [KEY] NUMBER [N]... [--steps N] [--depth N] [--dot]
       lvish graph FILE [--dot]
       lvish fmt FILE
       lvish --version";

const PROGRAM_HELP: &str = "\
With no words, standard input is run as by `lvish run - --all`. `-` as FILE is standard input.

What came of a check or a run is explained on standard error, where that is a terminal or with
--why, and not with --why=no: why a script is refused, what stands behind an error, where tasks are
blocked, where the steps of a used-up budget went. Colours are only for terminals, and only without
NO_COLOR.

Example:
  lvish run first.lvish --all

Statuses:
  0  the text is a script; the run ended and no task is blocked; all runs agree; the event is there;
     or help was asked for
  1  the run ended with blocked tasks; runs don't agree; or the event isn't there
  2  the words are refused
  3  the script can't be opened or read
  4  the script is refused: a line says which fault it has, and where
  5  the run is in error: a line says which error, on which variable, in which task
  6  the run was stopped by its budget
  7  memory was refused
  8  another fault: a thread can't be started, or standard output is full";

/// The arguments of `check`.
static CHECK: [Argument; 6] = [FILE, ENDS, ALIKE, TRIED_STEPS, JSON, WHY];

const CHECK_HELP: &str = "\
Prints `ok`, or `refused NUMBER NAME line L`: the first fault, and the line that has it.

With --ends a second line follows `ok`. `always ends N` says that the script, whatever the schedule
and the number of workers, never errs and never takes more than N steps, and that every run that
goes on to its end has the same report; else it is `unknown`. One run shows it, which --steps
limits; of a script with a line `freeze` none does.

With --alike one more line follows. `always alike N` says the same of a script that may freeze: its
lines show that `main` freezes each variable after all that write to it, and one run, which --steps
limits, shows the rest. Else `ends alike` says that all runs that end without an error have the same
report: the tasks freeze one variable at most, or no task but `main` freezes. Else it is `unknown`.

Examples:
  lvish check first.lvish
  lvish check first.lvish --ends --alike

Statuses: 0 a script, 3 unreadable, 4 refused, 7 memory, 8 another fault";

/// The arguments of `run`.
static RUN: [Argument; 8] = [FILE, WORKERS, STEPS, ALL, TRACE, PICKS_LINE, JSON, WHY];

const RUN_HELP: &str = "\
The report has a line for each frozen variable, or for each with --all, and then
`steps N` and `blocked N`.

With --trace the trace stands before it, as `lvish pick` prints it. With --picks the last line is
`picks N N ..`: `lvish pick` with these numbers and the same --steps makes just this run again.

Examples:
  lvish run first.lvish --steps 500 --all
  lvish run first.lvish --workers 8 --trace --picks

Statuses: 0 ended, 1 ended with blocked tasks, 3 unreadable, 4 script refused,
5 run in error, 6 stopped by its budget, 7 memory, 8 another fault";

/// The arguments of `pick`.
static PICK: [Argument; 6] = [FILE, PICKS, STEPS, ALL, JSON, WHY];

const PICK_HELP: &str = "\
At each step the tasks and handlers that can go on are counted from 0, in the order of their
names with tasks first, and the one whose number is N modulo their count makes the step.
After the last N each step takes number 0.

The trace has a line for each step: `run TASK`, or `hand TASK` with the task that a handler
starts. The report comes after it.

Example:
  lvish pick first.lvish --all 0 1 1

Statuses: 0 ended, 1 ended with blocked tasks, 3 unreadable, 4 script refused,
5 run in error, 6 stopped by its budget, 7 memory, 8 another fault";

/// The arguments of `try`.
static TRY: [Argument; 6] = [FILE, TIMES, SEED, STEPS, JSON, WHY];

const TRY_HELP: &str = "\
Each outcome stands once, with how often it came and a list of few picks that gives it:
`lvish pick` with them makes its run again. The same seed draws the same runs.

Example:
  lvish try crossing.lvish --times 1000 --seed 7

Statuses: 0 all runs agree, 1 they don't, 3 unreadable, 4 script refused, 7 memory,
8 another fault";

/// The arguments of `why`.
static DERIVATION: [Argument; 6] = [FILE, VARIABLE, NUMBERS, STEPS, DEPTH, DOT];

const WHY_HELP: &str = "\
An event of a cell, a set or a counter is its NUMBER. One of a map, a pair or a tally has a KEY
before it: of a pair the side, 1 or 2. The numbers behind it pick the steps of the run, as of
`lvish pick`.

The tree says which put brought the event, in which task and on which line, which event started that
task, and what it had read, and so on down to `main`. Of an event that isn't there it says which
tasks could put it, and where they are blocked.

Examples:
  lvish why reach.lvish reached 3
  lvish why reach.lvish link 1 2 --depth 4

Statuses: 0 the event is there, 1 it isn't, 2 the script has no such variable, or a number is
missing or too great, 3 unreadable, 4 script refused, 7 memory, 8 another fault";

const WHY_USAGE: &str = "lvish why FILE VAR [KEY] NUMBER [N]... [--steps N] [--depth N] [--dot]";

/// The arguments of `graph`.
static GRAPH: [Argument; 2] = [FILE, DOT];

const GRAPH_HELP: &str = "\
Below the name of each procedure stands what it does: which variables it puts into, reads and
freezes, for which pools it waits, which procedures it forks and calls, and by which it handles a
pool.

Example:
  lvish graph reach.lvish --dot

Statuses: 0 printed, 3 unreadable, 4 script refused, 7 memory, 8 another fault";

/// The arguments of `fmt`.
static FORMAT: [Argument; 1] = [FILE];

const FORMAT_HELP: &str = "\
One space stands between words, and two for each open block and procedure. Comments and empty lines
stay. The printed text spells the same script, or has the same fault on the same line.

Example:
  lvish fmt first.lvish

Statuses: 0 printed, 3 unreadable, 4 the text, or the printed one, is too long for a script,
7 memory, 8 another fault";
