//! The arguments of commands, with their help, as data: a function for each would be proved for each.

use clap::builder::ValueParser;
use clap::{Arg, ArgAction, Command, value_parser};
use lvish_run::{MOST_STEPS, MOST_WORKERS};
use std::alloc::{AllocError, Global};

/// The greatest pick.
pub const MOST_PICK: i64 = 1_000_000;

/// The values of `--why`.
const WHETHER: [&str; 2] = ["yes", "no"];

/// What an argument takes.
#[derive(Clone, Copy)]
enum Takes {
    /// A text, which has to be there.
    Text,
    /// Nothing: it is there or not.
    Nothing,
    /// The same, where another one isn't there.
    NothingWithout(&'static str),
    /// A number from the least to the most, or the usual one.
    Number(i64, i64, &'static str),
    /// Any number, or the usual one.
    AnyNumber(&'static str),
    /// Picks.
    Picks,
    /// An event's number, behind its key where it has one, and picks.
    Numbers,
    /// Whether to do it, which may be left out.
    Whether,
}

/// An argument: its name, how its value is called, its help, and what it takes.
#[derive(Clone, Copy)]
pub struct Argument {
    name: &'static str,
    value: &'static str,
    help: &'static str,
    takes: Takes,
}

pub const FILE: Argument = Argument {
    name: "file",
    value: "FILE",
    help: "The script, or - for standard input",
    takes: Takes::Text,
};

pub const STEPS: Argument = Argument {
    name: "steps",
    value: "N",
    help: "Stop the run after N steps, 0 to 1000000",
    takes: Takes::Number(0, MOST_STEPS as i64, "100000"),
};

pub const ALL: Argument = Argument {
    name: "all",
    value: "",
    help: "Report every variable, not frozen ones alone",
    takes: Takes::Nothing,
};

pub const ENDS: Argument = Argument {
    name: "ends",
    value: "",
    help: "Say as well whether all runs of the script end",
    takes: Takes::Nothing,
};

pub const ALIKE: Argument = Argument {
    name: "alike",
    value: "",
    help: "Say as well whether all runs or all ends of the script are the same",
    takes: Takes::Nothing,
};

pub const WHY: Argument = Argument {
    name: "why",
    value: "WHETHER",
    help: "Explain on standard error what came of it, as on a terminal",
    takes: Takes::Whether,
};

pub const TRIED_STEPS: Argument = Argument {
    name: "steps",
    value: "N",
    help: "Try so many steps for --ends and --alike, 0 to 1000000",
    takes: Takes::Number(0, MOST_STEPS as i64, "100000"),
};

pub const WORKERS: Argument = Argument {
    name: "workers",
    value: "N",
    help: "How many workers run the script, 1 to 8",
    takes: Takes::Number(1, MOST_WORKERS as i64, "2"),
};

pub const PICKS: Argument = Argument {
    name: "picks",
    value: "N",
    help: "Which of the enabled steps is made, in turn, 0 to 1000000",
    takes: Takes::Picks,
};

pub const JSON: Argument = Argument {
    name: "json",
    value: "",
    help: "Print one JSON object, as docs/JSON.md describes it",
    takes: Takes::Nothing,
};

pub const TRACE: Argument = Argument {
    name: "trace",
    value: "",
    help: "Print the trace before the report",
    takes: Takes::NothingWithout("json"),
};

pub const PICKS_LINE: Argument = Argument {
    name: "picks",
    value: "",
    help: "Print as well the picks that make this run again",
    takes: Takes::Nothing,
};

pub const TIMES: Argument = Argument {
    name: "times",
    value: "N",
    help: "How many runs are made, 1 to 1000000",
    takes: Takes::Number(1, 1_000_000, "100"),
};

pub const SEED: Argument = Argument {
    name: "seed",
    value: "S",
    help: "From which picks are drawn, 0 to 18446744073709551615",
    takes: Takes::AnyNumber("1"),
};

pub const VARIABLE: Argument = Argument {
    name: "variable",
    value: "VAR",
    help: "The variable",
    takes: Takes::Text,
};

pub const NUMBERS: Argument = Argument {
    name: "numbers",
    value: "NUMBER",
    help: "The event's number, after its key where the variable has keys; then picks",
    takes: Takes::Numbers,
};

pub const DEPTH: Argument = Argument {
    name: "depth",
    value: "N",
    help: "How many causes deep the tree goes, 1 to 1000",
    takes: Takes::Number(1, 1_000, "10"),
};

pub const DOT: Argument = Argument {
    name: "dot",
    value: "",
    help: "Print it for Graphviz",
    takes: Takes::Nothing,
};

/// An argument that is there or not.
fn flag<'a>(arg: Arg<'a>, name: &'static str) -> Arg<'a> {
    arg.long(name).action(ArgAction::SetTrue)
}

/// A number behind its name, or the usual one.
fn number<'a>(arg: Arg<'a>, argument: &Argument, usual: &'static str) -> Arg<'a> {
    arg.long(argument.name)
        .value_name(argument.value)
        .default_value(usual)
}

/// Any number of numbers.
fn numbers<'a>(arg: Arg<'a>, value: &'static str) -> Arg<'a> {
    arg.value_name(value).action(ArgAction::Append)
}

/// Whether to do something.
fn whether<'a>(arg: Arg<'a>, argument: &Argument) -> Arg<'a> {
    arg.long(argument.name)
        .value_name(argument.value)
        .value_parser(WHETHER.as_slice())
        .num_args(0..=1)
        .require_equals(true)
        .default_missing_value("yes")
}

/// An argument that takes what one of the data above says.
fn taking<'a>(arg: Arg<'a>, argument: &Argument) -> Result<Arg<'a>, AllocError> {
    match argument.takes {
        Takes::Text => Ok(
            arg.value_name(argument.value)
                .value_parser(ValueParser::NonEmptyString)
                .required(true),
        ),
        Takes::Nothing => Ok(flag(arg, argument.name)),
        Takes::NothingWithout(other) => flag(arg, argument.name).conflicts_with(other),
        Takes::Number(least, most, usual) => Ok(number(arg, argument, usual).value_parser(
            value_parser!(u64).range(least..=most),
        )),
        Takes::AnyNumber(usual) => Ok(number(arg, argument, usual).value_parser(value_parser!(
            u64
        ))),
        Takes::Picks => Ok(
            numbers(arg, argument.value)
                .value_parser(value_parser!(u64).range(0..=MOST_PICK))
                .num_args(0..),
        ),
        Takes::Numbers => Ok(
            numbers(arg, argument.value)
                .value_parser(value_parser!(i64))
                .num_args(1..)
                .allow_negative_numbers(true)
                .required(true),
        ),
        Takes::Whether => Ok(whether(arg, argument)),
    }
}

/// The command with these arguments.
pub fn with_arguments<'a>(
    alloc: Global,
    command: Command<'a>,
    arguments: &[Argument],
) -> Result<Command<'a>, AllocError> {
    let mut command = command;
    for argument in arguments {
        command = with_argument(alloc, command, argument)?;
    }
    Ok(command)
}

/// The command with one argument more.
fn with_argument<'a>(
    alloc: Global,
    command: Command<'a>,
    argument: &Argument,
) -> Result<Command<'a>, AllocError> {
    let arg = Arg::new(alloc, argument.name).help(argument.help);
    let arg = taking(arg, argument)?;
    command.arg(arg)
}
