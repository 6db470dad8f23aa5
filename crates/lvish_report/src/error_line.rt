//! The line of a run's error.

ghost use Rattle.std.specs.Prelude.{◌≡◌, Some, IfOk, string_bytes};
ghost use Rattle.lvish_report.specs.Text.{kind_name, variables_of, shown_variable, error_line};

use lvish_calculus::ErrorKind;
use lvish_lattice::{Numbered, Plain};
use lvish_names::TaskName;
use lvish_syntax::Declaration;
use std::alloc::{AllocError, Global};

/// The name of an error.
fn kind_name(kind: ErrorKind) -> &'static str
    ensures { result.now ≡ kind_name kind }
{
    match kind {
        ErrorKind::Conflict => "Conflict",
        ErrorKind::Frozen => "Frozen",
        ErrorKind::Late => "Late",
        ErrorKind::Overflow => "Overflow",
        ErrorKind::Zero => "Zero",
        ErrorKind::Range => "Range",
        ErrorKind::Deep => "Deep",
    }
}

/// The name of the variable with this number, `-` where there is none.
fn name_at(declarations: &[Declaration], variable: usize) -> &str
    ensures { result.now ≡ shown_variable (variables_of declarations.now) (Some variable) }
{
    let mut left = variable;
    for i in 0..declarations.len() {
        if let Declaration::Variable(name, _) = &declarations[i] {
            if left == 0 {
                return name.as_str();
            }
            left -= 1;
        }
    }
    "-"
}

/// The variable of an error, `-` where it has none.
fn variable_name(declarations: &[Declaration], variable: Option<usize>) -> &str
    ensures { result.now ≡ shown_variable (variables_of declarations.now) variable }
{
    match variable {
        None => "-",
        Some(number) => name_at(declarations, number),
    }
}

/// `error KIND VAR TASK`: what went wrong, on which variable, in which task.
pub fn error_line<E: Plain + Numbered>(
    alloc: Global,
    declarations: &[Declaration],
    kind: ErrorKind,
    variable: Option<usize>,
    task: &TaskName<E>,
) -> Result<String, AllocError>
    ensures { IfOk result (λ t. string_bytes t ≡ error_line E.key_of E.number_of (variables_of declarations.now) kind variable task.now) }
{
    let kind = kind_name(kind);
    let variable = variable_name(declarations, variable);
    format!(in alloc; "error {kind} {variable} {task}\n")
}
