ghost use Rattle.std.specs.Prelude.{◌≡◌, List, IfOk, true};
ghost use Rattle.std.specs.Option.{option_map_or};
ghost use Rattle.lvish_syntax.specs.Sound.{is_apart};
ghost use Rattle.lvish_syntax.specs.declared.declaration.Declaration.{Declaration};
ghost use Rattle.lvish_checks.specs.declared.line.Line.{Line};
ghost use Rattle.lvish_checks.specs.declared.fault.Fault.TheVariants.{Compatible};
ghost use Rattle.lvish_checks.specs.Checks.{command_mixes, declarations, mixes, line_fails, on_line, IsFirstOn};
ghost use Rattle.lvish_checks.specs.Known.{AreKinds};

use crate::fit::is_apart;
use crate::kinds_by_name::{KindsByName, kinds_of};
use crate::line::Line;
use lvish_syntax::{Command, SimpleKind, Threshold};
use std::alloc::{AllocError, Global};

/// Whether no two members of a threshold are compatible at its kind, where there is one.
fn keeps_apart(kind: Option<SimpleKind>, threshold: &Threshold) -> bool
    ensures { result ≡ option_map_or (λ k. is_apart k threshold.now) kind true }
{
    match kind {
        Some(kind) => is_apart(kind, threshold),
        None => true,
    }
}

fn command_mixes(kinds: &KindsByName, command: &Command) -> bool
    ensures { (ds : List Declaration) → AreKinds kinds.now.variables ds → result ≡ command_mixes ds command.now }
{
    match command {
        Command::Get(_, variable, threshold) => !keeps_apart(kinds.of_whole(variable), threshold),
        Command::GetAt(_, variable, place, threshold) => {
            !keeps_apart(kinds.of_place(variable, place), threshold)
        }
        _ => false,
    }
}

fn mixes(kinds: &KindsByName, line: &Line) -> bool
    ensures { (lines : List Line) → AreKinds kinds.now.variables (declarations lines) → result ≡ mixes lines line.now }
{
    match line {
        Line::Do(command) => command_mixes(kinds, command.get()),
        _ => false,
    }
}

/// The first line with an `in` of which two different members are compatible.
pub fn first_compatible(alloc: Global, lines: &[Line]) -> Result<Option<usize>, AllocError>
    ensures { IfOk result (λ found. IsFirstOn (on_line (line_fails Compatible lines.now) lines.now) found) }
{
    let kinds = kinds_of(alloc, lines)?;
    for k in 0..lines.len() {
        if mixes(&kinds, &lines[k]) {
            return Ok(Some(k + 1));
        }
    }
    Ok(None)
}
