ghost use Rattle.std.specs.Prelude.{◌≡◌, List, IfOk};
ghost use Rattle.lvish_syntax.specs.declared.declaration.Declaration.{Declaration};
ghost use Rattle.lvish_checks.specs.declared.line.Line.{Line};
ghost use Rattle.lvish_checks.specs.declared.fault.Fault.TheVariants.{WrongKind};
ghost use Rattle.lvish_checks.specs.Checks.{command_misfits, declarations, misfits, line_fails, on_line, IsFirstOn};
ghost use Rattle.lvish_checks.specs.Known.{AreKinds, AreOfPools};

use crate::kinds_by_name::{KindsByName, kinds_of};
use crate::line::Line;
use lvish_syntax::Command;
use std::alloc::{AllocError, Global};

fn command_misfits(kinds: &KindsByName, command: &Command) -> bool
    ensures { (ds : List Declaration) → AreKinds kinds.now.variables ds → AreOfPools kinds.now.pools ds → result ≡ command_misfits ds command.now }
{
    match command {
        Command::Put(variable, _) => kinds.of_whole(variable).is_none(),
        Command::PutAt(variable, place, _) => kinds.of_place(variable, place).is_none(),
        Command::Get(_, variable, threshold) => !kinds.reads_whole(variable, threshold),
        Command::GetAt(_, variable, place, threshold) => {
            !kinds.reads_at(variable, place, threshold)
        }
        Command::Freeze(_, variable, pools) | Command::FreezeEach(_, variable, pools, _) => {
            !kinds.are_pools_of(variable, pools.as_slice())
        }
        Command::Let(_, _) | Command::Fork(_, _) | Command::Call(_, _) | Command::Handle(_, _) =>
            false,
    }
}

fn misfits(kinds: &KindsByName, line: &Line) -> bool
    ensures { (lines : List Line) → AreKinds kinds.now.variables (declarations lines) → AreOfPools kinds.now.pools (declarations lines) → result ≡ misfits lines line.now }
{
    match line {
        Line::Do(command) => command_misfits(kinds, command.get()),
        _ => false,
    }
}

/// The first line that doesn't fit the kind of its variable.
pub fn first_wrong_kind(alloc: Global, lines: &[Line]) -> Result<Option<usize>, AllocError>
    ensures { IfOk result (λ found. IsFirstOn (on_line (line_fails WrongKind lines.now) lines.now) found) }
{
    let kinds = kinds_of(alloc, lines)?;
    for k in 0..lines.len() {
        if misfits(&kinds, &lines[k]) {
            return Ok(Some(k + 1));
        }
    }
    Ok(None)
}
