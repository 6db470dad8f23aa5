ghost use Rattle.std.specs.Prelude.{◌≡◌, not};
ghost use Rattle.std.specs.List.{list_any};
ghost use Rattle.lvish_checks.specs.Checks.{is_main, on_whole, IsFirstOn};

use crate::line::Line;
use crate::word::is;

fn is_main(line: &Line) -> bool
    ensures { result ≡ is_main line.now }
{
    match line {
        Line::Proc(name, parameters) => {
            is(name.get().as_str().as_bytes(), b"main") && parameters.get().as_slice().is_empty()
        }
        _ => false,
    }
}

/// Whether a procedure `main` without parameters is declared.
fn has_main(lines: &[Line]) -> bool
    ensures { result ≡ list_any is_main lines.now }
{
    lines.iter().any(is_main)
}

/// Line 0, where no procedure `main` without parameters is declared.
pub fn first_no_main(lines: &[Line]) -> Option<usize>
    ensures { IsFirstOn (on_whole (not (list_any is_main lines.now))) result }
{
    if has_main(lines) { None } else { Some(0) }
}
