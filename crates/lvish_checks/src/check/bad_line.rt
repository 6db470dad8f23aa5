ghost use Rattle.std.specs.Prelude.{◌≡◌, List};
ghost use Rattle.std.specs.List.{list_any};
ghost use Rattle.lvish_checks.specs.declared.line.Line.{Line};
ghost use Rattle.lvish_checks.specs.declared.fault.Fault.TheVariants.{BadLine};
ghost use Rattle.lvish_checks.specs.Checks.{is_procedure, is_told, is_out_of_place, stands_badly, line_fails, on_line, IsFirstOn};

use crate::declared::is_procedure;
use crate::line::Line;
use crate::version::{is_line_in, is_told, version_of};
use lvish_syntax::Version;

/// Whether a line has none of the forms, or stands where it may not: the line of the version below
/// a line with words, or a declaration below a procedure.
fn is_out_of_place(is_said: bool, begun: bool, line: &Line) -> bool
    ensures { (before : List Line) → is_said ≡ list_any is_told before → begun ≡ list_any is_procedure before → result ≡ is_out_of_place before line.now }
{
    match line {
        Line::Bad => true,
        Line::Version => is_said,
        Line::Declare(_) => begun,
        _ => false,
    }
}

fn stands_badly(version: Version, is_said: bool, begun: bool, line: &Line) -> bool
    ensures { (before : List Line) → is_said ≡ list_any is_told before → begun ≡ list_any is_procedure before → result ≡ stands_badly version before line.now }
{
    is_out_of_place(is_said, begun, line) || !is_line_in(version, line)
}

/// The first line that has none of the forms of the version, or stands where it may not.
pub fn first_bad_line(lines: &[Line]) -> Option<usize>
    ensures { IsFirstOn (on_line (line_fails BadLine lines.now) lines.now) result }
{
    let version = version_of(lines);
    let mut is_said = false;
    let mut begun = false;
    for k in 0..lines.len() {
        let line = &lines[k];
        if stands_badly(version, is_said, begun, line) {
            return Some(k + 1);
        }
        is_said |= is_told(line);
        begun |= is_procedure(line);
    }
    None
}
