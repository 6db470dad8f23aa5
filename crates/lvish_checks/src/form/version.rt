ghost use Rattle.std.specs.Prelude.{◌≡◌, map};
ghost use Rattle.lvish_checks.specs.Form.{version_line};

use crate::line::Line;
use crate::word::is;

/// What a line says that begins with `lvish`.
#[tactic(auto, unfolding(crate::specs::Form::version_line))]
pub fn version_line(words: &[&[u8]]) -> Line
    ensures { result ≡ version_line (map (λ w. w.now) words.now) }
{
    match words {
        [number] => {
            if is(number, b"2") {
                Line::Version
            } else {
                Line::Bad
            }
        }
        _ => Line::Bad,
    }
}
