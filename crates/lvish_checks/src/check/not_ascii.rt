ghost use Rattle.std.specs.Prelude.{◌≡◌, map};
ghost use Rattle.std.specs.List.{list_any};
ghost use Rattle.lvish_checks.specs.Text.{is_foreign};
ghost use Rattle.lvish_checks.specs.Checks.{on_line, IsFirstOn};

fn is_foreign(b: u8) -> bool
    ensures { result ≡ is_foreign b }
{
    !((b >= b' ' && b <= b'~') || b == b'\t' || b == b'\n' || b == b'\r')
}

fn has_foreign(line: &[u8]) -> bool
    ensures { result ≡ list_any is_foreign line.now }
{
    for b in line {
        if is_foreign(*b) {
            return true;
        }
    }
    false
}

/// The first line with a byte that no script has.
pub fn first_not_ascii(lines: &[&[u8]]) -> Option<usize>
    ensures { IsFirstOn (on_line (λ k line. list_any is_foreign line) (map (λ w. w.now) lines.now)) result }
{
    for k in 0..lines.len() {
        if has_foreign(lines[k]) {
            return Some(k + 1);
        }
    }
    None
}
