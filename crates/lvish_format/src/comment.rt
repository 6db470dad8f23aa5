ghost use Rattle.std.specs.Prelude.{◌≡◌, true};
ghost use Rattle.lvish_checks.specs.Text.{is_separator};
ghost use Rattle.lvish_format.specs.Format.{trimmed, comment_of};

fn is_separator(b: u8) -> bool
    ensures { result ≡ is_separator b }
{
    b == b' ' || b == b'\t' || b == b'\r'
}

/// Bytes without the separators at their end.
fn trimmed(bytes: &[u8]) -> &[u8]
    ensures { result.now ≡ trimmed bytes.now }
{
    let mut end = bytes.len();
    while end > 0 && is_separator(bytes[end - 1]) {
        end -= 1;
    }
    &bytes[..end]
}

/// The comment of a line, without the separators at its end; nothing where the line has none.
pub fn comment_of(line: &[u8]) -> &[u8]
    ensures { result.now ≡ comment_of line.now }
{
    let mut may_begin = true;
    for k in 0..line.len() {
        if may_begin && line[k] == b'#' {
            return trimmed(&line[k..]);
        }
        may_begin = is_separator(line[k]);
    }
    &[]
}
