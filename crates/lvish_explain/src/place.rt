//! Lines by their numbers, which begin at 1.

ghost use Rattle.std.specs.Prelude.{◌≡◌, [], IfOk, map, get_or};
ghost use Rattle.lvish_checks.specs.Text.{words_of};
ghost use Rattle.lvish_explain.specs.Place.{line_at};

use lvish_checks::words_of;
use std::alloc::{AllocError, Global};

/// The item at a place; an empty one where there is none.
pub fn item_at<'a>(items: &[&'a [u8]], place: usize) -> &'a [u8]
    ensures { result.now ≡ get_or (map (λ l. l.now) items.now) place [] }
{
    if place >= items.len() {
        return &[];
    }
    items[place]
}

/// The line with a number; an empty one where there is none.
pub fn line_at<'a>(lines: &[&'a [u8]], number: usize) -> &'a [u8]
    ensures { result.now ≡ line_at (map (λ l. l.now) lines.now) number }
{
    if number == 0 {
        return &[];
    }
    item_at(lines, number - 1)
}

/// The lines above that with a number.
pub fn lines_above<'b, 'a>(lines: &'b [&'a [u8]], number: usize) -> &'b [&'a [u8]] {
    if number == 0 || number > lines.len() {
        return lines;
    }
    &lines[..number - 1]
}

/// The words of the line with a number.
pub fn words_on<'a>(
    alloc: Global,
    lines: &[&'a [u8]],
    number: usize,
) -> Result<Vec<&'a [u8]>, AllocError>
    ensures { IfOk result (λ v. map (λ w. w.now) v.items ≡ words_of (line_at (map (λ l. l.now) lines.now) number)) }
{
    words_of(alloc, line_at(lines, number))
}
