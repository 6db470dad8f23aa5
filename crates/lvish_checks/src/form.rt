//! What a line says.

mod block;
mod command;
mod declaration;
mod freeze;
mod term;
mod threshold;
mod version;

ghost use Rattle.std.specs.Prelude.{◌≡◌, ◌∷◌, [], IfOk, codes, map};
ghost use Rattle.std.specs.List.{list_any};
ghost use Rattle.std.specs.Str.{bytes_eq};
ghost use Rattle.lvish_checks.specs.Form.{begins_declaration, begins_command, line_of};

use crate::line::Line;
use crate::word::is;
use block::block_form;
use command::command_form;
use declaration::declaration_form;
use std::alloc::{AllocError, Global};
use version::version_line;

fn is_set_max_or_map(word: &[u8]) -> bool
    ensures { result ≡ list_any (bytes_eq word.now) (codes "set" ∷ codes "max" ∷ codes "map" ∷ []) }
{
    is(word, b"set") || is(word, b"max") || is(word, b"map")
}

fn is_cell_pair_pool_or_proc(word: &[u8]) -> bool
    ensures { result ≡ list_any (bytes_eq word.now) (codes "cell" ∷ codes "pair" ∷ codes "pool" ∷ codes "proc" ∷ []) }
{
    is(word, b"cell") || is(word, b"pair") || is(word, b"pool") || is(word, b"proc")
}

fn is_let_put_or_get(word: &[u8]) -> bool
    ensures { result ≡ list_any (bytes_eq word.now) (codes "let" ∷ codes "put" ∷ codes "get" ∷ []) }
{
    is(word, b"let") || is(word, b"put") || is(word, b"get")
}

fn is_fork_or_call(word: &[u8]) -> bool
    ensures { result ≡ list_any (bytes_eq word.now) (codes "fork" ∷ codes "call" ∷ []) }
{
    is(word, b"fork") || is(word, b"call")
}

fn is_handle_or_freeze(word: &[u8]) -> bool
    ensures { result ≡ list_any (bytes_eq word.now) (codes "handle" ∷ codes "freeze" ∷ []) }
{
    is(word, b"handle") || is(word, b"freeze")
}

/// Whether a line begins a declaration with this word: it is compared with those of its length alone,
/// since each line comes here.
fn begins_declaration(word: &[u8]) -> bool
    ensures { result ≡ begins_declaration word.now }
{
    match word.len() {
        3 => is_set_max_or_map(word),
        4 => is_cell_pair_pool_or_proc(word),
        5 => is(word, b"tally"),
        _ => false,
    }
}

/// Whether a statement of one line begins with this word.
fn begins_command(word: &[u8]) -> bool
    ensures { result ≡ begins_command word.now }
{
    match word.len() {
        3 => is_let_put_or_get(word),
        4 => is_fork_or_call(word),
        6 => is_handle_or_freeze(word),
        _ => false,
    }
}

/// What a line with these words says: `Bad` where they have none of the forms.
pub fn line_of(alloc: Global, words: &[&[u8]]) -> Result<Line, AllocError>
    ensures { IfOk result (λ l. l ≡ line_of (map (λ w. w.now) words.now)) }
{
    match words {
        [] => Ok(Line::Blank),
        [word, rest @ ..] => {
            if begins_declaration(word) {
                declaration_form(alloc, word, rest)
            } else if begins_command(word) {
                command_form(alloc, word, rest)
            } else if is(word, b"lvish") {
                Ok(version_line(rest))
            } else {
                block_form(alloc, word, rest)
            }
        }
    }
}
