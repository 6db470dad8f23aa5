ghost use Rattle.std.specs.Prelude.{◌≡◌, IfOk, string_bytes};
ghost use Rattle.lvish_cli.specs.Lines.{ok_text, bound_text, alike_text, refusal_text, picks_text};

use lvish_json::Alike;
use std::alloc::{AllocError, Global};

/// `ok`, for a script without a fault.
pub fn ok_line(alloc: Global) -> Result<String, AllocError>
    ensures { IfOk result (λ text. string_bytes text ≡ ok_text) }
{
    String::from_str(alloc, "ok\n")
}

/// `always ends N`, for a script whose runs have all ended after N steps, or `unknown`.
pub fn bound_line(alloc: Global, bound: Option<u64>) -> Result<String, AllocError>
    ensures { IfOk result (λ text. string_bytes text ≡ bound_text bound) }
{
    match bound {
        Some(steps) => format!(in alloc; "always ends {steps}\n"),
        None => String::from_str(alloc, "unknown\n"),
    }
}

/// What is known of all ends: `always alike N` of a script whose runs have all come to the same end
/// after N steps, `ends alike` of one of which all ends without an error are the same, or `unknown`.
pub fn alike_line(alloc: Global, alike: Alike) -> Result<String, AllocError>
    ensures { IfOk result (λ text. string_bytes text ≡ alike_text alike) }
{
    match alike {
        Alike::Always(steps) => format!(in alloc; "always alike {steps}\n"),
        Alike::Ends => String::from_str(alloc, "ends alike\n"),
        Alike::Unknown => String::from_str(alloc, "unknown\n"),
    }
}

/// `refused NUMBER NAME line L`, for a script's fault and the line on which it is.
pub fn refusal_line(
    alloc: Global,
    number: u8,
    name: &str,
    line: usize,
) -> Result<String, AllocError>
    ensures { IfOk result (λ text. string_bytes text ≡ refusal_text number name.now line) }
{
    format!(in alloc; "refused {number} {name} line {line}\n")
}

/// `picks N N ..`, for the picks that make a run again.
pub fn picks_line(alloc: Global, picks: &[u64]) -> Result<String, AllocError>
    ensures { IfOk result (λ text. string_bytes text ≡ picks_text picks.now) }
{
    let picks = lvish_again::picks_text(alloc, picks)?;
    let picks = picks.as_str();
    format!(in alloc; "picks{picks}\n")
}
