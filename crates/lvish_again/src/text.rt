//! Picks, as texts have them.

ghost use Rattle.std.specs.Prelude.{◌≡◌, ◌++◌, IfOk, OnOk, string_bytes};
ghost use Rattle.lvish_again.specs.Text.{pick_text, picks_text};

use std::alloc::{AllocError, Global};

/// A pick, behind others.
fn push_pick(alloc: Global, text: &mut String, pick: u64) -> Result<(), AllocError>
    ensures { OnOk result (string_bytes text.new ≡ string_bytes text.old ++ pick_text pick) }
{
    let pick = format!(in alloc; " {pick}")?;
    text.push_str(pick.as_str())
}

/// Picks, each behind a space: as `lvish pick` takes them.
pub fn picks_text(alloc: Global, picks: &[u64]) -> Result<String, AllocError>
    ensures { IfOk result (λ t. string_bytes t ≡ picks_text picks.now) }
{
    let mut text = String::new(alloc);
    for pick in picks {
        push_pick(alloc, &mut text, *pick)?;
    }
    Ok(text)
}
