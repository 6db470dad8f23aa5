ghost use Rattle.std.specs.Prelude.{◌≡◌, ◌↔◌, IfOk, length, true};
ghost use Rattle.lvish_alike.specs.Alike.{ShowsAlike};
ghost use Rattle.lvish_alike.specs.Reaching.{HasOneOrder};
ghost use Rattle.lvish_alike.specs.Sought.{code_outline, FreezeOne, OthersFreezeNone};

use crate::laws::one_end;
use crate::link::Link;
use crate::reached::reached_from;
use crate::sought::{Sought, first};
use lvish_code::{Code, Routine};
use lvish_syntax::Script;
use lvish_task::ScriptCode;
use std::alloc::{AllocError, Global};

/// Whether all ends of the script without an error are the same, as far as its lines show it: tasks
/// freeze one variable at most, or no task but `main` freezes.
///
/// # Errors
///
/// `AllocError` where a growth was refused.
pub fn ends_alike(alloc: Global, script: &Script) -> Result<bool, AllocError>
    ensures { IfOk result (λ alike. ShowsAlike script.now alike) }
{
    one_end();
    let code = ScriptCode::new(alloc, script)?;
    has_one_order(alloc, &code.flat)
}

/// The same of a script's code.
fn has_one_order(alloc: Global, code: &Code) -> Result<bool, AllocError>
    ensures { IfOk result (λ alike. (alike ≡ true) ↔ HasOneOrder (code_outline code.now)) }
{
    let routines = code.routines();
    let marks = reached_from(alloc, routines, Link::Names, code.main())?;
    if freezes_one(routines, &marks) {
        return Ok(true);
    }
    no_other_freezes(alloc, routines, &marks)
}

/// Whether marked routines freeze one variable at most.
fn freezes_one(routines: &[Routine], marks: &[bool]) -> bool
    requires { length marks.now ≡ length routines.now }
    ensures { (result ≡ true) ↔ FreezeOne routines.now marks.now }
{
    match first(routines, marks, Sought::Frozen(None)) {
        None => true,
        Some(one) => first(routines, marks, Sought::Frozen(Some(one))).is_none(),
    }
}

/// Whether no routine freezes that another task can run.
fn no_other_freezes(alloc: Global, routines: &[Routine], marks: &[bool]) -> Result<bool, AllocError>
    requires { length marks.now ≡ length routines.now }
    ensures { IfOk result (λ none. (none ≡ true) ↔ OthersFreezeNone routines.now marks.now) }
{
    for place in 0..routines.len() {
        if first(routines, marks, Sought::Linked(Link::Starts, place)).is_some() {
            let by_others = reached_from(alloc, routines, Link::Names, place)?;
            if first(routines, &by_others, Sought::Frozen(None)).is_some() {
                return Ok(false);
            }
        }
    }
    Ok(true)
}
