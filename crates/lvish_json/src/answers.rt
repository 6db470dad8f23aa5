ghost use Rattle.std.specs.Prelude.{◌≡◌, ◌++◌, IfOk};
ghost use Rattle.json.specs.Tree.{json_tokens, members_tokens};
ghost use Rattle.lvish_json.specs.Adds.{Adds};
ghost use Rattle.lvish_json.specs.Shape.{members_of, if_any, count, IsLineOf};
ghost use Rattle.lvish_json.specs.Answers.{fault_value, refusal_value, alike_name, alike_steps, alike_value, ends_field, alike_field, check_value};

use crate::alike::Alike;
use crate::text::JsonText;
use lvish_checks::ScriptFault;
use std::alloc::{AllocError, Global};

/// Adds a fault.
#[tactic(auto, using(crate::proofs::Adding::adds_then))]
fn put_fault(text: &mut JsonText, fault: ScriptFault)
    ensures { Adds text.old text.new (json_tokens (fault_value fault)) }
{
    text.begin_object();
    text.count_member("number", fault.fault.number() as u64);
    text.text_member("name", fault.fault.name());
    text.count_member("line", fault.line as u64);
    text.end_object()
}

/// Adds a refusal.
#[tactic(auto, using(crate::proofs::Adding::adds_then))]
fn put_refusal(text: &mut JsonText, fault: ScriptFault)
    ensures { Adds text.old text.new (json_tokens (refusal_value fault)) }
{
    text.begin_object();
    text.key("fault");
    put_fault(text, fault);
    text.end_object()
}

/// A text that is no script, as a JSON line: its first fault.
///
/// # Errors
///
/// `AllocError` where a growth was refused.
pub fn refusal_json(alloc: Global, fault: ScriptFault) -> Result<Vec<u8>, AllocError>
    ensures { IfOk result (λ bytes. IsLineOf (refusal_value fault) bytes.items) }
{
    let mut text = JsonText::new(alloc);
    put_refusal(&mut text, fault);
    text.into_line()
}

/// Adds a count, or null where there is none.
fn put_if_any(text: &mut JsonText, number: Option<u64>)
    ensures { Adds text.old text.new (json_tokens (if_any count number)) }
{
    match number {
        Some(number) => text.count(number),
        None => text.null(),
    }
}

/// What is known of the runs, in a word.
fn alike_name(alike: Alike) -> &'static str
    ensures { result.now ≡ alike_name alike }
{
    match alike {
        Alike::Always(_) => "always",
        Alike::Ends => "ends",
        Alike::Unknown => "unknown",
    }
}

/// After how many steps all runs have come to one end, if it is known that they do.
fn alike_steps(alike: Alike) -> Option<u64>
    ensures { result ≡ alike_steps alike }
{
    match alike {
        Alike::Always(steps) => Some(steps),
        Alike::Ends => None,
        Alike::Unknown => None,
    }
}

/// Adds what is known of the runs.
#[tactic(auto, using(crate::proofs::Adding::adds_then))]
fn put_alike(text: &mut JsonText, alike: Alike)
    ensures { Adds text.old text.new (json_tokens (alike_value alike)) }
{
    text.begin_object();
    text.text_member("answer", alike_name(alike));
    text.key("steps");
    put_if_any(text, alike_steps(alike));
    text.end_object()
}

/// Adds what is known of the runs, where it is asked for, and ends the object.
#[tactic(auto, using(crate::proofs::Adding::adds_then))]
fn end_with_alike(text: &mut JsonText, alike: Option<Alike>)
    ensures { Adds text.old text.new (members_tokens (members_of (alike_field alike))) }
{
    match alike {
        Some(alike) => {
            text.key("alike");
            put_alike(text, alike);
            text.end_object()
        }
        None => text.end_object(),
    }
}

/// Adds after how many steps all runs have ended, where it is asked for, and what comes behind it.
#[tactic(auto, using(crate::proofs::Adding::adds_then))]
fn end_with_ends(text: &mut JsonText, ends: Option<Option<u64>>, alike: Option<Alike>)
    ensures { Adds text.old text.new (members_tokens (members_of (ends_field ends ++ alike_field alike))) }
{
    match ends {
        Some(bound) => {
            text.key("ends");
            put_if_any(text, bound);
            end_with_alike(text, alike)
        }
        None => end_with_alike(text, alike),
    }
}

/// Adds a script that was checked.
#[tactic(auto, using(crate::proofs::Adding::adds_then))]
fn put_check(text: &mut JsonText, ends: Option<Option<u64>>, alike: Option<Alike>)
    ensures { Adds text.old text.new (json_tokens (check_value ends alike)) }
{
    text.begin_object();
    text.key("fault");
    text.null();
    end_with_ends(text, ends, alike)
}

/// A script that was checked, as a JSON line: after how many steps all its runs have ended, and
/// whether they or their ends are the same, each where it is asked for.
///
/// # Errors
///
/// `AllocError` where a growth was refused.
pub fn check_json(
    alloc: Global,
    ends: Option<Option<u64>>,
    alike: Option<Alike>,
) -> Result<Vec<u8>, AllocError>
    ensures { IfOk result (λ bytes. IsLineOf (check_value ends alike) bytes.items) }
{
    let mut text = JsonText::new(alloc);
    put_check(&mut text, ends, alike);
    text.into_line()
}
