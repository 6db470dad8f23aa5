//! Faults that a text needn't have, as they may be given.

use lvish_explain::explain;
use lvish_script::{Fault, ScriptFault};
use std::test::Fail;

/// A text, a fault and its line, and what is told of it.
type Given = (&'static [u8], Fault, usize, &'static str);

const GIVEN: [Given; 8] = [
    (
        b"",
        Fault::TooLong,
        0,
        "a.lvish: a script has at most 65536 bytes\n",
    ),
    (
        b"",
        Fault::Memory,
        0,
        "a.lvish: there was no memory to read the script\n",
    ),
    (
        b"cell a\ncell b\n",
        Fault::TooMany,
        2,
        "a.lvish:2:1: a script has at most 64 variables\n    cell b\n    ^^^^\n",
    ),
    (
        b"pool p a",
        Fault::TooMany,
        1,
        "a.lvish:1:1: a script has at most 64 pools\n    pool p a\n    ^^^^\n",
    ),
    (
        b"proc p a",
        Fault::TooMany,
        1,
        "a.lvish:1:1: a script has at most 64 procedures\n    proc p a\n    ^^^^\n",
    ),
    (
        b"\x07 # \x07\n",
        Fault::BadNumber,
        1,
        "a.lvish:1:1: this is no number within 64 bits\n    ? # ?\n    ^\nhint: a number is an optional `-` and digits, from -9223372036854775808 to 9223372036854775807\n",
    ),
    (
        b"\n\n",
        Fault::UnknownName,
        2,
        "a.lvish:2: the procedure has no local of this name\n",
    ),
    (
        b"cell a",
        Fault::OpenBlock,
        18446744073709551615,
        "a.lvish:18446744073709551615: a block or procedure is open at the end\n",
    ),
];

#[test]
fn any_fault_of_any_text_is_explained(rt: HostRuntime) -> Result<(), Fail> {
    let alloc = rt.alloc();
    for (text, fault, line, explanation) in GIVEN.as_slice() {
        let fault = ScriptFault {
            fault: *fault,
            line: *line,
        };
        let told = explain(alloc, "a.lvish", text, fault)?;
        assert_eq!(rt; str::from_utf8(told.as_slice()), Ok(*explanation));
    }
    Ok(())
}
