ghost use Rattle.std.specs.Prelude.{◌≡◌, ◌<◌, IfOk, length};
ghost use Rattle.lvish_alike.specs.Sought.{linked, AreLed, AreReached};

use crate::link::Link;
use crate::sought::{Sought, first};
use lvish_code::Routine;
use std::alloc::{AllocError, Global};

/// A mark for each routine, set where one comes to it by links from this one.
///
/// # Errors
///
/// `AllocError` where a growth was refused.
pub fn reached_from(
    alloc: Global,
    routines: &[Routine],
    link: Link,
    from: usize,
) -> Result<Vec<bool>, AllocError>
    requires { from < length routines.now }
    ensures { IfOk result (λ marks. AreReached (linked link) routines.now from marks.items) }
{
    let mut marks = vec![in alloc; false; routines.len()]?;
    marks[from] = true;
    lead(routines, link, &mut marks);
    Ok(marks)
}

/// Sets the marks of all routines to which one comes by links from those that are marked.
pub fn lead(routines: &[Routine], link: Link, marks: &mut [bool])
    requires { length marks.old ≡ length routines.now }
    ensures { AreLed (linked link) routines.now marks.old marks.new }
{
    // Each round sets one, so there are no more rounds than routines.
    for round in 0..routines.len() {
        match first(routines, marks, Sought::Unmarked(link)) {
            Some(place) => marks[place] = true,
            None => return,
        }
    }
}
