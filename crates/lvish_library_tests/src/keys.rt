//! Names as the keys of a map, in code that knows no more of the events than `Plain`.
ghost use Rattle.std.specs.Prelude.{◌≡◌, ◌≢◌, Some, OnOk};
ghost use Rattle.std.specs.BTreeMap.{get};
ghost use Rattle.lvish_names.specs.Names.{Name, Handler};
ghost use Rattle.lvish_names.specs.NameOrder.{name_cmp, handler_cmp};

use lvish_lattice::Plain;
use lvish_names::{HandlerName, TaskName};
use std::alloc::AllocError;
use std::collections::BTreeMap;

/// Puts the value under the task's name, in place of any that is there.
pub fn put_task<E: Plain>(
    tasks: &mut BTreeMap<TaskName<E>, u64>,
    name: TaskName<E>,
    value: u64,
) -> Result<(), AllocError>
    ensures found { OnOk result (get (name_cmp E.cmp) tasks.new name ≡ Some value) }
    ensures others { OnOk result ((t : Name E) → t ≢ name → get (name_cmp E.cmp) tasks.new t ≡ get (name_cmp E.cmp) tasks.old t) }
{
    tasks.insert(name, value)?;
    Ok(())
}

pub fn task_value<E: Plain>(tasks: &BTreeMap<TaskName<E>, u64>, name: &TaskName<E>) -> Option<u64>
    ensures { result ≡ get (name_cmp E.cmp) tasks.now name.now }
{
    tasks.get(name).copied()
}

/// Puts the value under the handler's name, in place of any that is there.
pub fn put_handler<E: Plain>(
    handlers: &mut BTreeMap<HandlerName<E>, u64>,
    name: HandlerName<E>,
    value: u64,
) -> Result<(), AllocError>
    ensures found { OnOk result (get (handler_cmp E.cmp) handlers.new name ≡ Some value) }
    ensures others { OnOk result ((h : Handler E) → h ≢ name → get (handler_cmp E.cmp) handlers.new h ≡ get (handler_cmp E.cmp) handlers.old h) }
{
    handlers.insert(name, value)?;
    Ok(())
}

pub fn handler_value<E: Plain>(
    handlers: &BTreeMap<HandlerName<E>, u64>,
    name: &HandlerName<E>,
) -> Option<u64>
    ensures { result ≡ get (handler_cmp E.cmp) handlers.now name.now }
{
    handlers.get(name).copied()
}
