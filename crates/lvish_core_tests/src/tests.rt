//! Worked examples: cores of scripts, call by call.

mod bench;
mod seen;

use bench::{Call, answers, many, tasks_at_the_end};
use lvish_calculus::Label;
use lvish_compound::Event;
use lvish_core::Stepped;
use lvish_names::{HandlerName, NameFault, TaskName};
use lvish_script::read_script;
use lvish_task::ScriptCode;
use std::alloc::Global;
use std::test::Fail;

/// The code of the script.
fn code_of(alloc: Global, script: &str) -> Result<ScriptCode, Fail> {
    let script = read_script(alloc, script.as_bytes())?;
    Ok(ScriptCode::new(alloc, &script)?)
}

/// The task that main forks with this number, main itself for 0.
fn task(alloc: Global, fork: u64) -> Result<TaskName<Event>, NameFault> {
    if fork == 0 {
        return Ok(TaskName::main());
    }
    TaskName::main().child(alloc, fork)
}

/// Steps of these tasks, by their labels.
fn steps(alloc: Global, forks: &[u64]) -> Result<Vec<Call>, Fail> {
    let mut calls = Vec::new(alloc);
    for fork in forks {
        calls.push(Call::Step(Label::Act(task(alloc, *fork)?)))?;
    }
    Ok(calls)
}

/// Steps of these tasks, with their requests computed before.
fn asked(alloc: Global, forks: &[u64]) -> Result<Vec<Call>, Fail> {
    let mut calls = Vec::new(alloc);
    for fork in forks {
        calls.push(Call::Asked(task(alloc, *fork)?))?;
    }
    Ok(calls)
}

/// main forks a task that puts 1, and freezes the set.
const FREEZING: &str = "set s
proc w
put s 1
end
proc main
fork w
freeze x s
end
";

/// The writer isn't there before main forks it, nor main after its end.
const IN_ORDER: [u64; 7] = [1, 0, 1, 0, 0, 1, 0];

const IN_ORDER_ANSWERED: &str = "NotEnabled Done Done Done Done Done NotEnabled ";

#[test]
fn a_set_is_frozen_after_the_put(rt: HostRuntime) -> Result<(), Fail> {
    let alloc = rt.alloc();
    let code = code_of(alloc, FREEZING)?;
    let calls = steps(alloc, &IN_ORDER)?;
    assert_eq!(rt;
        answers(&rt, alloc, &code, &calls)?.as_str(),
        IN_ORDER_ANSWERED
    );
    Ok(())
}

#[test]
fn a_request_is_computed_before_its_step(rt: HostRuntime) -> Result<(), Fail> {
    let alloc = rt.alloc();
    let code = code_of(alloc, FREEZING)?;
    let calls = asked(alloc, &IN_ORDER)?;
    assert_eq!(rt;
        answers(&rt, alloc, &code, &calls)?.as_str(),
        IN_ORDER_ANSWERED
    );
    Ok(())
}

// No step comes after an error.
#[test]
fn a_put_after_the_freeze_is_an_error(rt: HostRuntime) -> Result<(), Fail> {
    let alloc = rt.alloc();
    let code = code_of(alloc, FREEZING)?;
    let calls = steps(alloc, &[0, 0, 1, 0])?;
    assert_eq!(rt;
        answers(&rt, alloc, &code, &calls)?.as_str(),
        "Done Done Error(Frozen) NotEnabled "
    );
    Ok(())
}

/// A handler's tasks copy a set into another one, and main waits for them.
const COPYING: &str = "set s
set out
pool p s
proc c k n
put out n
end
proc main
handle p c
put s 3
put s 1
freeze x s after p
end
";

#[test]
fn what_is_handed_is_handed_once(rt: HostRuntime) -> Result<(), Fail> {
    let alloc = rt.alloc();
    let code = code_of(alloc, COPYING)?;
    let mut calls = steps(alloc, &[0, 0, 0])?;
    for _ in 0..3 {
        calls.push(Call::Hand(HandlerName::new(&TaskName::main(), 1)?))?;
    }
    // A freeze waits for the tasks of its pool.
    calls.push(Call::Step(Label::Act(TaskName::main())))?;
    assert_eq!(rt;
        answers(&rt, alloc, &code, &calls)?.as_str(),
        "Done Done Done Done Done NotEnabled NotEnabled "
    );
    Ok(())
}

/// A task waits for a level, and another one puts a higher one.
const CLIMBING: &str = "max m
proc w
put m 2
end
proc main
fork w
get x m least 1
freeze y m
end
";

/// A task forks one for each number below its own.
const SPREADING: &str = "proc p n
while n
let n n - 1
fork p n
end
end
proc main
call p 6
end
";

#[test]
fn each_task_is_found_by_its_name(rt: HostRuntime) -> Result<(), Fail> {
    let alloc = rt.alloc();
    for (script, tasks) in [(FREEZING, 2), (COPYING, 3), (CLIMBING, 2), (SPREADING, 64)] {
        let code = code_of(alloc, script)?;
        assert_eq!(rt; tasks_at_the_end(&rt, alloc, &code, 1000)?, tasks);
    }
    Ok(())
}

/// main puts 1 without end.
const ENDLESS: &str = "set s
proc main
while 1
put s 1
end
end
";

#[test]
fn more_steps_are_made_than_a_script_may_have(rt: HostRuntime) -> Result<(), Fail> {
    let alloc = rt.alloc();
    let code = code_of(alloc, ENDLESS)?;
    let answers = many(&rt, alloc, &code, 1_000_000)?;
    assert_eq!(rt; answers, (1_000_000, Ok(Stepped::Done)));
    Ok(())
}
