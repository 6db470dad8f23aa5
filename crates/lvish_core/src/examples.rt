//! A worked example: a core, the run that led to it, and which puts brought the entries of its log.

ghost use Rattle.std.specs.Prelude.{◌≡◌};
ghost use Rattle.lvish_calculus.specs.Calculus.{Running, start};
ghost use Rattle.lvish_calculus.specs.Examples.{handing, over_sets, until_added, until_three_put};
ghost use Rattle.lvish_picture.specs.Examples.{halfway_run};
ghost use Rattle.lvish_core.specs.Core.{IsRunTo};
ghost use Rattle.lvish_core.specs.Examples.{both, halfway_core, one, three};
ghost use Rattle.lvish_core.specs.Puts.{IsBroughtAfter, IsOnlyEntry, brought_by_run};

use lvish_picture::examples::halfway;

/// `main` added a handler to s, put 3 and then 1 into s, and the handler was handed 3.
pub fn log_of_two_puts()
    ensures run { IsRunTo (over_sets handing) halfway_core halfway_run }
    // Its puts brought 3 and 1 to the log of s.
    ensures brought { brought_by_run (over_sets handing) (Running (start (over_sets handing))) halfway_run 0 ≡ both }
    // The second step brought 3: main's first put.
    ensures three { IsBroughtAfter (over_sets handing) until_added halfway_run 0 three }
    // The third brought 1: its second put.
    ensures one { IsBroughtAfter (over_sets handing) until_three_put halfway_run 0 one }
    ensures only_three { IsOnlyEntry both three }
{
    halfway();
}
