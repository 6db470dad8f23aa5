//! A worked example: a table, and the configuration that it stands for.

ghost use Rattle.std.specs.Prelude.{◌≡◌, [], ◌∷◌, Some, true, false};
ghost use Rattle.lvish_calculus.specs.Calculus.{Absent, Live};
ghost use Rattle.lvish_names.specs.Names.{main, handed};
ghost use Rattle.lvish_calculus.specs.Examples.{copying, copier, handing, numbers, over_sets};
ghost use Rattle.lvish_picture.specs.Counts.{CountsRunning};
ghost use Rattle.lvish_picture.specs.Examples.{halfway, halfway_picture, halfway_run};
ghost use Rattle.lvish_picture.specs.Picture.{IsPictured};

/// `main` added a handler to s, and put 3 and then 1 into s. The handler's cursor is 1: it was
/// handed 3, and its task hasn't begun. s is 0, and out is 1.
pub fn halfway()
    // The table is reached by the laws of steps, one after the other, from the start.
    ensures pictured { IsPictured (over_sets handing) halfway halfway_run }
    ensures counted { CountsRunning (over_sets handing) halfway }
    ensures s { numbers (halfway_picture.content 0) ≡ 1 ∷ 3 ∷ [] }
    ensures out { numbers (halfway_picture.content 1) ≡ [] }
    ensures unfrozen { halfway_picture.frozen 0 ≡ false }
    ensures post { halfway_picture.handlers copier ≡ Some (record { pool = 0; procedure = 0 }) }
    // The log's first entry, though 1 is the lesser.
    ensures was_handed { halfway_picture.handed copier 3 ≡ true }
    ensures not_yet { halfway_picture.handed copier 1 ≡ false }
    ensures task { halfway_picture.tasks (handed main 1 3) ≡ Live (copying 3) 0 0 0 }
    ensures no_task { halfway_picture.tasks (handed main 1 1) ≡ Absent }
{}
