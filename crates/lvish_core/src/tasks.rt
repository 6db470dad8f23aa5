ghost use Rattle.std.specs.Prelude.{◌≡◌, [], MatchOption, MatchResult, IfOk, IfSome, length, map, option_copied, slice_get};
ghost use Rattle.std.specs.Option.{option_map};
ghost use Rattle.std.specs.List.{IsDistinct, zip};
ghost use Rattle.std.specs.List.Sorted.{IsStrictlySortedBy};
ghost use Rattle.lvish_names.specs.NameOrder.{name_cmp};
ghost use Rattle.lvish_names.specs.Names.{Name, same_name};
ghost use Rattle.lvish_calculus.specs.Calculus.{Absent};
ghost use Rattle.lvish_picture.specs.Picture.{task_of};
ghost use Rattle.lvish_core.specs.Tasks.{HasEachOnce, IsAt, Sets, SameTasks, standing, standing_at, standings, entries_at, task_names};

use crate::stage::Stage;
use lvish_lattice::Plain;
use lvish_names::TaskName;
use std::alloc::{AllocError, Global};
use std::cmp::Ordering;
use std::collections::HashMap;
use std::hash::Hash;
use std::marker::Model;

/// The tasks of a core, each under its name.
///
/// A task keeps its index as long as there is the core. A task that comes isn't hashed: a core whose
/// tasks are found by their indices alone never needs it.
pub(crate) struct Tasks<E: Eq + Hash, L> {
    // in a list of their own, which is given away whole at the end of a run
    names: Vec<TaskName<E>>,
    // what runs under each name, at its index
    stages: Vec<Stage<L>>,
    // where the first `indexed` tasks stand; each task behind them is looked at
    indices: HashMap<TaskName<E>, usize>,
    indexed: usize,
}

// Written out, so that it is proved once, and not at each exit of a function that owns one.
impl<E: Eq + Hash + Drop, L: Drop> Drop for Tasks<E, L> {
    fn drop(self) {
        let Tasks {
            names: _,
            stages: _,
            indices: _,
            indexed: _,
        } = self;
    }
}

impl<E: Eq + Hash, L> Model for Tasks<E, L> {
    ghost use Rattle.std.specs.Prelude.{List};
    ghost use Rattle.std.specs.List.{zip};
    ghost use Rattle.lvish_calculus.specs.Calculus.{Task};
    ghost use Rattle.lvish_names.specs.Names.{Name};
    ghost use Rattle.lvish_core.specs.Tasks.{standings};
    ghost use Rattle.lvish_core.specs.Indexed.{AreStaged};

    ghost Value = { List (Name E × Task L) };

    ghost view = { λ t. standings (zip t.names.items t.stages.items) };

    ghost invariant = { λ t. AreStaged E.eq t.names.items t.stages.items t.indices t.indexed };
}

/// A task of a core: its name, and what runs under it.
type NamedStage<'t, E, L> = (&'t TaskName<E>, &'t Stage<L>);

fn by_name<E: Plain, L>(one: &NamedStage<'_, E, L>, two: &NamedStage<'_, E, L>) -> Ordering
    ensures { result ≡ name_cmp E.cmp one.now.0.now two.now.0.now }
{
    one.0.cmp(two.0)
}

impl<E: Plain + Hash, L: Drop> Tasks<E, L> {
    pub fn new(alloc: Global) -> Tasks<E, L>
        ensures { result ≡ [] }
    {
        Tasks {
            names: Vec::new(alloc),
            stages: Vec::new(alloc),
            indices: HashMap::new(alloc),
            indexed: 0,
        }
    }

    /// What runs under the name.
    pub fn get(&self, name: &TaskName<E>) -> Option<&Stage<L>>
        ensures { task_of E.eq self.now name.now ≡ standing_at (option_copied result) }
    {
        match self.find(name) {
            Some((_index, stage)) => Some(stage),
            None => None,
        }
    }

    /// What runs under the tasks' names, each at its task's index.
    pub fn stages(&self) -> &[Stage<L>]
        ensures all { map standing result.now ≡ map (λ e. e.1) self.now }
        ensures once { IsDistinct (same_name E.eq) (task_names self.now) }
    {
        &self.stages
    }

    /// No task is there under two indices.
    pub fn each_once(&self)
        ensures { HasEachOnce self.now }
    {
        let _stages = self.stages();
    }

    /// The tasks in the order of their names.
    pub fn in_order(&self, alloc: Global) -> Result<Vec<NamedStage<'_, E, L>>, AllocError>
        ensures all { IfOk result (λ v. SameTasks E.eq self.now (standings (entries_at v.items))) }
        ensures ascending { IfOk result (λ v. IsStrictlySortedBy (name_cmp E.cmp) (task_names (standings (entries_at v.items)))) }
    {
        let mut tasks = named_stages(&self.names, &self.stages, alloc)?;
        tasks.sort_unstable_by(by_name);
        Ok(tasks)
    }

    /// What runs under the name, and its index.
    pub fn find(&self, name: &TaskName<E>) -> Option<(usize, &Stage<L>)>
        ensures task { task_of E.eq self.now name.now ≡ standing_at (option_map (λ f. f.1.now) result) }
        ensures at { IfSome result (λ f. IsAt self.now f.0 name.now) }
    {
        let index = self.index_of(name)?;
        let stage = self.stage_at(index)?;
        Some((index, stage))
    }

    /// The index of the task of this name.
    fn index_of(&self, name: &TaskName<E>) -> Option<usize>
        ensures { MatchOption result (task_of E.eq self.now name.now ≡ Absent) (λ i. IsAt self.now i name.now) }
    {
        if let Some(index) = self.indices.get(name) {
            return Some(*index);
        }
        for index in self.indexed..self.names.len() {
            if self.names[index] == *name {
                return Some(index);
            }
        }
        None
    }

    /// Makes the index whole, so that look-ups by name don't look at each task. Where there is no room
    /// for more of it, it goes as far as there is.
    pub fn index_names(&mut self)
        ensures { self.new ≡ self.old }
    {
        for _ in self.indexed..self.names.len() {
            if !self.index_next() {
                return;
            }
        }
    }

    /// Adds the first task that isn't there to the index. Answers false where there is none, or no room
    /// for it.
    fn index_next(&mut self) -> bool
        ensures { self.new ≡ self.old }
    {
        let Some(name) = self.names.get(self.indexed) else {
            return false;
        };
        let Ok(name) = name.copy() else {
            return false;
        };
        match self.indices.insert(name, self.indexed) {
            Ok(_) => {
                self.indexed += 1;
                true
            }
            Err(_) => false,
        }
    }

    /// Puts the task at the index into the stage.
    #[inline(always)]
    pub fn replace_at(&mut self, index: usize, stage: Stage<L>)
        ensures { (t : Name E) → IsAt self.old index t → Sets E.eq self.old t (standing stage) self.new }
    {
        if let Some(place) = self.stages.get_mut(index) {
            *place = stage;
        }
    }

    /// How many tasks there are.
    pub fn len(&self) -> usize
        ensures { result ≡ length self.now }
    {
        self.names.len()
    }

    /// What runs under the name of the task at the index.
    #[inline(always)]
    pub fn stage_at(&self, index: usize) -> Option<&Stage<L>>
        ensures task { (t : Name E) → IsAt self.now index t → task_of E.eq self.now t ≡ standing_at (option_copied result) }
        ensures at { IfSome result (λ _. (t : Name E) × IsAt self.now index t) }
    {
        self.stages.get(index)
    }

    /// The name of the task at the index.
    pub fn name_at(&self, index: usize) -> Option<&TaskName<E>>
        ensures { option_copied result ≡ slice_get (task_names self.now) index }
    {
        self.names.get(index)
    }

    /// The names of the tasks, each at its task's index, without a copy.
    pub fn into_names(self) -> Vec<TaskName<E>>
        ensures { result.items ≡ task_names self }
    {
        let Tasks {
            names: all,
            stages: _,
            indices: _,
            indexed: _,
        } = self;
        all
    }

    /// Adds a task behind the others.
    pub fn push(&mut self, name: TaskName<E>, stage: Stage<L>) -> Result<(), AllocError>
        requires absent { task_of E.eq self.old name ≡ Absent }
        ensures set { MatchResult result (λ _. Sets E.eq self.old name (standing stage) self.new) (λ _. self.new ≡ self.old) }
        ensures added { IfOk result (λ _. task_of E.eq self.old name ≡ Absent → IsAt self.new (length self.old) name) }
    {
        self.names.reserve(1)?;
        self.stages.reserve(1)?;
        self.names.push_reserved(name);
        self.stages.push_reserved(stage);
        Ok(())
    }
}

/// References to the names of these tasks, each beside what runs under it.
fn named_stages<'t, E, L>(
    names: &'t [TaskName<E>],
    stages: &'t [Stage<L>],
    alloc: Global,
) -> Result<Vec<NamedStage<'t, E, L>>, AllocError>
    ensures { IfOk result (λ v. entries_at v.items ≡ zip names.now stages.now) }
{
    let mut named = Vec::with_capacity(alloc, names.len())?;
    for (name, stage) in names.iter().zip(stages.iter()) {
        named.push((name, stage))?;
    }
    Ok(named)
}
