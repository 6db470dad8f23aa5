//! Lists of indices, by variable and under keys.

ghost use Rattle.std.specs.Prelude.{◌≡◌, ◌<◌, [], ℕ, OnOk, length};
ghost use Rattle.lvish_calculus.specs.Handing.{IsAmong};
ghost use Rattle.lvish_board.specs.Shelved.{shelf, shelf_at, list_at};

use smallvec::SmallVec;
use std::alloc::{AllocError, Global};
use std::collections::HashMap;
use std::hash::Hash;

/// A list of indices for each variable and each key, of which the variable is found without a hash.
///
/// Most lists have one index, and none of these is taken from the allocator.
pub(crate) struct BySpot<K: Eq + Hash> {
    pub tables: Vec<HashMap<K, SmallVec<usize, 2>>>,
}

// Written out, so that it is proved once, and not at each exit of a function that owns one.
impl<K: Eq + Hash + Drop> Drop for BySpot<K> {
    fn drop(self) {
        let BySpot { tables: _ } = self;
    }
}

impl<K: Eq + Hash + Drop> BySpot<K> {
    /// Nothing at any variable.
    pub(crate) fn new(alloc: Global) -> BySpot<K>
        ensures { (v : ℕ) (q : K) → shelf_at K.eq result.tables.items v q ≡ [] }
    {
        BySpot {
            tables: Vec::new(alloc),
        }
    }

    /// Adds one at the variable under the key.
    ///
    /// # Errors
    ///
    /// Where there is no room for it.
    pub(crate) fn push(
        &mut self,
        alloc: Global,
        variable: usize,
        key: K,
        index: usize,
    ) -> Result<(), AllocError>
        ensures kept { (v : ℕ) (q : K) (x : ℕ) → IsAmong x (shelf_at K.eq self.old.tables.items v q) → IsAmong x (shelf_at K.eq self.new.tables.items v q) }
        ensures there { OnOk result (IsAmong index (shelf_at K.eq self.new.tables.items variable key)) }
    {
        reach_table(&mut self.tables, alloc, variable)?;
        push_under(&mut self.tables[variable], alloc, key, index)
    }
}

/// Makes the list of tables long enough for this variable, with nothing in those that come with it.
///
/// # Errors
///
/// Where there is no room for it.
fn reach_table<K: Eq + Hash + Drop>(
    tables: &mut Vec<HashMap<K, SmallVec<usize, 2>>>,
    alloc: Global,
    variable: usize,
) -> Result<(), AllocError>
    ensures kept { (v : ℕ) (q : K) (x : ℕ) → IsAmong x (shelf_at K.eq tables.old.items v q) → IsAmong x (shelf_at K.eq tables.new.items v q) }
    ensures there { OnOk result (variable < length tables.new.items) }
{
    while tables.len() <= variable {
        tables.push(HashMap::new(alloc))?;
    }
    Ok(())
}

/// Adds one under the key.
///
/// # Errors
///
/// Where there is no room for it.
fn push_under<K: Eq + Hash + Drop>(
    lists: &mut HashMap<K, SmallVec<usize, 2>>,
    alloc: Global,
    key: K,
    index: usize,
) -> Result<(), AllocError>
    ensures kept { (q : K) (x : ℕ) → IsAmong x (shelf K.eq lists.old q) → IsAmong x (shelf K.eq lists.new q) }
    ensures there { OnOk result (IsAmong index (shelf K.eq lists.new key)) }
{
    let entry = lists.entry(key)?;
    let list = entry.or_insert_with(|| SmallVec::new(alloc));
    list.push(index)?;
    Ok(())
}

/// A list of indices for each variable, found without a hash.
pub(crate) struct ByVariable {
    pub lists: Vec<SmallVec<usize, 2>>,
}

// Written out, so that it is proved once, and not at each exit of a function that owns one.
impl Drop for ByVariable {
    fn drop(self) {
        let ByVariable { lists: _ } = self;
    }
}

impl ByVariable {
    /// Nothing at any variable.
    pub(crate) fn new(alloc: Global) -> ByVariable
        ensures { (v : ℕ) → list_at result.lists.items v ≡ [] }
    {
        ByVariable {
            lists: Vec::new(alloc),
        }
    }

    /// Adds one at the variable.
    ///
    /// # Errors
    ///
    /// Where there is no room for it.
    pub(crate) fn push(
        &mut self,
        alloc: Global,
        variable: usize,
        index: usize,
    ) -> Result<(), AllocError>
        ensures kept { (v x : ℕ) → IsAmong x (list_at self.old.lists.items v) → IsAmong x (list_at self.new.lists.items v) }
        ensures there { OnOk result (IsAmong index (list_at self.new.lists.items variable)) }
    {
        reach(&mut self.lists, alloc, variable)?;
        self.lists[variable].push(index)?;
        Ok(())
    }
}

/// Makes the list long enough for this variable, with nothing at those that come with it.
///
/// # Errors
///
/// Where there is no room for it.
fn reach(
    lists: &mut Vec<SmallVec<usize, 2>>,
    alloc: Global,
    variable: usize,
) -> Result<(), AllocError>
    ensures kept { (v x : ℕ) → IsAmong x (list_at lists.old.items v) → IsAmong x (list_at lists.new.items v) }
    ensures there { OnOk result (variable < length lists.new.items) }
{
    while lists.len() <= variable {
        lists.push(SmallVec::new(alloc))?;
    }
    Ok(())
}
