ghost use Rattle.std.specs.Prelude.{◌≡◌, ◌∷◌, [], IfOk, IfErr, is_some, unwrap_or, true, map, length};
ghost use Rattle.std.specs.Option.{option_copied};
ghost use Rattle.std.specs.BTreeMap.{insert_entry};
ghost use Rattle.std.specs.List.Sorted.{IsStrictlySortedBy, IsSearchInRange};
ghost use Rattle.lvish_lattice.specs.Lattice.{fresh_of, IsOutcome};
ghost use Rattle.lvish_compound.specs.Keyed.{key, add, at};
ghost use Rattle.lvish_compound.specs.Blocks.{IsAt, IsGap, stored_entries};

use lvish_lattice::{Brought, Lattice, Plain};
use std::alloc::{AllocError, Global};
use std::marker::Model;

/// One entry in place, or a list in the order of the keys.
pub(crate) enum Held<K, L> {
    One((K, L)),
    Many(Vec<(K, L)>),
}

// Written out, so that it is proved once, and not at each exit of a function that owns one.
impl<K: Drop, L: Drop> Drop for Held<K, L> {
    fn drop(self) {
        match self {
            Held::One(_) => {}
            Held::Many(_) => {}
        }
    }
}

/// Entries of keys that have the same high part, seen as their list in the order of the keys.
pub(crate) struct Block<K, L> {
    held: Held<K, L>,
}

// Written out, so that it is proved once, and not at each exit of a function that owns one.
impl<K: Drop, L: Drop> Drop for Block<K, L> {
    fn drop(self) {
        let Block { held: _ } = self;
    }
}

impl<K, L> Model for Block<K, L> {
    ghost use Rattle.std.specs.Prelude.{List};
    ghost use Rattle.lvish_compound.specs.Blocks.{stored_entries};

    ghost Value = { List (K × L) };

    ghost view = { λ b. stored_entries b.held };
}

/// The part joined to bottom, and what that brought; bottom itself, and `Listed`, where it has to be
/// listed, or memory was refused.
pub(crate) fn first_part<L: Lattice>(alloc: Global, part: &L) -> (L, Brought<L::Event>)
    ensures { IsOutcome (L.joined L.least part.now) (fresh_of L.joined L.Event.eq L.events_of L.least part.now) L.least result.0 result.1 }
{
    let mut bottom = L::bottom(alloc);
    match bottom.merge_one(alloc, part) {
        Ok(brought) => (bottom, brought),
        Err(_) => (bottom, Brought::Listed),
    }
}

/// Where the key stands, or would stand: by one comparison a step, with `of`, and not by the three-way
/// one of `binary_search_by`, which takes longer.
fn place<K: Plain, L>(entries: &[(K, L)], of: K) -> Result<usize, usize>
    requires { IsStrictlySortedBy K.cmp (map key entries.now) }
    ensures bound { IsSearchInRange result (length entries.now) }
    ensures found { IfOk result (IsAt K.cmp of entries.now) }
    ensures gap { IfErr result (IsGap K.cmp of entries.now) }
{
    let mut low = 0;
    let mut top = entries.len();
    while low < top {
        let middle = low + (top - low) / 2;
        if of > entries[middle].0 {
            low = middle + 1;
        } else {
            top = middle;
        }
    }
    if low == entries.len() {
        return Err(low);
    }
    if of == entries[low].0 {
        return Ok(low);
    }
    Err(low)
}

/// Puts an entry in its place.
fn put_among<K: Plain, L: Drop>(entries: &mut Vec<(K, L)>, of: K, part: L) -> Result<(), AllocError>
    requires { IsStrictlySortedBy K.cmp (map key entries.old.items) }
    ensures inserted { IfOk result (λ _. entries.new.items ≡ insert_entry K.cmp entries.old.items of part) }
    ensures refused { IfErr result (λ _. entries.new.items ≡ entries.old.items) }
{
    match place(entries.as_slice(), of) {
        Ok(at) => entries[at].1 = part,
        Err(at) => entries.insert(at, (of, part))?,
    }
    Ok(())
}

/// Joins the part to what the key holds, as `Block::join_at`.
fn join_among<K: Plain, L: Lattice>(
    entries: &mut Vec<(K, L)>,
    alloc: Global,
    of: K,
    part: &L,
) -> Result<bool, AllocError>
    requires { IsStrictlySortedBy K.cmp (map key entries.old.items) }
    ensures added { IfOk result (λ b. (b ≡ is_some (add K.cmp L.least L.joined of part.now entries.old.items)) × (entries.new.items ≡ unwrap_or (add K.cmp L.least L.joined of part.now entries.old.items) entries.old.items)) }
    ensures refused { IfErr result (λ _. entries.new.items ≡ entries.old.items) }
{
    match place(entries.as_slice(), of) {
        Ok(at) => entries[at].1.merge(alloc, part),
        Err(at) => {
            let part = part.copy(alloc)?;
            entries.insert(at, (of, part))?;
            Ok(true)
        }
    }
}

/// Joins the part to what the key holds, as `Block::merge_one_at`.
fn merge_one_among<K: Plain, L: Lattice>(
    entries: &mut Vec<(K, L)>,
    alloc: Global,
    of: K,
    part: &L,
) -> Result<Brought<L::Event>, AllocError>
    requires { IsStrictlySortedBy K.cmp (map key entries.old.items) }
    ensures merged { IfOk result (λ b. IsOutcome (add K.cmp L.least L.joined of part.now entries.old.items) (fresh_of L.joined L.Event.eq L.events_of (at K.cmp L.least L.joined entries.old.items of) part.now) entries.old.items entries.new.items b) }
    ensures refused { IfErr result (λ _. entries.new.items ≡ entries.old.items) }
{
    match place(entries.as_slice(), of) {
        Ok(at) => entries[at].1.merge_one(alloc, part),
        Err(at) => {
            let (first, brought) = first_part(alloc, part);
            // Where a list has to say what is brought, no part is put, and the entries stay.
            match brought {
                Brought::Listed => Ok(Brought::Listed),
                _ => {
                    entries.insert(at, (of, first))?;
                    Ok(brought)
                }
            }
        }
    }
}

/// An entry, and another put beside it.
fn widened<K: Plain, L: Lattice>(
    alloc: Global,
    entry: &(K, L),
    of: K,
    part: L,
) -> Result<Held<K, L>, AllocError>
    ensures { IfOk result (λ h. stored_entries h ≡ insert_entry K.cmp (entry.now ∷ []) of part) }
{
    let first = entry.1.copy(alloc)?;
    let mut entries = Vec::with_capacity(alloc, 2)?;
    entries.push((entry.0, first))?;
    put_among(&mut entries, of, part)?;
    Ok(Held::Many(entries))
}

impl<K, L> Block<K, L> {
    /// The entries as they are stored.
    pub fn held(&self) -> &Held<K, L>
        ensures { stored_entries result.now ≡ self.now }
    {
        &self.held
    }
}

impl<K: Plain, L: Lattice> Block<K, L> {
    /// A block of one entry.
    pub fn of_one(entry: (K, L)) -> Block<K, L>
        ensures { result ≡ entry ∷ [] }
    {
        Block {
            held: Held::One(entry),
        }
    }

    pub fn len(&self) -> usize
        ensures { result ≡ length self.now }
    {
        match &self.held {
            Held::One(_) => 1,
            Held::Many(entries) => entries.len(),
        }
    }

    /// The part that the key holds, `None` where it holds bottom.
    pub fn find(&self, of: K) -> Option<&L>
        requires { IsStrictlySortedBy K.cmp (map key self.now) }
        ensures { unwrap_or (option_copied result) L.least ≡ at K.cmp L.least L.joined self.now of }
    {
        match &self.held {
            Held::One(entry) => {
                if of == entry.0 {
                    return Some(&entry.1);
                }
                None
            }
            Held::Many(entries) => match place(entries.as_slice(), of) {
                Ok(at) => Some(&entries[at].1),
                Err(_) => None,
            },
        }
    }

    /// Puts an entry in its place.
    pub fn put(&mut self, alloc: Global, of: K, part: L) -> Result<(), AllocError>
        requires { IsStrictlySortedBy K.cmp (map key self.old) }
        ensures inserted { IfOk result (λ _. self.new ≡ insert_entry K.cmp self.old of part) }
        ensures refused { IfErr result (λ _. self.new ≡ self.old) }
    {
        self.held = match &mut self.held {
            Held::One(entry) => widened(alloc, entry, of, part)?,
            Held::Many(entries) => return put_among(entries, of, part),
        };
        Ok(())
    }

    /// Joins the part to what the key holds. Answers false, and changes nothing, where that is top.
    pub fn join_at(&mut self, alloc: Global, of: K, part: &L) -> Result<bool, AllocError>
        requires { IsStrictlySortedBy K.cmp (map key self.old) }
        ensures added { IfOk result (λ b. (b ≡ is_some (add K.cmp L.least L.joined of part.now self.old)) × (self.new ≡ unwrap_or (add K.cmp L.least L.joined of part.now self.old) self.old)) }
        ensures refused { IfErr result (λ _. self.new ≡ self.old) }
    {
        match &mut self.held {
            Held::One(entry) => {
                if of == entry.0 {
                    return entry.1.merge(alloc, part);
                }
                let part = part.copy(alloc)?;
                self.put(alloc, of, part)?;
                Ok(true)
            }
            Held::Many(entries) => join_among(entries, alloc, of, part),
        }
    }

    /// Joins the part to what the key holds, and says what it brought there, as `Lattice::merge_one`.
    pub fn merge_one_at(
        &mut self,
        alloc: Global,
        of: K,
        part: &L,
    ) -> Result<Brought<L::Event>, AllocError>
        requires { IsStrictlySortedBy K.cmp (map key self.old) }
        ensures merged { IfOk result (λ b. IsOutcome (add K.cmp L.least L.joined of part.now self.old) (fresh_of L.joined L.Event.eq L.events_of (at K.cmp L.least L.joined self.old of) part.now) self.old self.new b) }
        ensures refused { IfErr result (λ _. self.new ≡ self.old) }
    {
        match &mut self.held {
            Held::One(entry) => {
                if of == entry.0 {
                    return entry.1.merge_one(alloc, part);
                }
                Ok(Brought::Listed)
            }
            Held::Many(entries) => merge_one_among(entries, alloc, of, part),
        }
    }
}
