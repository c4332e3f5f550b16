//! A page: some of a map's entries in one allocation, which several maps can share.

ghost use Rattle.std.specs.Prelude.{◌≡◌, ◌<◌, [], ◌∷◌, IfOk, T, length};
ghost use Rattle.std.specs.FinMap.Entries.{is_sorted};
ghost use Rattle.lattice_core.specs.Private.Entries.{BeginsWith, put_joined};

use crate::OutOfMemory;
use crate::exact::Exact;
use crate::lattice::Lattice;
use crate::search::{count_up_to, is_before};
use std::alloc::Global;
use std::marker::Model;
use std::sync::Arc;

// The maximum number of entries of a page. To add an entry to a map, one page is copied, and one more owner is counted
// for each other page. With shorter pages this takes longer for a map of 100,000 entries, and with longer pages for a
// map of a few hundred.
pub(crate) const PAGE_LENGTH: usize = 256;

// Some of a map's entries by rising key, at least one. Contracts see a page as the list of its entries.
#[derive(Drop)]
pub(crate) struct Page<K: Exact, V: Lattice> {
    entries: Arc<Vec<(K, V)>>,
    alloc: Global,
}

impl<K: Exact, V: Lattice> Model for Page<K, V> {
    ghost use Rattle.std.specs.Prelude.{List, T};
    ghost use Rattle.std.specs.Arc.{arc_value};
    ghost use Rattle.std.specs.FinMap.Entries.{is_sorted};

    ghost Value = { List (K × V) };

    ghost view = { λ p. (arc_value p.entries).items };

    ghost invariant = { λ p. T (is_sorted K.cmp (arc_value p.entries).items) };
}

impl<K: Exact, V: Lattice> Page<K, V> {
    // Make a page of one entry.
    pub(crate) fn of_one(alloc: Global, key: K, value: &V) -> Result<Self, OutOfMemory>
        ensures { IfOk result (λ page. page ≡ (key, value.now) ∷ []) }
    {
        let mut entries = Vec::with_capacity(alloc, 1)?;
        entries.push((key, value.copied()?))?;
        Ok(Page {
            entries: Arc::new(alloc, entries)?,
            alloc,
        })
    }

    // Make a page of copies of these entries, and return it with its first key.
    pub(crate) fn of_entries(alloc: Global, entries: &[(K, V)]) -> Result<(K, Self), OutOfMemory>
        requires some { 0 < length entries.now }
        requires rising { T (is_sorted K.cmp entries.now) }
        ensures all { IfOk result (λ page. page.1 ≡ entries.now) }
        ensures first { IfOk result (λ page. BeginsWith page.0 page.1) }
    {
        let first = entries[0].0;
        let copies = copied(alloc, entries)?;
        let page = Page {
            entries: Arc::new(alloc, copies)?,
            alloc,
        };
        Ok((first, page))
    }

    pub(crate) fn entries(&self) -> &[(K, V)]
        ensures all { result.now ≡ self.now }
        ensures rising { T (is_sorted K.cmp result.now) }
    {
        &self.entries
    }

    // Count one more owner of the page.
    pub(crate) fn share(&self) -> Result<Self, OutOfMemory>
        ensures { IfOk result (λ page. page ≡ self.now) }
    {
        Ok(Page {
            entries: Arc::try_clone(&self.entries)?,
            alloc: self.alloc,
        })
    }

    // Join a value in at a key: in place if the page has one owner, else in a copy.
    pub(crate) fn join_in(&mut self, key: K, value: &V) -> Result<(), OutOfMemory>
        ensures { IfOk result (λ _. self.new ≡ put_joined K.cmp V.join self.old key value.now) }
    {
        match Arc::get_mut(&mut self.entries) {
            Some(entries) => join_in(entries, key, value),
            None => {
                let mut copies = copied(self.alloc, &self.entries)?;
                join_in(&mut copies, key, value)?;
                self.entries = Arc::new(self.alloc, copies)?;
                Ok(())
            }
        }
    }
}

// Copy these entries, with room for one more.
fn copied<K: Exact, V: Lattice>(
    alloc: Global,
    entries: &[(K, V)],
) -> Result<Vec<(K, V)>, OutOfMemory>
    ensures { IfOk result (λ copies. copies.items ≡ entries.now) }
{
    let mut copies = Vec::with_capacity(alloc, entries.len().saturating_add(1))?;
    for (key, value) in entries {
        copies.push((*key, value.copied()?))?;
    }
    Ok(copies)
}

// Join a value in at a key. The keys rise even if memory runs out.
fn join_in<K: Exact, V: Lattice>(
    entries: &mut Vec<(K, V)>,
    key: K,
    value: &V,
) -> Result<(), OutOfMemory>
    requires { T (is_sorted K.cmp entries.old.items) }
    ensures joined { IfOk result (λ _. entries.new.items ≡ put_joined K.cmp V.join entries.old.items key value.now) }
    ensures rising { T (is_sorted K.cmp entries.new.items) }
{
    let count = count_up_to(entries, key);
    if count > 0 && !is_before(entries[count - 1].0, key) {
        let joined = entries[count - 1].1.joined(value)?;
        entries[count - 1] = (key, joined);
        return Ok(());
    }
    entries.insert(count, (key, value.copied()?))?;
    Ok(())
}
