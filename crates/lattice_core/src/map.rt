//! Maps to a lattice, joined key by key.

ghost use Rattle.std.specs.Prelude.{◌≡◌, ◌↔◌, [], IfOk, IfSome, IsOk, IsTrue, T};
ghost use Rattle.std.specs.Option.{option_copied};
ghost use Rattle.std.specs.FinMap.Entries.{find, is_sorted};
ghost use Rattle.std.specs.Map.{keys_of};
ghost use Rattle.lattice_core.specs.Map.{IsHeld, IsProperMap, map_with, map_join, entries_up_to};
ghost use Rattle.lattice_core.specs.Map.{entries_after};
ghost use Rattle.lattice_core.specs.Private.Entries.{IsAtMostOption, IsPaged, all_entries};

use crate::OutOfMemory;
use crate::entries::{Entries, Keys};
use crate::exact::Exact;
use crate::lattice::Lattice;
use crate::page::Page;
use crate::pages::{join_in, share, value_in};
use crate::search::count_up_to;
use std::alloc::Global;
use std::marker::Model;
use std::sync::Arc;

/// A map to a lattice, joined key by key. It never holds a bottom, so two maps that have equal values at every key are
/// equal. Contracts see it as the list of its entries by rising key. The entries lie in pages, which maps share. A copy
/// is one more owner of the list of pages. A join copies the list of the map that has more pages, and each page in
/// which the other map has a key.
#[derive(Drop)]
pub struct LatMap<K: Exact, V: Lattice> {
    // Each page with its first key. A map without entries has no list of pages.
    pages: Option<Arc<Vec<(K, Page<K, V>)>>>,
    alloc: Global,
}

impl<K: Exact, V: Lattice> Model for LatMap<K, V> {
    ghost use Rattle.std.specs.Prelude.{List, vec_items};
    ghost use Rattle.std.specs.Arc.{arc_value};
    ghost use Rattle.lattice_core.specs.Private.Entries.{IsPaged, all_entries, items_if_any};

    ghost Value = { List (K × V) };

    ghost view = { λ a. all_entries (items_if_any a.pages (λ p. vec_items (arc_value p))) };

    ghost invariant = { λ a. IsPaged K.cmp V.is_proper V.is_least
        (items_if_any a.pages (λ p. vec_items (arc_value p))) };
}

impl<K: Exact, V: Lattice> LatMap<K, V> {
    /// Make the map without entries, the bottom. Its joins and copies allocate from `alloc` too.
    pub fn empty(alloc: Global) -> Self
        ensures { result ≡ [] }
    {
        LatMap { pages: None, alloc }
    }

    /// Return the value at a key, never a bottom.
    pub fn get(&self, key: K) -> Option<&V>
        ensures value { option_copied result ≡ find K.cmp key self.now }
        ensures held { IfSome result (λ value. IsHeld V.is_proper V.is_least value.now) }
    {
        value_in(self.pages(), key)
    }

    /// Iterate over the keys, in rising order.
    pub fn keys(&self) -> Keys<'_, K, V>
        ensures all { result ≡ keys_of self.now }
        ensures rising { T (is_sorted K.cmp self.now) }
    {
        Keys {
            entries: self.iter(),
        }
    }

    /// Iterate over the entries by rising key. No value is a bottom.
    pub fn iter(&self) -> Entries<'_, K, V>
        ensures all { result ≡ self.now }
        ensures proper { IsProperMap K.cmp V.is_proper V.is_least self.now }
    {
        Entries::of(&[], self.pages(), &[])
    }

    /// Iterate over the entries up to and including a key, by rising key, from either end. It takes one look-up.
    pub fn up_to(&self, key: K) -> Entries<'_, K, V>
        ensures { result ≡ entries_up_to K.cmp key self.now }
    {
        let (up_to, _) = self.split_at_key(key);
        up_to
    }

    /// Iterate over the entries after a key, by rising key, from either end. It takes one look-up.
    pub fn after(&self, key: K) -> Entries<'_, K, V>
        ensures { result ≡ entries_after K.cmp key self.now }
    {
        let (_, after) = self.split_at_key(key);
        after
    }

    /// Copy the map, with `value` joined in at `key`. A bottom adds nothing.
    ///
    /// # Errors
    ///
    /// `OutOfMemory` if an allocation failed. Map and value are then unchanged.
    pub fn with(&self, key: K, value: &V) -> Result<Self, OutOfMemory>
        ensures { IfOk result (λ new. new ≡ map_with K.cmp V.join V.is_least self.now key value.now) }
    {
        if value.is_bottom() {
            return self.copied();
        }
        let mut pages = share(self.alloc, self.pages())?;
        join_in(self.alloc, &mut pages, key, value)?;
        let pages = Arc::new(self.alloc, pages)?;
        Ok(LatMap {
            pages: Some(pages),
            alloc: self.alloc,
        })
    }

    fn pages(&self) -> &[(K, Page<K, V>)]
        ensures all { all_entries result.now ≡ self.now }
        ensures paged { IsPaged K.cmp V.is_proper V.is_least result.now }
    {
        match &self.pages {
            Some(pages) => pages,
            None => &[],
        }
    }

    // Return the entries up to a key, and the entries after it.
    fn split_at_key(&self, key: K) -> (Entries<'_, K, V>, Entries<'_, K, V>)
        ensures up_to { result.0 ≡ entries_up_to K.cmp key self.now }
        ensures after { result.1 ≡ entries_after K.cmp key self.now }
    {
        let pages = self.pages();
        let count = count_up_to(pages, key);
        if count == 0 {
            return (Entries::of(&[], &[], &[]), Entries::of(&[], pages, &[]));
        }
        let entries = pages[count - 1].1.entries();
        let (up_to, after) = entries.split_at(count_up_to(entries, key));
        (
            Entries::of(&[], &pages[..count - 1], up_to),
            Entries::of(after, &pages[count..], &[]),
        )
    }

    // Share the pages, and join in each entry of `other`.
    fn with_all(&self, other: &Self) -> Result<Self, OutOfMemory>
        ensures { IfOk result (λ new. new ≡ map_join K.cmp V.join V.is_least self.now other.now) }
    {
        let mut pages = share(self.alloc, self.pages())?;
        for (key, value) in other.iter() {
            join_in(self.alloc, &mut pages, *key, value)?;
        }
        let pages = Arc::new(self.alloc, pages)?;
        Ok(LatMap {
            pages: Some(pages),
            alloc: self.alloc,
        })
    }
}

impl<K: Exact, V: Lattice> Lattice for LatMap<K, V> {
    ghost use Rattle.lattice_core.specs.Map.{IsProperMap, map_join, is_empty};
    ghost use Rattle.lattice_core.specs.Instances.JoinedMaps.{map_laws};

    ghost is_proper = { IsProperMap K.cmp V.is_proper V.is_least };

    ghost join = { map_join K.cmp V.join V.is_least };

    ghost is_least = { is_empty };

    ghost laws = { map_laws K.cmp K.total K.exact V.is_proper V.join V.is_least V.laws };

    /// Join the two maps key by key. It does not allocate if both maps are empty.
    ///
    /// # Errors
    ///
    /// `OutOfMemory` if an allocation failed. Both maps are then unchanged.
    fn joined(&self, other: &Self) -> Result<Self, OutOfMemory>
        ensures made { IfOk result (λ joined. joined ≡ map_join K.cmp V.join V.is_least self.now other.now) }
        ensures grows_nothing { self.now ≡ [] → other.now ≡ [] → IsOk result }
    {
        if other.is_bottom() {
            return self.copied();
        }
        if self.pages().len() < other.pages().len() {
            return other.with_all(self);
        }
        self.with_all(other)
    }

    /// Return an equal map, which shares the pages. It does not allocate.
    ///
    /// # Errors
    ///
    /// `OutOfMemory` if the pages can have no more owners.
    fn copied(&self) -> Result<Self, OutOfMemory>
        ensures made { IfOk result (λ copy. copy ≡ self.now) }
        ensures grows_nothing { self.now ≡ [] → IsOk result }
    {
        if self.is_bottom() {
            return Ok(LatMap::empty(self.alloc));
        }
        let pages = match &self.pages {
            Some(pages) => Some(Arc::try_clone(pages)?),
            None => None,
        };
        Ok(LatMap {
            pages,
            alloc: self.alloc,
        })
    }

    fn is_bottom(&self) -> bool {
        self.pages().is_empty()
    }

    fn at_most(&self, other: &Self) -> bool {
        let theirs = other.pages();
        for (key, value) in self.iter() {
            if !is_up_to(value, value_in(theirs, *key)) {
                return false;
            }
        }
        true
    }
}

// Return whether a value is at most the other one; false if the other one is missing.
fn is_up_to<V: Lattice>(value: &V, other: Option<&V>) -> bool
    ensures { IsTrue result ↔ IsAtMostOption V.join value.now (option_copied other.entry) }
{
    match other {
        Some(other) => value.at_most(other),
        None => false,
    }
}
