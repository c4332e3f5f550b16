//! Iterators over a map's entries and keys, page by page.

ghost use Rattle.std.specs.Prelude.{◌≡◌, ◌++◌, length};
ghost use Rattle.std.specs.Iterator.{at_most};
ghost use Rattle.std.specs.Map.{keys_of};
ghost use Rattle.std.specs.Map.Iter.{TakesFirst, TakesLast, deref, deref_pair};
ghost use Rattle.lattice_core.specs.Private.Entries.{all_entries};

use crate::exact::Exact;
use crate::lattice::Lattice;
use crate::page::Page;
use std::marker::Model;

/// Iterator over entries of a map by rising key, from either end. Contracts see it as the list of the entries that are
/// left.
#[derive(Drop)]
pub struct Entries<'a, K: Exact, V: Lattice> {
    // The rest of the page that is being read from the front.
    front: &'a [(K, V)],
    // The pages between, all unread.
    pages: &'a [(K, Page<K, V>)],
    // The rest of the page that is being read from the back.
    back: &'a [(K, V)],
}

impl<'a, K: Exact, V: Lattice> Model for Entries<'a, K, V> {
    ghost use Rattle.std.specs.Prelude.{List, ◌++◌};
    ghost use Rattle.lattice_core.specs.Private.Entries.{all_entries};

    ghost Value = { List (K × V) };

    ghost view = { λ e. e.front.now ++ (all_entries e.pages.now ++ e.back.now) };
}

impl<'a, K: Exact, V: Lattice> Entries<'a, K, V> {
    pub(crate) fn of(front: &'a [(K, V)], pages: &'a [(K, Page<K, V>)], back: &'a [(K, V)]) -> Self
        ensures { result ≡ front.now ++ (all_entries pages.now ++ back.now) }
    {
        Entries { front, pages, back }
    }
}

impl<'a, K: Exact, V: Lattice> Iterator for Entries<'a, K, V> {
    type Item = (&'a K, &'a V);

    ghost next_gives = { TakesFirst deref_pair };

    ghost remaining = { λ rest. at_most (length rest) };

    fn next(&mut self) -> Option<(&'a K, &'a V)> {
        'walk: loop {
            if let Some(entry) = take_first(&mut self.front) {
                return Some(entry);
            }
            match self.pages.split_first() {
                Some(((_, page), others)) => {
                    self.front = page.entries();
                    self.pages = others;
                }
                None => return take_first(&mut self.back),
            }
        }
    }
}

impl<'a, K: Exact, V: Lattice> DoubleEndedIterator for Entries<'a, K, V> {
    ghost next_back_gives = { TakesLast deref_pair };

    fn next_back(&mut self) -> Option<(&'a K, &'a V)> {
        'walk: loop {
            if let Some(entry) = take_last(&mut self.back) {
                return Some(entry);
            }
            match self.pages.split_last() {
                Some(((_, page), others)) => {
                    self.back = page.entries();
                    self.pages = others;
                }
                None => return take_last(&mut self.front),
            }
        }
    }
}

/// Iterator over keys of a map, in rising order. Contracts see it as the list of the keys that are left.
#[derive(Drop)]
pub struct Keys<'a, K: Exact, V: Lattice> {
    pub(crate) entries: Entries<'a, K, V>,
}

impl<'a, K: Exact, V: Lattice> Model for Keys<'a, K, V> {
    ghost use Rattle.std.specs.Prelude.{List};
    ghost use Rattle.std.specs.Map.{keys_of};

    ghost Value = { List K };

    ghost view = { λ k. keys_of k.entries };
}

impl<'a, K: Exact, V: Lattice> Iterator for Keys<'a, K, V> {
    type Item = &'a K;

    ghost next_gives = { TakesFirst deref };

    ghost remaining = { λ rest. at_most (length rest) };

    fn next(&mut self) -> Option<&'a K> {
        match self.entries.next() {
            Some((key, _)) => Some(key),
            None => None,
        }
    }
}

// Remove the first of some entries and return it.
fn take_first<'a, K, V>(left: &mut &'a [(K, V)]) -> Option<(&'a K, &'a V)>
    ensures { TakesFirst deref_pair left.old.now result left.new.now }
{
    match left.split_first() {
        Some(((key, value), others)) => {
            *left = others;
            Some((key, value))
        }
        None => None,
    }
}

// Remove the last of some entries and return it.
fn take_last<'a, K, V>(left: &mut &'a [(K, V)]) -> Option<(&'a K, &'a V)>
    ensures { TakesLast deref_pair left.old.now result left.new.now }
{
    match left.split_last() {
        Some(((key, value), others)) => {
            *left = others;
            Some((key, value))
        }
        None => None,
    }
}
