//! Names and their numbers.

ghost use Rattle.std.specs.Prelude.{◌≡◌, ◌++◌, ◌∷◌, [], ◌<◌, ◌+◌, IfOk, IfSome, None, OnErr, OnOk, length};
ghost use Rattle.std.specs.Prelude.{string_bytes, take};
ghost use Rattle.std.specs.List.{IsDistinct};
ghost use Rattle.std.specs.Str.{bytes_eq};
ghost use Rattle.road_format.specs.Views.{texts};
ghost use Rattle.road_commands.specs.Laboratory.{number_of};

use indexmap::IndexSet;
use road_plan::OutOfMemory;
use std::alloc::Global;
use std::hash::BuildHasher;
use std::marker::Model;

/// Different names, numbered from 0 in their order. Contracts see the list of their texts. Each name is stored once,
/// and found by its hash, which an `S` makes. If the keys of the hashes are random, nobody can craft names with equal
/// hashes.
#[derive(Drop)]
pub struct Names<S: BuildHasher> {
    numbered: IndexSet<String, S>,
}

impl<S: BuildHasher> Model for Names<S> {
    ghost use Rattle.std.specs.Prelude.{List, ℕ};
    ghost use Rattle.road_format.specs.Views.{texts};

    ghost Value = { List (List ℕ) };

    ghost view = { λ names. texts names.numbered.keys };
}

impl<S: BuildHasher + Drop> Names<S> {
    /// Make an empty list of names that hashes with `hasher`. It does not allocate.
    pub fn empty(alloc: Global, hasher: S) -> Names<S>
        ensures { result ≡ [] }
    {
        Names {
            numbered: IndexSet::with_hasher(alloc, hasher),
        }
    }

    /// Make the list of these names, numbered in this order. They must all be different.
    ///
    /// # Errors
    ///
    /// `OutOfMemory` if an allocation failed.
    pub fn of(alloc: Global, names: Vec<String>, hasher: S) -> Result<Names<S>, OutOfMemory>
        requires { IsDistinct bytes_eq (texts names.items) }
        ensures { IfOk result (λ made. made ≡ texts names.items) }
    {
        let mut numbered = Names::empty(alloc, hasher);
        for name in names {
            numbered.add(name)?;
        }
        Ok(numbered)
    }

    /// Return the number of names.
    pub fn len(&self) -> usize
        ensures { result ≡ length self.now }
    {
        self.numbered.len()
    }

    /// Return the number of a name, or None if the name is not in the list.
    pub fn number_of(&self, name: &str) -> Option<usize>
        ensures number { result ≡ number_of self.now name.now }
        ensures within { IfSome result (λ number. number < length self.now) }
    {
        self.numbered.get_index_of(name)
    }

    /// Add a name at the end. It must not be in the list yet.
    ///
    /// # Errors
    ///
    /// `OutOfMemory` if an allocation failed.
    pub fn add(&mut self, name: String) -> Result<(), OutOfMemory>
        requires { number_of self.old (string_bytes name) ≡ None }
        ensures after { OnOk result (self.new ≡ self.old ++ string_bytes name ∷ []) }
        ensures unchanged { OnErr result (self.new ≡ self.old) }
    {
        self.numbered.insert(name)?;
        Ok(())
    }

    /// Remove the last name. `count` must be the number of names that remain.
    pub fn truncate(&mut self, count: usize)
        requires { length self.old ≡ count + 1 }
        ensures { self.new ≡ take count self.old }
    {
        self.numbered.truncate(count);
    }
}
