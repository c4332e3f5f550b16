//! Merges worked out by hand, of values of generic types.

use crate::assert_row;
use lattice_core::OutOfMemory;
use lattice_core::both::Both;
use lattice_core::greatest::Greatest;
use lattice_core::lattice::Lattice;
use lattice_core::map::LatMap;
use std::alloc::Global;
use std::test::Fail;

/// A register that holds the value with the latest stamp.
type Register = Greatest<(u32, u32)>;

/// A step, and what is put there.
type Entry = (u32, Register);

/// A register for each step, and a horizon: the content of a replica.
type Replica = Both<LatMap<u32, Register>, Greatest<u32>>;

const TWO: Register = Greatest::Of((7, 2));

const THREE: Register = Greatest::Of((7, 3));

const EARLIER: Register = Greatest::Of((6, 9));

/// Two registers, and their join. Of two values with the same stamp the greater value wins.
const REGISTERS: &[(Register, Register, Register)] = &[
    (TWO, THREE, THREE),
    (THREE, TWO, THREE),
    (EARLIER, TWO, TWO),
    (TWO, EARLIER, TWO),
    (Greatest::Nothing, TWO, TWO),
    (TWO, Greatest::Nothing, TWO),
];

// Return whether two values join to a third one.
fn joins_to<L: Lattice>(first: &L, second: &L, both: &L) -> Result<bool, OutOfMemory> {
    let joined = first.joined(second)?.copied()?;
    Ok(joined.at_most(both) && both.at_most(&joined) && first.at_most(both) && !both.is_bottom())
}

#[test]
fn of_equal_stamps_the_greater_value_wins(rt: HostRuntime) -> Result<(), Fail> {
    for (row, (first, second, both)) in REGISTERS.iter().enumerate() {
        assert_row(&rt, row, joins_to(first, second, both)?);
    }
    Ok(())
}

/// The content of two replicas, and their content after a merge, in the order of steps.
const MERGES: &[(&[Entry], &[Entry], &[Entry])] = &[
    (&[], &[], &[]),
    (&[], &[(5, TWO)], &[(5, TWO)]),
    (&[(0, THREE), (0, TWO)], &[], &[(0, THREE)]),
    // keys on one side only
    (
        &[(5, TWO), (9, THREE)],
        &[(5, THREE), (3, TWO)],
        &[(3, TWO), (5, THREE), (9, THREE)],
    ),
    // the bottom is not stored
    (&[(4, Greatest::Nothing)], &[(8, TWO)], &[(8, TWO)]),
];

// Return the map of these puts, in this order.
fn map_of(alloc: Global, puts: &[Entry]) -> Result<LatMap<u32, Register>, OutOfMemory> {
    let mut map = LatMap::empty(alloc);
    for (step, register) in puts {
        map = map.with(*step, register)?;
    }
    Ok(map)
}

// Make a replica that holds these puts, advanced to a horizon.
fn replica(alloc: Global, puts: &[Entry], horizon: Greatest<u32>) -> Result<Replica, OutOfMemory> {
    Ok(Both {
        first: map_of(alloc, puts)?,
        second: horizon,
    })
}

// Return whether a map has the keys of these entries, in this order.
fn has_keys(map: &LatMap<u32, Register>, entries: &[Entry]) -> bool {
    let mut keys = map.keys();
    for (step, _) in entries {
        if keys.next() != Some(step) {
            return false;
        }
    }
    keys.next().is_none()
}

// Return whether a map has exactly these entries in the order of their keys, and finds each by its key.
fn has_entries(map: &LatMap<u32, Register>, entries: &[Entry]) -> bool {
    let mut left = entries.iter();
    for (step, register) in map.iter() {
        let is_next = match left.next() {
            Some((at, wanted)) => at == step && wanted == register,
            None => false,
        };
        if !is_next || map.get(*step) != Some(register) {
            return false;
        }
    }
    left.next().is_none() && has_keys(map, entries)
}

// Return whether two replicas merge to a replica with these entries, advanced to 6.
fn merge_to(first: &Replica, second: &Replica, entries: &[Entry]) -> Result<bool, OutOfMemory> {
    let both = first.joined(second)?;
    Ok(
        both.second == Greatest::Of(6)
            && has_entries(&both.first, entries)
            && joins_to(first, second, &both)?,
    )
}

// Return whether merging a replica with one that has these puts and no horizon gives these entries. A replica without
// puts is the least.
fn merges_with(
    alloc: Global,
    first: &Replica,
    theirs: &[Entry],
    entries: &[Entry],
) -> Result<bool, OutOfMemory> {
    let second = replica(alloc, theirs, Greatest::Nothing)?;
    Ok(second.is_bottom() == theirs.is_empty() && merge_to(first, &second, entries)?)
}

// Return whether a replica of these puts, advanced to 6, merges as expected.
fn merges(
    alloc: Global,
    ours: &[Entry],
    theirs: &[Entry],
    entries: &[Entry],
) -> Result<bool, OutOfMemory> {
    let first = replica(alloc, ours, Greatest::Of(6))?;
    merges_with(alloc, &first, theirs, entries)
}

#[test]
fn replicas_merge_key_by_key(rt: HostRuntime) -> Result<(), Fail> {
    for (row, (ours, theirs, entries)) in MERGES.iter().enumerate() {
        assert_row(&rt, row, merges(rt.alloc(), ours, theirs, entries)?);
    }
    Ok(())
}
