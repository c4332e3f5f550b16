//! Maps of up to a thousand keys, which are stored in several pages, compared with the standard library's map.

use crate::assert_row;
use lattice_core::OutOfMemory;
use lattice_core::entries::Entries;
use lattice_core::greatest::Greatest;
use lattice_core::lattice::Lattice;
use lattice_core::map::LatMap;
use std::alloc::Global;
use std::collections::BTreeMap;
use std::collections::btree_map::Range;
use std::ops::Bound;
use std::process::Abort;
use std::test::Fail;
use tests_plans::Dice;

/// One more than the largest key.
const KEYS: u32 = 2_000;

/// The order of the keys of a map.
#[derive(Clone, Copy)]
enum Order {
    Rising,
    Falling,
    Mixed,
}

const ORDERS: &[Order] = &[Order::Rising, Order::Falling, Order::Mixed];

/// The number of entries that are put into a map one by one, and into the map that it is joined with.
const PUTS: &[(u32, u32)] = &[
    (0, 0),
    (1, 0),
    (2, 0),
    (255, 0),
    (256, 0),
    (257, 0),
    (384, 0),
    (1_000, 0),
    (0, 600),
    (3, 1_000),
    (1_000, 3),
    (600, 1_000),
    (1_000, 1_000),
];

// Return the key that is put at this place.
fn key(dice: &mut Dice, order: Order, place: u32) -> u32 {
    match order {
        Order::Rising => place.saturating_mul(2),
        Order::Falling => KEYS.saturating_sub(place.saturating_mul(2)),
        Order::Mixed => dice.below(KEYS),
    }
}

type Value = Greatest<u32>;

type Map = LatMap<u32, Value>;

/// The expected content of a map.
type Held = BTreeMap<u32, u32>;

// Make a map of this many puts, and put the same into the expected content.
fn put_many(
    alloc: Global,
    held: &mut Held,
    dice: &mut Dice,
    order: Order,
    count: u32,
) -> Result<Map, OutOfMemory> {
    let mut map = LatMap::empty(alloc);
    for place in 0..count {
        let (key, value) = (key(dice, order, place), dice.below(9));
        map = map.with(key, &Greatest::Of(value))?;
        put(held, key, value)?;
    }
    Ok(map)
}

// Put a value, unless a greater value is held.
fn put(held: &mut Held, key: u32, value: u32) -> Result<(), OutOfMemory> {
    let greater = match held.get(&key) {
        Some(present) => value.max(*present),
        None => value,
    };
    held.insert(key, greater)?;
    Ok(())
}

// Return whether an entry is the expected next one.
fn is_same(entry: Option<(&u32, &Value)>, held: Option<(&u32, &u32)>) -> bool {
    match (entry, held) {
        (Some((key, value)), Some((at, number))) => key == at && *value == Greatest::Of(*number),
        (None, None) => true,
        _ => false,
    }
}

/// From which end the entries are taken.
#[derive(Clone, Copy)]
enum Turns {
    Front,
    Back,
    Both,
}

impl Turns {
    fn is_front(self, place: u32) -> bool {
        match self {
            Turns::Front => true,
            Turns::Back => false,
            Turns::Both => place % 3 == 0,
        }
    }
}

const TURNS: &[Turns] = &[Turns::Front, Turns::Back, Turns::Both];

// Return whether entries are those of a range. Take them from the front, from the back, or alternately from both.
fn are_same(entries: Entries<'_, u32, Value>, held: Range<'_, u32, u32>, turns: Turns) -> bool {
    let (mut entries, mut held) = (entries, held);
    for place in 0..=KEYS {
        let (entry, number) = if turns.is_front(place) {
            (entries.next(), held.next())
        } else {
            (entries.next_back(), held.next_back())
        };
        if !is_same(entry, number) {
            return false;
        }
        if entry.is_none() {
            return true;
        }
    }
    false
}

// Return whether a map has exactly the expected keys.
fn has_keys(map: &Map, held: &Held) -> bool {
    let mut keys = map.keys();
    for (key, _) in held.iter() {
        if keys.next() != Some(key) {
            return false;
        }
    }
    keys.next().is_none()
}

// Return whether a map gives the expected entries at a key: its value, the entries up to it and those after it.
fn gives_at(map: &Map, held: &Held, key: u32) -> bool {
    let value = match held.get(&key) {
        Some(number) => Greatest::Of(*number),
        None => Greatest::Nothing,
    };
    if *map.get(key).unwrap_or(&Greatest::Nothing) != value {
        return false;
    }
    for turns in TURNS {
        let after = held.range((Bound::Excluded(key), Bound::Unbounded));
        if !are_same(map.up_to(key), held.range(..=key), *turns)
            || !are_same(map.after(key), after, *turns)
        {
            return false;
        }
    }
    true
}

// Return whether a map has exactly the expected entries.
fn gives_all(map: &Map, held: &Held) -> bool {
    for turns in TURNS {
        if !are_same(map.iter(), held.range(..), *turns) {
            return false;
        }
    }
    has_keys(map, held) && map.is_bottom() == held.is_empty()
}

// Return whether a map has the expected entries: as a whole, at random keys, and at the first keys.
fn gives(map: &Map, held: &Held, dice: &mut Dice) -> bool {
    for _ in 0..20 {
        if !gives_at(map, held, dice.below(KEYS + 2)) {
            return false;
        }
    }
    for (key, _) in held.iter().take(3) {
        if !gives_at(map, held, *key) {
            return false;
        }
    }
    gives_all(map, held)
}

// Return whether the other entries have each of these keys, with the same value or a greater one.
fn is_within(held: &Held, other: &Held) -> bool {
    for (key, number) in held.iter() {
        let is_there = match other.get(key) {
            Some(greater) => number <= greater,
            None => false,
        };
        if !is_there {
            return false;
        }
    }
    true
}

// Return whether a copy of a map has the expected entries.
fn copy_gives(map: &Map, held: &Held) -> Result<bool, OutOfMemory> {
    let copy = map.copied()?;
    Ok(gives_all(&copy, held))
}

// Return whether two maps are ordered as their contents are.
fn are_ordered(one: (&Map, &Held), other: (&Map, &Held)) -> bool {
    one.0.at_most(other.0) == is_within(one.1, other.1)
}

// Add further entries to the expected ones.
fn put_all(held: &mut Held, more: &Held) -> Result<(), OutOfMemory> {
    for (key, number) in more.iter() {
        put(held, *key, *number)?;
    }
    Ok(())
}

// Return whether two maps join to a map with the expected entries, and stay unchanged.
fn join(
    one: (&Map, &Held),
    other: (&Map, &Held),
    held: &Held,
    dice: &mut Dice,
) -> Result<bool, OutOfMemory> {
    let both = one.0.joined(other.0)?;
    let is_right = gives(&both, held, dice)
        && gives_all(one.0, one.1)
        && gives_all(other.0, other.1)
        && one.0.at_most(&both)
        && other.0.at_most(&both)
        && are_ordered((&both, held), one)
        && are_ordered((&both, held), other)
        && are_ordered(one, other);
    Ok(is_right && copy_gives(&both, held)?)
}

// Return whether a map joins as expected with a map of this many puts in mixed order.
fn joins_with(
    alloc: Global,
    one: (&Map, &Held),
    theirs: u32,
    dice: &mut Dice,
) -> Result<bool, OutOfMemory> {
    let (mut held, mut both) = (BTreeMap::new(alloc), BTreeMap::new(alloc));
    let other = put_many(alloc, &mut held, dice, Order::Mixed, theirs)?;
    put_all(&mut both, one.1)?;
    put_all(&mut both, &held)?;
    join(one, (&other, &held), &both, dice)
}

// Return whether a map with one more put is above it.
fn grows_apart(map: &Map, key: u32) -> Result<bool, OutOfMemory> {
    let more = map.with(key, &Greatest::Of(10))?;
    Ok(more.get(key) == Some(&Greatest::Of(10)) && map.at_most(&more) && !more.at_most(map))
}

// Return whether a map still has the expected entries after others that share its pages have changed.
fn stays(map: &Map, held: &Held, dice: &mut Dice) -> Result<bool, OutOfMemory> {
    for _ in 0..50 {
        if !grows_apart(map, dice.below(KEYS))? {
            return Ok(false);
        }
    }
    Ok(gives(map, held, dice))
}

// Return whether a map of `ours` puts has what was put, and joins as expected with a map of `theirs` puts.
fn is_right(
    alloc: Global,
    dice: &mut Dice,
    order: Order,
    (ours, theirs): (u32, u32),
) -> Result<bool, OutOfMemory> {
    let mut held = BTreeMap::new(alloc);
    let map = put_many(alloc, &mut held, dice, order, ours)?;
    Ok(stays(&map, &held, dice)? && joins_with(alloc, (&map, &held), theirs, dice)?)
}

// Check maps whose keys are in this order.
fn are_right(rt: &impl Abort, alloc: Global, order: Order) -> Result<(), Fail> {
    let mut dice = Dice::of(1);
    for (row, puts) in PUTS.iter().enumerate() {
        assert_row(rt, row, is_right(alloc, &mut dice, order, *puts)?);
    }
    Ok(())
}

#[test]
fn maps_give_what_was_put_and_join_as_expected(rt: HostRuntime) -> Result<(), Fail> {
    for order in ORDERS {
        are_right(&rt, rt.alloc(), *order)?;
    }
    Ok(())
}
