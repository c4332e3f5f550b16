//! Diagrams, and the cache of queries.

use crate::replicas::{Write, replica_after};
use road_replica::{Replica, ReplicaFault};
use road_sheet::{QueryCache, Sheet};
use std::alloc::Global;
use std::test::Fail;
use tests_plans::BLOCK;

/// The first and the last row of a diagram, and its number of rows if the horizon is 1,024.
const DIAGRAMS: &[(u32, u32, Result<usize, ReplicaFault>)] = &[
    (4, 6, Ok(3)),
    (0, 1_023, Ok(1_024)),
    (5, 4, Err(ReplicaFault::Range)),
    (0, 1_024, Err(ReplicaFault::Range)),
    (0, u32::MAX, Err(ReplicaFault::Range)),
    (2, 1_025, Err(ReplicaFault::NotSimulated)),
];

/// The rows from step 4 to step 6 with cell 8 blocked from step 4 on.
const BLOCKED: &[&str] = &["0..2...2#...", ".1...2.0#...", "0..2..10#..."];

// Return whether the rows of a diagram are these.
fn are_rows(rows: &[String], texts: &[&str]) -> bool {
    for (row, text) in rows.iter().zip(texts.iter()) {
        if row.as_str() != *text {
            return false;
        }
    }
    rows.len() == texts.len()
}

// Return whether a replica refuses diagrams as a table says, and returns the worked rows otherwise.
fn has_diagrams(alloc: Global, replica: &Replica) -> Result<bool, ReplicaFault> {
    for &(from, to, rows) in DIAGRAMS {
        if replica.rows(alloc, from, to).map(|rows| rows.len()) != rows {
            return Ok(false);
        }
    }
    Ok(are_rows(&replica.rows(alloc, 4, 6)?, BLOCKED))
}

#[test]
fn a_diagram_has_at_most_1024_rows(rt: HostRuntime) -> Result<(), Fail> {
    let writes = [Write::Edit(BLOCK, 4, 1), Write::Advance(1_024)];
    let replica = replica_after(rt.alloc(), 0, &writes)?;
    assert!(&rt; has_diagrams(rt.alloc(), &replica)?);
    Ok(())
}

// Return whether a cache gives the worked answers to one query after another, with cell 8 blocked from step 4 on.
fn answers_from_cache(alloc: Global, sheet: &Sheet) -> Result<bool, ReplicaFault> {
    let mut cache = QueryCache::new();
    let is_row = cache.row(alloc, sheet, 4)?.as_str() == "0..2...2#...";
    let has_cars = cache.state(alloc, sheet, 5)?.cars().len() == 3;
    let totals = cache.totals(alloc, sheet, 0, 0, 3)?;
    let is_counted = (totals.cars, totals.speeds) == (1, 2);
    cache.restart();
    let rows = cache.rows(alloc, sheet, 4, 6)?;
    Ok(is_row && has_cars && is_counted && are_rows(&rows, BLOCKED))
}

#[test]
fn a_cache_answers_one_query_after_another(rt: HostRuntime) -> Result<(), Fail> {
    let writes = [Write::Edit(BLOCK, 4, 1), Write::Advance(6)];
    let replica = replica_after(rt.alloc(), 0, &writes)?;
    assert!(&rt; answers_from_cache(rt.alloc(), replica.sheet())?);
    Ok(())
}
