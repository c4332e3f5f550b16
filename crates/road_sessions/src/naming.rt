//! The store that a session belongs to, as a type.
use std::marker::Brand;
use std::sync::ledger::Ledger;

/// The name of a store in the types of its sessions and receipts, so that those of another store do not fit it. A
/// program passes [`Brand`]. Each call that does so names a store of its own, with the logbook, the replica and the
/// limit that it prepared.
pub trait Naming: Ledger {
    ghost use Rattle.std.specs.Prelude.{ℕ};
    ghost use Rattle.road_sessions.specs.Books.{Book};
    ghost use Rattle.road_replica.specs.Replicas.{Replica};

    /// The book of the store's history.
    ghost book: { Book };

    /// The replica, as it was opened.
    ghost replica: { Replica };

    /// The most writes of the journal.
    ghost limit: { ℕ };
}

impl Naming for Brand {
    ghost use Rattle.std.specs.Prelude.{[]};
    ghost use Rattle.road_plan.specs.declared.parts.WordKind.TheVariants.{Steady};
    ghost use Rattle.road_sessions.specs.Journals.{replica_of_plan};

    ghost book = { record { pages = record { number = 0; log_name = 0; cells_name = 0 }; first_pen = 0 } };

    ghost replica = { replica_of_plan
        (record { cells = 0; exit = 0; width = 0; zones = []; inlets = []; detectors = []; words = Steady }) 0 };

    ghost limit = { 0 };
}
