//! Laws of all journals. Each is the contract of a function that does nothing.

ghost use Rattle.std.specs.Prelude.{◌≡◌, Bool, List};
ghost use Rattle.std.specs.List.{list_any};
ghost use Rattle.road_scenario.specs.Winners.{AreWinners};
ghost use Rattle.road_replica.specs.Replicas.{Replica};
ghost use Rattle.road_sessions.specs.Closings.{AreApart, IsWrittenBy};
ghost use Rattle.road_sessions.specs.Journals.{replay};
ghost use Rattle.road_sessions.specs.Merges.{entries_written, merged_sheet};
ghost use Rattle.road_sessions.specs.Sessions.{Session};
ghost use Rattle.road_sessions.specs.declared.entry.Entry.{Entry};

/// Show that journals merge: a replayed journal leaves the winners of the replica's edits and of all edits in the
/// journal, simulated up to the latest of the replica's horizon and the steps that the journal advances to. So the
/// order of its entries does not matter.
pub fn journals_merge()
    ensures { (r : Replica) (journal : List Entry) → AreWinners r.sheet.edits →
        (replay r journal).sheet ≡ merged_sheet r journal }
{}

/// Show that a journal has exactly the entries that its sessions wrote, in whatever order: a test passes for some entry
/// of the journal exactly if it passes for some entry that a session wrote.
pub fn journals_hold_what_was_written()
    ensures { (passes : Entry → Bool) (journal : List Entry) (sessions : List Session) → AreApart sessions →
        IsWrittenBy journal sessions → list_any passes journal
        ≡ list_any (λ s. list_any passes (entries_written s)) sessions }
{}
