//! A law of all deltas. It is the contract of a function that does nothing.

ghost use Rattle.std.specs.Prelude.{◌≡◌, List, false};
ghost use Rattle.road_scenario.specs.declared.edit.Edit.{Edit};
ghost use Rattle.road_scenario.specs.Edits.{Edits};
ghost use Rattle.road_scenario.specs.Winners.{winners, join};
ghost use Rattle.road_delta.specs.declared.heads.Head.{Head};
ghost use Rattle.road_delta.specs.Deltas.{heads, beyond, is_beyond, IsBehind};

/// Show that a replica lacks only edits that are beyond its heads.
pub fn deltas_suffice()
    // Joining a delta gives the same as joining the whole scenario.
    ensures joined { (ours theirs : Edits) → join ours (beyond theirs (heads ours)) ≡ join ours theirs }
    // Each edit that is left out has a smaller stamp than the edit held at its object and step.
    ensures left_out { (ours : Edits) (e : Edit) → is_beyond (heads ours) e ≡ false → IsBehind ours e }
    // All edits of a replica are beyond its own heads, since edits with an equal stamp are sent again.
    ensures own { (edits : Edits) → beyond edits (heads edits) ≡ edits }
    // A delta of winners holds only winners.
    ensures winners { (edits : Edits) (hs : List Head) → winners edits ≡ edits →
        winners (beyond edits hs) ≡ beyond edits hs }
{}
