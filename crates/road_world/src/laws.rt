//! Laws of all lists of events, as the contract of a function that does nothing. They are for callers that apply events
//! one by one.

ghost use Rattle.std.specs.Prelude.{◌≡◌, ◌≤◌, ℕ, List, Result, map};
ghost use Rattle.road_plan.specs.Plan.{Plan};
ghost use Rattle.road_plan.specs.declared.limits.TheConstants.{MOST_REPLICAS};
ghost use Rattle.road_replica.specs.declared.reply.Reply.{Reply};
ghost use Rattle.road_world.specs.Answers.{AreAnswers};
ghost use Rattle.road_world.specs.Events.{World, accepted_events, message_of_winners, opening_world};
ghost use Rattle.road_world.specs.Events.{world_of_events, world_of_winners};
ghost use Rattle.road_world.specs.Headline.{Headline};
ghost use Rattle.road_world.specs.Stamps.{AreFresh, imported_stamps, issued_stamps};
ghost use Rattle.road_world.specs.Steps.{most_steps_of_event, steps_of_event};
ghost use Rattle.road_world.specs.declared.event.Event.{Event};
ghost use Rattle.road_world.specs.declared.faults.WorldFault.{WorldFault};

/// Show what every list of events makes of a world.
pub fn headline_holds()
    // A world that holds the winners of the edits of some events shows their runs.
    ensures headline { (plan : Plan) (count : ℕ) (events : List Event) (replies : List (Result Reply WorldFault)) →
        Headline plan count events replies (world_of_winners (world_of_events plan count events replies)) }
    // Each message of that world holds what its event put into it (of edits, only the winners).
    ensures messages { (plan : Plan) (count : ℕ) (events : List Event) (replies : List (Result Reply WorldFault)) →
        (world_of_winners (world_of_events plan count events replies)).messages
        ≡ map message_of_winners (world_of_events plan count events replies).messages }
    // An accepted event counts no more steps than a refused one may.
    ensures steps { (world : World) (event : Event) → steps_of_event world event ≤ most_steps_of_event world event }
    // If each event has its answer, no stamp is issued twice, and no issued stamp is that of an import.
    ensures stamps { (plan : Plan) (count : ℕ) (events : List Event) (replies : List (Result Reply WorldFault)) →
        count ≤ MOST_REPLICAS → AreAnswers (opening_world plan count) events replies →
        AreFresh (issued_stamps replies) (imported_stamps (accepted_events events replies)) }
{}
