//! The events of chances: whether a car enters, and whether a car is slowed.

ghost use Rattle.std.specs.Prelude.{◌≡◌};
ghost use Rattle.road_rules.specs.Speeds.{comes_about, slowed_speed};
ghost use Rattle.road_words.specs.Words.{word};
ghost use Rattle.road_ends.specs.Speed.{chance_at};

use road_plan::Plan;
use road_plan::limits::CERTAIN;
use road_words::{PlanWords, Words};

// Return the slowing chance of a car: `standing` if its speed before the acceleration is 0, otherwise `moving`.
pub(crate) fn chance_at(speed: u8, standing: u32, moving: u32) -> u32
    ensures { result ≡ chance_at speed standing moving }
{
    if speed == 0 { standing } else { moving }
}

// Return whether a plan's word, at a place of a stream, makes the event of a chance happen. No word is drawn if the
// chance is 0, or 65,536 or more: then the chance alone decides.
pub(crate) fn has_event(plan: &Plan, stream: u64, place: u64, chance: u32) -> bool
    ensures { result ≡ comes_about (word plan.now.words stream place) chance }
{
    if chance == 0 {
        return false;
    }
    chance >= CERTAIN || PlanWords::of(plan).word(stream, place) >> 16 < chance
}

// Apply rule 3 with a plan's word at a place of a stream. The word is drawn only if it can change the speed.
pub(crate) fn slowed_by_chance(plan: &Plan, stream: u64, place: u64, speed: u8, chance: u32) -> u8
    ensures { result ≡ slowed_speed speed (comes_about (word plan.now.words stream place) chance) }
{
    if speed > 0 && has_event(plan, stream, place, chance) {
        speed - 1
    } else {
        speed
    }
}
