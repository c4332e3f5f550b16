//! Rules 1 to 3, for the speed of one car.

ghost use Rattle.std.specs.Prelude.{◌≡◌, ◌-◌, ◌<◌, ◌≤◌};
ghost use Rattle.road_rules.specs.Speeds.{wanted_speed, speed_after_acceleration, speed_after_braking, comes_about};
ghost use Rattle.road_rules.specs.Speeds.{slowed_speed};

/// Apply rules 1 and 2 as one: return the least of `speed + 1`, `limit` and `gap`. So the speed grows by one, but
/// neither above the limit nor above the free cells in front. A car above a lowered limit drops to it immediately.
///
/// `speed` and `limit` are in cells per step, `gap` is in cells (`road_cells::Road::gap`).
pub fn wanted(speed: u8, limit: u32, gap: u8) -> u8
    ensures { result ≡ wanted_speed speed limit gap }
{
    let wished = (u32::from(speed) + 1).min(limit);
    wished.min(u32::from(gap)) as u8
}

/// Apply rules 1 and 2 as in 1992. Rule 1 accelerates by one if the next vehicle is far enough away. Rule 2 slows to
/// one cell less than the distance if that vehicle is too near. At a speed of at most `vmax` this equals [`wanted`]
/// with the gap `distance - 1`. A speed above `vmax` does not drop to `vmax`. The function exists to show the law in
/// its contract: steps of roads use [`wanted`].
///
/// `distance`, at least 1, is the distance in cells to the next vehicle: one more than the free cells.
pub fn two_rules(speed: u8, vmax: u8, distance: u32) -> u8
    requires { 0 < distance }
    ensures rules { result ≡ speed_after_braking (speed_after_acceleration speed vmax distance) distance }
    ensures law { speed ≤ vmax → result ≡ wanted_speed speed vmax (distance - 1) }
{
    let mut speed = speed;
    if speed < vmax && distance > u32::from(speed) + 1 {
        speed += 1;
    }
    if distance <= u32::from(speed) {
        speed = (distance - 1) as u8;
    }
    speed
}

/// Apply rule 3, randomization: a speed above 0 falls by one if the event of the chance happens.
///
/// The chance is in 1/65,536. Its event happens if the upper 16 bits of the word are below the chance: never at 0, and
/// always from 65,536 on. The function states the rule: steps of roads need only the upper 16 bits of a word.
pub fn slowed(speed: u8, word: u32, chance: u32) -> u8
    ensures { result ≡ slowed_speed speed (comes_about word chance) }
{
    if word >> 16 < chance {
        speed.saturating_sub(1)
    } else {
        speed
    }
}
