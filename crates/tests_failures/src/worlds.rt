//! Events of a world of three replicas of the free road, and lists of them.

use crate::roads::{free_plan, shows_row};
use crate::verdict::{Call, Refusal, Until, Verdict, try_call};
use road_delta::Head;
use road_ends::Meter;
use road_plan::{Object, Plan};
use road_replica::{OutOfMemory, ReplicaFault, Reply};
use road_scenario::{Edit, Stamp, Value};
use road_workers::Alone;
use road_world::{Event, Message, PlayFault, Played, World, WorldFault, play};
use std::alloc::Global;
use std::sync::Arc;
use tests_plans::{BLOCK, LIMIT, edit, stamp};
use tests_portraits::Portrait;

/// An event, in the form that tables use.
#[derive(Clone, Copy)]
pub(crate) enum Act {
    Edit(Object, u32, u32),
    Withdraw(Object, u32),
    Import(&'static [Edit]),
    Send,
    Heads,
    Beyond(u64),
    Take(u64),
    Advance(u32),
}

/// An event of a list: the replica at which it happens, what happens, its reply, and the row at the replica's horizon
/// after the event.
#[derive(Clone, Copy)]
pub(crate) struct ListEvent(
    pub(crate) u32,
    pub(crate) Act,
    pub(crate) Reply,
    pub(crate) &'static str,
);

impl ListEvent {
    // Make the event, or return `None` if an allocation for its edits failed.
    fn event(&self, alloc: Global) -> Option<Event> {
        let at = self.0;
        Some(match self.1 {
            Act::Edit(object, step, value) => Event::Edit {
                at,
                object,
                step,
                value,
            },
            Act::Withdraw(object, step) => Event::Withdraw { at, object, step },
            Act::Import(edits) => {
                let edits = edits.to_vec(alloc).ok()?;
                Event::Import { at, edits }
            }
            Act::Send => Event::Send { at },
            Act::Heads => Event::Heads { at },
            Act::Beyond(message) => Event::Beyond { at, message },
            Act::Take(message) => Event::Take { at, message },
            Act::Advance(to) => Event::Advance { at, to },
        })
    }
}

/// Events of each kind: two replicas make edits, one of them asks the other for missing edits, and the third takes the
/// answer.
pub(crate) const EXCHANGE: &[ListEvent] = &[
    ListEvent(0, Act::Advance(6), Reply::Horizon(6), "0..2...2...."),
    ListEvent(
        0,
        Act::Edit(LIMIT, 3, 1),
        Reply::Stamped(stamp!(1, 0)),
        "0.1.1...1...",
    ),
    ListEvent(
        0,
        Act::Edit(BLOCK, 4, 1),
        Reply::Stamped(stamp!(2, 0)),
        "0.1.1..0#...",
    ),
    ListEvent(0, Act::Send, Reply::Message(0), "0.1.1..0#..."),
    ListEvent(1, Act::Advance(6), Reply::Horizon(6), "0..2...2...."),
    ListEvent(1, Act::Take(0), Reply::Touched(Some(3)), "0.1.1..0#..."),
    ListEvent(
        1,
        Act::Edit(LIMIT, 3, 0),
        Reply::Stamped(stamp!(3, 1)),
        "00...0..#...",
    ),
    ListEvent(
        0,
        Act::Edit(LIMIT, 5, 0),
        Reply::Stamped(stamp!(3, 0)),
        "00.0...0#...",
    ),
    ListEvent(1, Act::Heads, Reply::Message(1), "00...0..#..."),
    ListEvent(0, Act::Beyond(1), Reply::Message(2), "00.0...0#..."),
    ListEvent(2, Act::Advance(6), Reply::Horizon(6), "0..2...2...."),
    ListEvent(2, Act::Take(2), Reply::Touched(Some(4)), "00...0.0#..."),
    ListEvent(1, Act::Take(2), Reply::Touched(Some(5)), "00...0..#..."),
    ListEvent(1, Act::Take(2), Reply::Touched(None), "00...0..#..."),
    ListEvent(
        2,
        Act::Withdraw(BLOCK, 4),
        Reply::Stamped(stamp!(4, 2)),
        "00...0...0..",
    ),
    ListEvent(
        2,
        Act::Import(&[edit!(LIMIT, 3, (5, 64), 1)]),
        Reply::Touched(Some(3)),
        "00.0...0....",
    ),
];

// The row of a replica that is not simulated.
const EMPTY_ROW: &str = "............";

/// Two replicas set the limit for the same step, the second one over the first. The third replica takes the edit that
/// wins before the one that loses, and shows the winner.
pub(crate) const CROSSED: &[ListEvent] = &[
    ListEvent(
        0,
        Act::Edit(LIMIT, 3, 1),
        Reply::Stamped(stamp!(1, 0)),
        EMPTY_ROW,
    ),
    ListEvent(0, Act::Send, Reply::Message(0), EMPTY_ROW),
    ListEvent(1, Act::Take(0), Reply::Touched(Some(3)), EMPTY_ROW),
    ListEvent(
        1,
        Act::Edit(LIMIT, 3, 2),
        Reply::Stamped(stamp!(2, 1)),
        EMPTY_ROW,
    ),
    ListEvent(1, Act::Send, Reply::Message(1), EMPTY_ROW),
    ListEvent(2, Act::Take(1), Reply::Touched(Some(3)), EMPTY_ROW),
    ListEvent(2, Act::Take(0), Reply::Touched(None), EMPTY_ROW),
    ListEvent(2, Act::Advance(6), Reply::Horizon(6), "0..2...2...."),
];

// ---- what a world shows

// Draw heads, as if they were edits that withdraw.
fn draw_heads(portrait: &mut Portrait, heads: &[Head]) -> Option<()> {
    for head in heads {
        let edit = Edit {
            object: head.object,
            step: head.step,
            stamp: head.stamp,
            value: Value::Withdrawn,
        };
        portrait.draw_edits(&[edit])?;
    }
    Some(())
}

// Draw what a message carries, and its kind.
fn draw_message(alloc: Global, portrait: &mut Portrait, message: &Message) -> Option<()> {
    match message {
        Message::Whole(scenario) => {
            portrait.draw_number(0)?;
            portrait.draw_scenario(alloc, scenario)
        }
        Message::Answer(scenario) => {
            portrait.draw_number(1)?;
            portrait.draw_scenario(alloc, scenario)
        }
        Message::Asked(heads) => {
            portrait.draw_number(2)?;
            draw_heads(portrait, heads.list())
        }
    }
}

// Draw a world of three replicas. It has no more messages than the exchange, the longest list, has events.
fn draw_world(alloc: Global, portrait: &mut Portrait, world: &World) -> Option<()> {
    for at in 0..3 {
        portrait.draw_sheet(alloc, world.replica(at)?.sheet())?;
    }
    for number in 0..EXCHANGE.len() {
        if let Some(message) = world.message(number as u64) {
            draw_message(alloc, portrait, message)?;
        }
    }
    Some(())
}

// Return the row that a replica shows after the events of a list.
fn row_after(list: &[ListEvent], at: u32) -> &'static str {
    let mut row = EMPTY_ROW;
    for listed in list {
        if listed.0 == at {
            row = listed.3;
        }
    }
    row
}

// Return how many messages the events of a list make.
fn messages_after(list: &[ListEvent]) -> u64 {
    let mut count: u64 = 0;
    for listed in list {
        if let Reply::Message(_) = listed.2 {
            count = count.saturating_add(1);
        }
    }
    count
}

// Return whether a world shows what it should after the events of a list.
fn is_after(alloc: Global, world: &World, list: &[ListEvent]) -> Option<bool> {
    let count = messages_after(list);
    let last = count
        .checked_sub(1)
        .is_none_or(|last| world.message(last).is_some());
    let mut shows = world.replica(3).is_none() && last && world.message(count).is_none();
    for at in 0..3 {
        let sheet = world.replica(at)?.sheet();
        shows = shows && shows_row(alloc, sheet, sheet.horizon(), row_after(list, at))?;
    }
    Some(shows)
}

// ---- openings

// The opening of a world, as a call.
#[derive(Drop)]
struct Opening {
    plan: Arc<Plan>,
}

impl Call for Opening {
    type Answer = World;

    type Fault = OutOfMemory;

    fn make(&mut self, alloc: Global) -> Result<World, OutOfMemory> {
        World::open(alloc, Arc::try_clone(&self.plan)?, 3)
    }

    fn is_right(&mut self, alloc: Global, world: World) -> Option<bool> {
        is_after(alloc, &world, &[])
    }
}

/// Try the opening of a world.
pub(crate) fn try_opening(alloc: Global, until: Until) -> Option<Verdict> {
    let plan = free_plan(alloc)?;
    try_call(alloc, until, &mut Opening { plan })
}

// ---- events

// Apply an event.
fn apply_event(alloc: Global, world: &mut World, event: &Event) -> Result<Reply, WorldFault> {
    world.apply(alloc, event, &mut Alone, &mut Meter::new())
}

// Apply an event of a list, which must be accepted.
fn accept(alloc: Global, world: &mut World, listed: &ListEvent) -> Option<()> {
    let event = listed.event(alloc)?;
    apply_event(alloc, world, &event).ok()?;
    Some(())
}

// Apply the events of a list, which must all be accepted.
fn accept_all(alloc: Global, world: &mut World, list: &[ListEvent]) -> Option<()> {
    for listed in list {
        accept(alloc, world, listed)?;
    }
    Some(())
}

// The event of a world at this place in the exchange, as a call.
#[derive(Drop)]
struct Applying {
    world: World,
    event: Event,
    place: usize,
}

impl Call for Applying {
    type Answer = Reply;

    type Fault = WorldFault;

    fn draw(&mut self, alloc: Global, portrait: &mut Portrait) -> Option<()> {
        draw_world(alloc, portrait, &self.world)
    }

    fn writes(&self) -> bool {
        true
    }

    fn make(&mut self, alloc: Global) -> Result<Reply, WorldFault> {
        apply_event(alloc, &mut self.world, &self.event)
    }

    fn is_right(&mut self, alloc: Global, reply: Reply) -> Option<bool> {
        let wanted = EXCHANGE.get(self.place)?.2;
        let list = EXCHANGE.get(..=self.place)?;
        Some(reply == wanted && is_after(alloc, &self.world, list)?)
    }
}

// Return a world before any event.
fn new_world(alloc: Global) -> Option<World> {
    World::open(alloc, free_plan(alloc)?, 3).ok()
}

/// Try the event at this place in the exchange.
pub(crate) fn try_event(alloc: Global, until: Until, place: usize) -> Option<Verdict> {
    let event = EXCHANGE.get(place)?.event(alloc)?;
    let world = new_world(alloc)?;
    let mut applying = Applying {
        world,
        event,
        place,
    };
    accept_all(alloc, &mut applying.world, EXCHANGE.get(..place)?)?;
    try_call(alloc, until, &mut applying)
}

// ---- lists of events

// Why a list is not played as expected: it was refused before its first event; or one event was refused, and everything
// else is as without that event; or the result is wrong.
#[derive(Clone, Copy)]
enum ListFault {
    Play(PlayFault),
    Event(WorldFault),
    Otherwise,
}

impl Refusal for ListFault {
    fn verdict_after_retry(&self) -> Option<Verdict> {
        match self {
            ListFault::Play(fault) => fault.verdict_after_retry(),
            ListFault::Event(fault) => fault.verdict_after_retry().map(|_| Verdict::Skipped),
            ListFault::Otherwise => None,
        }
    }
}

// A list of events that is played, as a call.
#[derive(Drop)]
struct Playing {
    plan: Arc<Plan>,
    events: Vec<Event>,
    list: &'static [ListEvent],
}

// Return the place of the first event that was refused, and why.
fn first_refused(replies: &[Result<Reply, WorldFault>]) -> Option<(usize, WorldFault)> {
    for (place, reply) in replies.iter().enumerate() {
        if let Err(fault) = reply {
            return Some((place, *fault));
        }
    }
    None
}

// Return whether two replies to an event are the same.
fn is_same_reply(reply: &Result<Reply, WorldFault>, other: &Result<Reply, WorldFault>) -> bool {
    match (reply, other) {
        (Ok(reply), Ok(other)) => reply == other,
        (Err(fault), Err(other)) => fault == other,
        _ => false,
    }
}

// Apply all events except the one at a place, and return whether each has this reply.
fn are_replies_without(
    alloc: Global,
    world: &mut World,
    events: &[Event],
    place: usize,
    replies: &[Result<Reply, WorldFault>],
) -> bool {
    let mut are_same = replies.len() == events.len();
    for (number, (event, reply)) in events.iter().zip(replies).enumerate() {
        if number != place {
            are_same = is_same_reply(&apply_event(alloc, world, event), reply) && are_same;
        }
    }
    are_same
}

// Return whether two worlds show the same.
fn is_same_world(alloc: Global, world: &World, other: &World) -> Option<bool> {
    let mut first = Portrait::new(alloc);
    draw_world(alloc, &mut first, world)?;
    let mut second = Portrait::new(alloc);
    draw_world(alloc, &mut second, other)?;
    Some(first.is_same(&second))
}

// Return whether the refused event at a place had no effect: the world and all other replies are the same as for the
// list without that event.
fn is_without(
    alloc: Global,
    world: &mut World,
    events: &[Event],
    place: usize,
    played: &Played,
) -> Option<bool> {
    let are_same = are_replies_without(alloc, world, events, place, &played.replies);
    Some(are_same && is_same_world(alloc, world, &played.world)?)
}

// Return the result of a list, if no event was refused.
fn accept_list(alloc: Global, events: &[Event], played: Played) -> Result<Played, ListFault> {
    let Some((place, fault)) = first_refused(&played.replies) else {
        return Ok(played);
    };
    let Some(mut world) = new_world(alloc) else {
        return Err(ListFault::Otherwise);
    };
    match is_without(alloc, &mut world, events, place, &played) {
        Some(true) => Err(ListFault::Event(fault)),
        _ => Err(ListFault::Otherwise),
    }
}

// Return whether each event of a list was answered as expected.
fn are_wanted(replies: &[Result<Reply, WorldFault>], list: &[ListEvent]) -> bool {
    let mut are_wanted = replies.len() == list.len();
    for (reply, listed) in replies.iter().zip(list) {
        are_wanted = are_wanted && matches!(reply, Ok(reply) if *reply == listed.2);
    }
    are_wanted
}

impl Call for Playing {
    type Answer = Played;

    type Fault = ListFault;

    fn make(&mut self, alloc: Global) -> Result<Played, ListFault> {
        let Ok(plan) = Arc::try_clone(&self.plan) else {
            return Err(ListFault::Play(PlayFault::OutOfMemory));
        };
        match play(alloc, plan, 3, &self.events, &mut Alone, &mut Meter::new()) {
            Ok(played) => accept_list(alloc, &self.events, played),
            Err(fault) => Err(ListFault::Play(fault)),
        }
    }

    fn is_right(&mut self, alloc: Global, played: Played) -> Option<bool> {
        let are_wanted = are_wanted(&played.replies, self.list);
        Some(are_wanted && is_after(alloc, &played.world, self.list)?)
    }
}

// Return the events of a list.
fn events_of(alloc: Global, list: &[ListEvent]) -> Option<Vec<Event>> {
    let mut events = Vec::new(alloc);
    for listed in list {
        events.push(listed.event(alloc)?).ok()?;
    }
    Some(events)
}

/// Try a list of events as one call.
pub(crate) fn try_list(alloc: Global, until: Until, list: &'static [ListEvent]) -> Option<Verdict> {
    let plan = free_plan(alloc)?;
    let events = events_of(alloc, list)?;
    let mut playing = Playing { plan, events, list };
    try_call(alloc, until, &mut playing)
}
