//! The closing of a store.
ghost use Rattle.std.specs.Prelude.{◌≡◌, ◌≢◌, ◌+◌, ◌<◌, IfErr, IfOk, IsTrue, MatchBool, MatchResult, length};
ghost use Rattle.std.specs.Arc.{arc_value};
ghost use Rattle.std.specs.List.{AllByRecursion};
ghost use Rattle.road_sessions.specs.Closings.{AreAll, AreApart, IsWrittenBy, write_count};
ghost use Rattle.road_sessions.specs.Private.ClosingSessions.{IsSessionOf};
ghost use Rattle.road_sessions.specs.Journals.{replay};
ghost use Rattle.road_sessions.specs.Merges.{merged_sheet};
ghost use Rattle.road_sessions.specs.declared.faults.CloseCause.TheVariants as causes;

use crate::entry::Entry;
use crate::faults::CloseCause;
use crate::history::{Head, Whole};
use crate::naming::Naming;
use crate::session::Session;
use crate::shared::Shared;
use crate::store::Published;
use left_right::Absorb;
use road_sheet::Sheet;
use std::sync::ledger::Share;
use std::sync::{Arc, Wait};

/// The result of closing a store.
#[derive(Drop)]
pub struct Closed {
    /// The replica's sheet.
    pub sheet: Arc<Sheet>,
    /// Who wrote what, in order.
    pub journal: Vec<Entry>,
}

/// The reason why a store is not closed, with everything that the caller passed, unchanged.
#[derive(Drop)]
pub struct CloseFault<J: Naming, R: Wait + Drop>
where
    Published<J>: Absorb<Published<J>>,
{
    /// The cause.
    pub cause: CloseCause,
    /// What the sessions share.
    pub shared: Shared<J, R>,
    /// The sessions that the caller passed.
    pub sessions: Vec<Session<J>>,
}

/// Close a store. The caller passes all its sessions, in any order. The journal is exactly what they wrote: it has as
/// many entries as they made writes, it has each write of a session once, at its place, and what each session has seen
/// is a prefix of it. The sheet is that of the journal replayed: it has the winners of all edits in the journal, and
/// its horizon is the latest step that the journal advances to.
///
/// # Errors
///
/// `Missing` if these are not all sessions of the store, and no other error. The store and the sessions are then
/// returned unchanged.
pub fn close<J: Naming, R: Wait + Drop>(
    shared: Shared<J, R>,
    sessions: Vec<Session<J>>,
) -> Result<Closed, CloseFault<J, R>>
    ensures journal { IfOk result (λ closed. IsWrittenBy closed.journal.items sessions.items) }
    ensures sheet { IfOk result
        (λ closed. arc_value closed.sheet ≡ (replay J.replica closed.journal.items).sheet) }
    ensures merged { IfOk result (λ closed. arc_value closed.sheet ≡ merged_sheet J.replica closed.journal.items) }
    ensures all { MatchResult result (λ _. AreAll J.parts sessions.items)
        (λ fault. (fault.cause ≡ causes.Missing) × ¬ AreAll J.parts sessions.items) }
    ensures unchanged { IfErr result (λ fault. (fault.shared ≡ shared) × (fault.sessions.items ≡ sessions.items)) }
{
    if sessions.len() != shared.sessions as usize || !are_apart(sessions.as_slice()) {
        return Err(CloseFault {
            cause: CloseCause::Missing,
            shared,
            sessions,
        });
    }
    let Shared { held, .. } = shared;
    let mut held = held.into_inner();
    let open = &mut held;
    know_all(sessions.as_slice(), &open.head, &mut open.history);
    let mut all = held.spare.empty();
    all = shares(sessions, all);
    held.accepted.audit(&mut all);
    let (sheet, journal) = held.into_sheet_and_journal();
    Ok(Closed { sheet, journal })
}

// Return whether no session has this number.
fn none_has<J: Naming>(sessions: &[Session<J>], number: u32) -> bool
    ensures { MatchBool result (AllByRecursion (λ t. number ≢ t.number) sessions.now)
        (¬ AllByRecursion (λ t. number ≢ t.number) sessions.now) }
{
    match sessions.split_first() {
        None => true,
        Some((first, rest)) => first.number() != number && none_has(rest, number),
    }
}

// Return whether no two sessions have the same number.
fn are_apart<J: Naming>(sessions: &[Session<J>]) -> bool
    ensures { MatchBool result (AreApart sessions.now) (¬ AreApart sessions.now) }
{
    match sessions.split_first() {
        None => true,
        Some((first, rest)) => none_has(rest, first.number()) && are_apart(rest),
    }
}

// Show that what each session has seen is a prefix of the history, so that the history contains its writes.
fn know_all<J: Naming>(sessions: &[Session<J>], head: &Head<J>, history: &mut Whole<J>)
    ensures all { AllByRecursion (IsSessionOf history.old) sessions.now }
    ensures below { AllByRecursion (λ s. s.number < J.parts) sessions.now }
    ensures same { history.new ≡ history.old }
{
    if let Some((first, rest)) = sessions.split_first() {
        first.know_in(head, history);
        know_all(rest, head, history);
    }
}

// Merge their shares of the ledger into this one.
#[tactic(auto, using(crate::proofs::ClosedSessions::write_count_one_more))]
fn shares<J: Naming>(mut sessions: Vec<Session<J>>, mut all: Share<J>) -> Share<J>
    ensures { (result.parts ≡ all.parts + length sessions.items)
        × (result.amount ≡ all.amount + write_count sessions.items) }
{
    match sessions.pop() {
        None => all,
        Some(session) => {
            all.merge(session.into_share());
            shares(sessions, all)
        }
    }
}
