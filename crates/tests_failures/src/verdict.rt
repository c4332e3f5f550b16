//! How a call is judged, whether an allocation fails in it or not.

use std::alloc::Global;
use tests_portraits::Portrait;

/// The stage up to which a call is tried, so that the allocations up to there can be counted.
#[derive(Clone, Copy, PartialEq, Eq)]
pub(crate) enum Until {
    /// The state before the call is prepared.
    Prepared,
    /// The call has returned.
    Called,
    /// The answer is judged.
    Judged,
}

/// The verdict on a call.
#[derive(Clone, Copy, PartialEq, Eq)]
pub(crate) enum Verdict {
    /// The program ended at an earlier stage, as requested.
    Stopped,
    /// The call gave the expected answer at once.
    Right,
    /// The call was refused because memory ran out, and a retry gave the expected answer.
    Again,
    /// The call was refused because a thread could not be started, and a retry gave the expected answer.
    Restarted,
    /// One event of a list was refused because memory ran out, and everything else was as without it. A retry gave the
    /// expected answer.
    Skipped,
    /// The call was refused with a fault that a failed allocation may cause, and was not retried.
    Refused,
    Wrong(Wrong),
}

/// What is wrong.
#[derive(Clone, Copy, PartialEq, Eq)]
pub(crate) enum Wrong {
    /// The answer, or the state after the call, is wrong.
    Answer,
    /// The call was refused for a cause that a failed allocation cannot have.
    Cause,
    /// The call was refused, but something has changed.
    Changed,
    /// The call was refused twice.
    Again,
    /// A store was not closed.
    Open,
    /// Workers do not answer.
    Workers,
}

impl Wrong {
    /// Return this verdict in words.
    pub(crate) fn text(self) -> &'static str {
        match self {
            Wrong::Answer => "the answer, or the state after it, is wrong",
            Wrong::Cause => "it was refused for another cause",
            Wrong::Changed => "the refused call changed something",
            Wrong::Again => "it was refused again",
            Wrong::Open => "it was not closed",
            Wrong::Workers => "the workers do not answer",
        }
    }
}

/// Why a call is refused.
pub(crate) trait Refusal {
    /// Return the verdict on a call that was refused for this cause and then gave the expected answer, or `None` if a
    /// failed allocation cannot be the cause.
    fn verdict_after_retry(&self) -> Option<Verdict>;
}

/// A call, with the state before it and the expected answer.
pub(crate) trait Call {
    type Answer: Drop;

    type Fault: Refusal + Copy;

    /// Draw everything that the state shows. This call and those below return `None` if an allocation failed.
    fn draw(&mut self, _alloc: Global, _portrait: &mut Portrait) -> Option<()> {
        Some(())
    }

    /// Return whether the call writes. If not, it must leave the state unchanged.
    fn writes(&self) -> bool {
        false
    }

    /// Make the call.
    fn make(&mut self, alloc: Global) -> Result<Self::Answer, Self::Fault>;

    /// Return whether this is the expected answer and, after a write, the state is as expected.
    fn is_right(&mut self, alloc: Global, answer: Self::Answer) -> Option<bool>;
}

/// Return this verdict if the answer and the state after the call are as expected.
pub(crate) fn verdict_of(verdict: Verdict, is_right: bool) -> Verdict {
    if is_right {
        verdict
    } else {
        Verdict::Wrong(Wrong::Answer)
    }
}

/// Return the verdict on two calls together. At most one of them may be refused.
pub(crate) fn both(first: Verdict, second: Verdict) -> Verdict {
    match (first, second) {
        (Verdict::Wrong(_), _) | (_, Verdict::Right) => first,
        _ => second,
    }
}

/// Return whether the state of a call is as it was drawn.
pub(crate) fn is_unchanged<C: Call>(
    alloc: Global,
    call: &mut C,
    before: &Portrait,
) -> Option<bool> {
    let mut after = Portrait::new(alloc);
    call.draw(alloc, &mut after)?;
    Some(after.is_same(before))
}

// Judge the answer of a call.
fn judge_answer<C: Call>(
    alloc: Global,
    call: &mut C,
    before: &Portrait,
    verdict: Verdict,
    answer: C::Answer,
) -> Option<Verdict> {
    let is_right = call.is_right(alloc, answer)?;
    let is_kept = call.writes() || is_unchanged(alloc, call, before)?;
    Some(verdict_of(verdict, is_right && is_kept))
}

// Judge a call that was refused. The state must be unchanged. Then the call is made again.
fn judge_refusal<C: Call>(
    alloc: Global,
    call: &mut C,
    before: &Portrait,
    fault: C::Fault,
) -> Option<Verdict> {
    let Some(verdict) = fault.verdict_after_retry() else {
        return Some(Verdict::Wrong(Wrong::Cause));
    };
    if !is_unchanged(alloc, call, before)? {
        return Some(Verdict::Wrong(Wrong::Changed));
    }
    match call.make(alloc) {
        Ok(answer) => judge_answer(alloc, call, before, verdict, answer),
        Err(_) => Some(Verdict::Wrong(Wrong::Again)),
    }
}

/// Make a call, make it again if it is refused, and judge it.
pub(crate) fn judge<C: Call>(alloc: Global, call: &mut C, before: &Portrait) -> Option<Verdict> {
    match call.make(alloc) {
        Ok(answer) => judge_answer(alloc, call, before, Verdict::Right, answer),
        Err(fault) => judge_refusal(alloc, call, before, fault),
    }
}

// Make a call without judging it.
fn make_call<C: Call>(alloc: Global, call: &mut C) -> Verdict {
    let _ = call.make(alloc);
    Verdict::Stopped
}

/// Draw the state before a call, make the call, and judge it.
pub(crate) fn try_call<C: Call>(alloc: Global, until: Until, call: &mut C) -> Option<Verdict> {
    let mut before = Portrait::new(alloc);
    call.draw(alloc, &mut before)?;
    match until {
        Until::Prepared => Some(Verdict::Stopped),
        Until::Called => Some(make_call(alloc, call)),
        Until::Judged => judge(alloc, call, &before),
    }
}
