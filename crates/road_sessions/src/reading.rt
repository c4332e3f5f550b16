//! What a session's reader does in the store.
ghost use Rattle.std.specs.Prelude.{◌≡◌, Ok, Err, IfErr, IfOk, IfSome, IfNone, MatchResult, None};
ghost use Rattle.std.specs.declared.option.Option.{Option};
ghost use Rattle.std.specs.declared.alloc.AllocError.{AllocError};
ghost use Rattle.std.specs.Arc.{arc_value};
ghost use Rattle.left_right.specs.Sides.{view};
ghost use Rattle.road_sessions.specs.Journals.{IsLegal, replay};
ghost use Rattle.road_sheet.specs.Sheets.{IsRefusalBy};
ghost use Rattle.road_sessions.specs.Looks.{HasLooked, IsQueryRefusal};
ghost use Rattle.road_sheet.specs.declared.faults.SheetFault.{SheetFault};
ghost use Rattle.road_sessions.specs.Private.Queries.{query_fault};
ghost use Rattle.road_sessions.specs.Private.Stores.{EntersAfterWrite, EntersToLook};
ghost use Rattle.road_sessions.specs.Sessions.{IsSession, session_of};

use crate::faults::LookFault;
use crate::history::Prefix;
use crate::naming::Naming;
use crate::query::Query;
use crate::store::{AfterWrite, StoreReader, ToLook};
use core::mem::replace_with;
use road_plan::OutOfMemory;
use road_sheet::{Sheet, SheetFault};
use std::sync::{Arc, Wait};

// What was found in the store: a history, and its sheet or the sheet's refusal.
type Found<J> = (Prefix<J>, Result<Arc<Sheet>, SheetFault>);

// Make one more owner of a sheet, unless the sheet has a named cause to refuse the query. Without a named cause the
// only possible refusal is out of memory.
fn owner_for<F: FnOnce() -> Result<Arc<Sheet>, OutOfMemory>>(
    query: &Query,
    sheet: &Sheet,
    own: F,
) -> Result<Arc<Sheet>, SheetFault>
    requires may_own { F.IsAlwaysCallable own }
    ensures owned { IfOk result (λ owner. F.post own (Ok owner)) }
    ensures accepted { IfOk result (λ _. query_fault query.now sheet.now ≡ None) }
    ensures refused { IfErr result (IsRefusalBy (query_fault query.now sheet.now)) }
    ensures memory { query_fault query.now sheet.now ≡ None
        → IfErr result (λ _. (failed : AllocError) × F.post own (Err failed)) }
{
    match query.fault(sheet) {
        Some(fault) => Err(fault),
        None => Ok(own()?),
    }
}

// Return why a query is refused if its session found less than it had seen: for the named cause at the sheet that was
// found, else for out of memory.
fn fault_of_less(found: Result<Arc<Sheet>, SheetFault>) -> SheetFault
    ensures { (cause : Option SheetFault) → IfOk found (λ _. cause ≡ None) → IfErr found (IsRefusalBy cause)
        → IsRefusalBy cause result }
{
    match found {
        Ok(_sheet) => SheetFault::OutOfMemory,
        Err(fault) => fault,
    }
}

// Enter the store to look, and query the sheet there. Return `None` if the store lets no reader enter.
fn enter<J: Naming>(reader: StoreReader<J>, query: &Query) -> (StoreReader<J>, Option<Found<J>>)
    ensures entered { IfSome result.1 (λ found. EntersToLook (view reader.place) found.0 (view result.0.place)) }
    ensures sheet { IfSome result.1 (λ found. IfOk found.1
        (λ sheet. arc_value sheet ≡ (replay J.replica found.0).sheet)) }
    ensures accepted { IfSome result.1 (λ found. IfOk found.1
        (λ _. query_fault query.now (replay J.replica found.0).sheet ≡ None)) }
    ensures fault { IfSome result.1 (λ found. IfErr found.1
        (IsRefusalBy (query_fault query.now (replay J.replica found.0).sheet))) }
    ensures refused { IfNone result.1 (view result.0.place ≡ view reader.place) }
{
    match reader.enter_as::<ToLook>() {
        Ok(reading) => {
            let published = reading.get();
            let history = published.history().again();
            let sheet = published.sheet();
            let sheet = owner_for(query, sheet, || Arc::try_clone(sheet));
            (reading.leave(), Some((history, sheet)))
        }
        Err(reader) => (reader, None),
    }
}

// The same for a reader that stays where it is.
fn enter_here<J: Naming>(reader: &mut StoreReader<J>, query: &Query) -> Option<Found<J>>
    ensures entered { IfSome result (λ found. EntersToLook (view reader.old.place) found.0 (view reader.new.place)) }
    ensures sheet { IfSome result (λ found. IfOk found.1
        (λ sheet. arc_value sheet ≡ (replay J.replica found.0).sheet)) }
    ensures accepted { IfSome result (λ found. IfOk found.1
        (λ _. query_fault query.now (replay J.replica found.0).sheet ≡ None)) }
    ensures fault { IfSome result (λ found. IfErr found.1
        (IsRefusalBy (query_fault query.now (replay J.replica found.0).sheet))) }
    ensures refused { IfNone result (view reader.new.place ≡ view reader.old.place) }
{
    replace_with(reader, query, |reader, query| enter(reader, query))
}

// Find the published sheet for a session's query: enter the store, and make the history there what the session has
// seen.
pub(crate) fn find<J: Naming>(
    _number: u32,
    seen: &mut Prefix<J>,
    reader: &mut StoreReader<J>,
    query: &Query,
) -> Result<Arc<Sheet>, LookFault>
    requires { IsSession J.replica (session_of _number seen.old (view reader.old.place)) }
    ensures session { IsSession J.replica (session_of _number seen.new (view reader.new.place)) }
    ensures own { (view reader.new.place).own ≡ (view reader.old.place).own }
    ensures sheet { IfOk result (λ sheet. arc_value sheet ≡ (replay J.replica seen.new).sheet) }
    ensures looked { MatchResult result
        (λ _. HasLooked J.replica (session_of _number seen.old (view reader.old.place))
        (session_of _number seen.new (view reader.new.place)))
        (λ fault. IsQueryRefusal (query_fault query.now) J.replica fault
        (session_of _number seen.old (view reader.old.place))
        (session_of _number seen.new (view reader.new.place))) }
{
    let Some((history, sheet)) = enter_here(reader, query) else {
        return Err(LookFault::NotEntered);
    };
    // What is published extends all that the session has seen: both are prefixes of the store's history, and whatever a
    // session has seen was published before. No contract says that it was published before, so this case needs a
    // refusal.
    if !seen.is_prefix_of(&history) {
        return Err(LookFault::Sheet(fault_of_less(sheet)));
    }
    *seen = history;
    match sheet {
        Ok(sheet) => Ok(sheet),
        Err(fault) => Err(LookFault::Sheet(fault)),
    }
}

// Wait forever.
fn wait_for_ever<R: Wait>(rt: &R)
    ensures { ⊥ }
{
    for _ in rt.forever() {}
    unreachable!()
}

// Enter the store at the end of a session's write.
fn enter_after_write<J: Naming, R: Wait>(
    rt: &R,
    reader: StoreReader<J>,
    written: &Prefix<J>,
) -> StoreReader<J>
    ensures { EntersAfterWrite (view reader.place) written.now (view result.place) }
{
    match reader.enter_as::<AfterWrite>() {
        Ok(reading) => {
            let is_written = reading.get().history().is_same(written);
            let reader = reading.leave();
            if !is_written {
                wait_for_ever(rt);
            }
            reader
        }
        Err(reader) => {
            wait_for_ever(rt);
            reader
        }
    }
}

// The same for a reader that stays where it is. The session's write is published, and the session holds the writer's
// lock, so nobody else has published since. The store lets readers enter as long as its writer lives. If it did not,
// this call would wait forever.
pub(crate) fn enter_after_write_here<J: Naming, R: Wait>(
    rt: &R,
    reader: &mut StoreReader<J>,
    written: &Prefix<J>,
)
    ensures { EntersAfterWrite (view reader.old.place) written.now (view reader.new.place) }
{
    replace_with(
        reader,
        (),
        |reader, ()| (enter_after_write(rt, reader, written), ()),
    )
}
