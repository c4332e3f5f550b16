//! What readers see, the rule of the store, and how a sheet is published.
ghost use Rattle.std.specs.Prelude.{◌≡◌, ◌++◌, ◌∷◌, [], IfOk, drop};
ghost use Rattle.std.specs.Arc.{arc_value};
ghost use mathlib.Core.List.{IsPrefix};
ghost use Rattle.road_sessions.specs.Journals.{replay};
ghost use Rattle.road_sessions.specs.Private.Stores.{EndWith};

use crate::entry::Entry;
use crate::history::Prefix;
use crate::naming::Naming;
use crate::reader_view::View;
use core::mem::replace_with;
use crossbeam_utils::rule::{Outcome, Protocol};
use left_right::Absorb;
use left_right::reader::Reader;
use left_right::writer::Writer;
use road_plan::OutOfMemory;
use road_sheet::Sheet;
use std::alloc::AllocError;
use std::marker::Model;
use std::sync::{Arc, Wait};

/// A sheet and the history that produced it. Contracts see it as that history.
#[derive(Drop)]
pub struct Published<J: Naming> {
    sheet: Arc<Sheet>,
    history: Prefix<J>,
}

impl<J: Naming> Model for Published<J> {
    ghost use Rattle.std.specs.Prelude.{◌≡◌, List};
    ghost use Rattle.std.specs.Arc.{arc_value};
    ghost use Rattle.std.specs.Coded.{codes};
    ghost use Rattle.road_scenario.specs.Instances.EditOrder.{edits_code};
    ghost use Rattle.road_sessions.specs.declared.entry.Entry.{Entry};
    ghost use Rattle.road_sessions.specs.Journals.{replay};

    ghost Value = { List Entry };

    ghost coded = { Prim.hlevel (codes, edits_code) };

    ghost view = { λ p. p.history };

    ghost invariant = { λ p. arc_value p.sheet ≡ (replay J.replica p.history).sheet };
}

impl<J: Naming> Published<J> {
    // Pair a sheet with the history that produced it.
    pub(crate) fn new(sheet: Arc<Sheet>, history: Prefix<J>) -> Published<J>
        requires { arc_value sheet ≡ (replay J.replica history).sheet }
        ensures { result ≡ history }
    {
        Published { sheet, history }
    }

    // Return its sheet.
    pub(crate) fn sheet(&self) -> &Arc<Sheet>
        ensures { arc_value result.now ≡ (replay J.replica self.now).sheet }
    {
        &self.sheet
    }

    // Return its history.
    pub(crate) fn history(&self) -> &Prefix<J>
        ensures { result.now ≡ self.now }
    {
        &self.history
    }

    // Make an equal value, which shares the sheet. This fails if the sheet already has as many owners as it can have.
    pub(crate) fn try_clone(&self) -> Result<Published<J>, OutOfMemory>
        ensures { IfOk result (λ same. same ≡ self.now) }
    {
        let sheet = Arc::try_clone(&self.sheet)?;
        Ok(Published {
            sheet,
            history: self.history.again(),
        })
    }
}

/// Each operation replaces the whole published value, so a pending operation has no effect once the next one is applied.
impl<J: Naming> Absorb<Published<J>> for Published<J> {
    type State = [Entry; 0];

    ghost state = { λ published. published };

    ghost applied = { λ published next. next };

    fn absorb_first(
        &mut self,
        operation: &Published<J>,
        _other: &Published<J>,
    ) -> Result<(), AllocError> {
        *self = operation.try_clone()?;
        Ok(())
    }

    fn absorb_second(
        &mut self,
        operation: Published<J>,
        _other: &Published<J>,
    ) -> Result<(), Published<J>> {
        *self = operation;
        Ok(())
    }
}

/// The rule of the store: what a reader has found is a prefix of what is published.
pub struct FoundIsPrefix;

impl<J: Naming> Protocol<Published<J>, View> for FoundIsPrefix {
    ghost use Rattle.road_sessions.specs.Private.Stores.{FoundArePrefixes};
    ghost use Rattle.road_sessions.specs.Sessions.{new_view};

    ghost holds = { FoundArePrefixes };

    ghost first = { new_view };
}

/// A reader enters to look.
pub struct ToLook;

impl<J: Naming> Outcome<Published<J>, View> for ToLook {
    ghost use Rattle.road_sessions.specs.Private.Stores.{EntersToLook};

    ghost then = { λ v published same w. EntersToLook v same w };
}

/// A reader enters at the end of its session's write.
pub struct AfterWrite;

impl<J: Naming> Outcome<Published<J>, View> for AfterWrite {
    ghost use Rattle.road_sessions.specs.Private.Stores.{EntersAfterWrite};

    ghost then = { λ v published same w. EntersAfterWrite v same w };
}

/// The writer publishes. What the store knows of the writer does not change.
pub struct ToPublish;

impl<J: Naming> Outcome<Published<J>, View> for ToPublish {
    ghost use Rattle.std.specs.Prelude.{◌≡◌};

    ghost then = { λ v before after w. w ≡ v };
}

/// A session's reader of the store.
pub type StoreReader<J> = Reader<Published<J>, View, FoundIsPrefix>;

/// The one writer of a store.
pub type StoreWriter<J> = Writer<Published<J>, Published<J>, View, FoundIsPrefix>;

// Give the writer a value to publish. Retry until there is memory for it.
fn hand_over<J: Naming, R: Wait>(
    rt: &R,
    mut writer: StoreWriter<J>,
    mut next: Published<J>,
) -> StoreWriter<J>
    ensures desk { result.desk ≡ writer.desk }
    ensures pending { drop result.behind result.log.items ≡ drop writer.behind writer.log.items ++ next ∷ [] }
{
    for _ in rt.forever() {
        match writer.append(next) {
            Ok(()) => return writer,
            Err(refused) => next = refused,
        }
    }
    unreachable!()
}

// Publish what is pending, whose last value must have this history. Retry until it is done.
fn publish_pending<J: Naming, R: Wait>(
    rt: &R,
    mut writer: StoreWriter<J>,
    history: &Prefix<J>,
) -> StoreWriter<J>
    requires pending { EndWith history.now (drop writer.behind writer.log.items) }
    requires grows { IsPrefix writer.desk.shown.value history.now }
    ensures { result.desk.shown.value ≡ history.now }
{
    for _ in rt.forever() {
        let (after, done) = writer.publish_as::<ToPublish, R>(rt);
        match done {
            Ok(()) => return after,
            Err(_refused) => writer = after,
        }
    }
    unreachable!()
}

// Publish as `publish` does, and replace the writer in place.
pub(crate) fn publish_here<J: Naming, R: Wait>(
    rt: &R,
    writer: &mut StoreWriter<J>,
    next: Published<J>,
)
    requires { IsPrefix writer.old.desk.shown.value next }
    ensures { writer.new.desk.shown.value ≡ next }
{
    replace_with(writer, (), |writer, ()| (publish(rt, writer, next), ()));
}

// Publish a sheet with its history, replacing what is published or pending. Return once that is done.
fn publish<J: Naming, R: Wait>(rt: &R, writer: StoreWriter<J>, next: Published<J>) -> StoreWriter<J>
    requires { IsPrefix writer.desk.shown.value next }
    ensures { result.desk.shown.value ≡ next }
{
    let history = next.history().again();
    let writer = hand_over(rt, writer, next);
    publish_pending(rt, writer, &history)
}
