//! How a session's wish is turned into a command and performed at the replica.
ghost use Rattle.std.specs.Prelude.{◌≡◌, IfErr, IfOk, None, Some};
ghost use Rattle.road_sheet.specs.Commands.{IsAllowed};
ghost use Rattle.road_replica.specs.Refusals as refusals;
ghost use Rattle.road_replica.specs.Replicas.{edit_made, single_edit};
ghost use Rattle.road_replica.specs.Writes.{IsWrite};
ghost use Rattle.road_sessions.specs.Journals.{entry_command};
ghost use Rattle.road_sessions.specs.Private.Errands.{reply_to_command, reply_with};
ghost use Rattle.road_sessions.specs.Writes.{reply_to, wish_command, wish_fault};
ghost use Rattle.road_sessions.specs.declared.entry.SheetCommand.TheVariants as commands;

use crate::entry::SheetCommand;
use crate::wish::Wish;
use road_ends::Meter;
use road_plan::limits::GREATEST_HORIZON;
use road_replica::{LocalEdit, Replica, ReplicaFault, Reply};
use road_scenario::{Stamp, Value};
use road_workers::Crew;
use std::alloc::Global;

/// What is to be done at a replica to grant a wish.
#[derive(Drop)]
pub(crate) struct Errand {
    /// The command to the replica's sheet. The plan allows it.
    pub(crate) command: SheetCommand,
    /// The stamp of the edit that the replica makes, if it makes one.
    pub(crate) stamp: Option<Stamp>,
}

// Make the errand for a wish, if the replica has no named cause to refuse it. The wish is checked here, once, and not
// again when it is performed.
pub(crate) fn errand_of(
    alloc: Global,
    replica: &Replica,
    wish: &Wish<'_>,
) -> Result<Errand, ReplicaFault>
    ensures command { IfOk result (λ errand. errand.command ≡ wish_command wish.now replica.now) }
    ensures reply { IfOk result (λ errand.
        reply_with errand.stamp (reply_to_command errand.command replica.now) ≡ reply_to wish.now replica.now) }
    ensures allowed { IfOk result (λ errand. IsAllowed replica.now.sheet.plan (entry_command errand.command)) }
    ensures accepted { IfOk result (λ _. wish_fault wish.now replica.now ≡ None) }
    ensures refused { IfErr result (refusals.IsRefusal (wish_fault wish.now replica.now)) }
{
    match *wish {
        Wish::Take(edits) => match replica.take_fault(edits) {
            Some(fault) => Err(fault),
            None => Ok(Errand {
                command: SheetCommand::Take(edits.copied()?),
                stamp: None,
            }),
        },
        Wish::Advance(to) if to > GREATEST_HORIZON => Err(ReplicaFault::Horizon),
        Wish::Advance(to) => Ok(Errand {
            command: SheetCommand::Advance(to),
            stamp: None,
        }),
        Wish::Edit {
            object,
            step,
            value,
        } => {
            let local = LocalEdit {
                object,
                step,
                value: Value::Put(value),
            };
            edit(alloc, replica, local)
        }
        Wish::Withdraw { object, step } => {
            let local = LocalEdit {
                object,
                step,
                value: Value::Withdrawn,
            };
            edit(alloc, replica, local)
        }
    }
}

// Make the errand for an edit that the replica makes: to take that edit.
fn edit(alloc: Global, replica: &Replica, local: LocalEdit) -> Result<Errand, ReplicaFault>
    ensures command { IfOk result (λ errand. errand.command
        ≡ commands.Take (single_edit (edit_made replica.now local.object local.step local.value))) }
    ensures stamp { IfOk result (λ errand.
        errand.stamp ≡ Some (edit_made replica.now local.object local.step local.value).stamp) }
    ensures allowed { IfOk result (λ errand. IsAllowed replica.now.sheet.plan (entry_command errand.command)) }
    ensures accepted { IfOk result (λ _.
        refusals.edit_fault replica.now local.object local.step local.value ≡ None) }
    ensures refused { IfErr result
        (refusals.IsRefusal (refusals.edit_fault replica.now local.object local.step local.value)) }
{
    let (stamp, alone) = replica.new_edit(alloc, local)?;
    Ok(Errand {
        command: SheetCommand::Take(alone),
        stamp: Some(stamp),
    })
}

// Perform a command at a replica.
pub(crate) fn perform<C: Crew>(
    alloc: Global,
    replica: &mut Replica,
    command: &SheetCommand,
    crew: &mut C,
    meter: &mut Meter,
) -> Result<Reply, ReplicaFault>
    requires { IsAllowed replica.old.sheet.plan (entry_command command.now) }
    ensures reply { IfOk result (λ reply. reply ≡ reply_to_command command.now replica.old) }
    ensures write { IsWrite (entry_command command.now) None result replica.old replica.new meter.old meter.new }
    ensures gone { refusals.CountsGone result (C.times_gone crew.old) (C.times_gone crew.new) }
{
    match command {
        SheetCommand::Take(edits) => {
            let touched = replica.join(alloc, edits, crew, meter)?;
            Ok(Reply::Touched(touched))
        }
        SheetCommand::Advance(to) => {
            let horizon = replica.advance(alloc, *to, crew, meter)?;
            Ok(Reply::Horizon(horizon))
        }
    }
}

// Return the reply to a wish: the stamp of the edit that was made, else the replica's answer to the command.
pub(crate) fn reply_of(stamp: Option<Stamp>, answer: Reply) -> Reply
    ensures { result ≡ reply_with stamp answer }
{
    match stamp {
        Some(stamp) => Reply::Stamped(stamp),
        None => answer,
    }
}
