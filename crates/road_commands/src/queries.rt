//! The answers of a replica's sheet to queries.

ghost use Rattle.std.specs.Prelude.{◌≡◌, IfErr, IfOk, IsSome, None};
ghost use Rattle.road_sheet.specs.QueryCaches.{IsCacheOf};
ghost use Rattle.road_replica.specs.Refusals.{IsRefusal};
ghost use Rattle.road_format.specs.CommandGrammar.{query_of};
ghost use Rattle.road_format.specs.Views.{answer_view, command_view};
ghost use Rattle.road_commands.specs.Private.Queries.{answer_of_query, fault_of_query};

use road_format::{Answer, Command};
use road_replica::ReplicaFault;
use road_sheet::{QueryCache, Sheet};
use std::alloc::Global;

// Answer a query from a replica's sheet, through the sheet's cache. The command must be a query.
pub(crate) fn ask_sheet(
    alloc: Global,
    sheet: &Sheet,
    cache: &mut QueryCache,
    command: &Command,
) -> Result<Answer, ReplicaFault>
    requires query { IsSome (query_of (command_view command.now)) }
    requires cache { IsCacheOf sheet.now cache.old }
    ensures answer { IfOk result (λ answer. answer_view answer
        ≡ answer_of_query sheet.now (command_view command.now)) }
    ensures accepted { IfOk result (λ _. fault_of_query sheet.now (command_view command.now) ≡ None) }
    ensures refused { IfErr result (IsRefusal (fault_of_query sheet.now (command_view command.now))) }
    ensures cached { IsCacheOf sheet.now cache.new }
{
    match command {
        Command::Cells { step, .. } => Ok(Answer::Cells(cache.row(alloc, sheet, *step)?)),
        Command::Cars { step, .. } => {
            Ok(Answer::Cars(cache.state(alloc, sheet, *step)?.into_cars()))
        }
        Command::Count {
            detector,
            from,
            to,
            ..
        } => {
            let totals = cache.totals(alloc, sheet, *detector, *from, *to)?;
            Ok(Answer::Counted {
                cars: totals.cars,
                speeds: totals.speeds,
            })
        }
        Command::Diagram { from, to, .. } => {
            Ok(Answer::Rows(cache.rows(alloc, sheet, *from, *to)?))
        }
        Command::Scenario { .. } => Ok(Answer::Edits(sheet.scenario().edits(alloc)?)),
        _ => unreachable!(),
    }
}
