//! A replica: its writes, the messages that it makes and takes, and its queries.

ghost use Rattle.std.specs.Prelude.{◌≡◌, ◌<◌, ◌≤◌, ◌-◌, max, IfErr, IfNone, IfOk, IsOk};
ghost use Rattle.std.specs.Prelude.{None, OnErr, OnOk, map, string_bytes, true};
ghost use Rattle.std.specs.Arc.{arc_value};
ghost use Rattle.std.specs.declared.cmp.Ordering.TheVariants.{Less};
ghost use Rattle.lattice_core.specs.Sets.{contains, empty, from_list};
ghost use Rattle.road_plan.specs.Plan.{IsWithinLimits};
ghost use Rattle.road_plan.specs.declared.limits.TheConstants.{GREATEST_HORIZON, MOST_REPLICAS};
ghost use Rattle.road_scenario.specs.declared.edit.Edit as edit;
ghost use Rattle.road_scenario.specs.declared.edit.Value.TheVariants.{Put, Withdrawn};
ghost use Rattle.road_scenario.specs.Edits.{number_pair_cmp, stamp_key};
ghost use Rattle.road_scenario.specs.Faults.{AreInRange};
ghost use Rattle.road_delta.specs.Deltas as deltas;
ghost use Rattle.road_sheet.specs.Commands.{Advance, Take};
ghost use Rattle.road_sheet.specs.Drafts.{draft_start};
ghost use Rattle.road_sheet.specs.Sheets.{AreWholeIntervals, IsSheet, opening_sheet, rows_of, state_of, total_of};
ghost use Rattle.road_rewind.specs.Growth.{TicksAtMost, grown_sheet, kept_step, meter_after, most_steps, touched_step};
ghost use Rattle.road_replica.specs.Crowds as crowds;
ghost use Rattle.road_replica.specs.Refusals as refusals;
ghost use Rattle.road_replica.specs.Refusals.{CountsGone, IsRefusal, IsWriteRefusal};
ghost use Rattle.road_replica.specs.Replicas.{edit_made, single_edit};
ghost use Rattle.road_replica.specs.Writes.{IsWrite};

use crate::faults::{ReplicaFault, fault_of_own_edit, fault_of_received_edit};
use crate::local_edit::LocalEdit;
use road_cells::Road;
use road_delta::{Heads, beyond, heads_of};
use road_detector::Totals;
use road_ends::Meter;
use road_plan::limits::{FIRST_IMPORT_NUMBER, GREATEST_HORIZON};
use road_plan::{Object, OutOfMemory, Plan};
use road_rewind::{Grown, grown};
use road_scenario::{Edit, Scenario, Stamp, Value};
use road_sheet::{QueryCache, Sheet};
use road_workers::Crew;
use std::alloc::Global;
use std::marker::Model;
use std::sync::Arc;

/// A replica: its number, and its sheet. A write lets the crew recompute every simulated step that it touches, before it
/// is accepted. The meter counts the steps. A refused write leaves the replica unchanged.
#[derive(Drop)]
pub struct Replica {
    number: u32,
    sheet: Arc<Sheet>,
}

impl Model for Replica {
    ghost use Rattle.std.specs.Prelude.{◌<◌};
    ghost use Rattle.std.specs.Arc.{arc_value};
    ghost use Rattle.std.specs.Coded.{codes};
    ghost use Rattle.road_plan.specs.declared.limits.TheConstants.{MOST_REPLICAS};
    ghost use Rattle.road_scenario.specs.Instances.EditOrder.{edits_code};
    ghost use Rattle.road_sheet.specs.Sheets.{IsSheet};
    ghost use Rattle.road_replica.specs.Replicas.{Replica};

    ghost Value = { Replica };

    ghost coded = { Prim.hlevel (codes, edits_code) };

    ghost view = { λ r. record { number = r.number; sheet = arc_value r.sheet } };

    ghost invariant = { λ r. (r.number < MOST_REPLICAS) × IsSheet (arc_value r.sheet) };
}

impl Replica {
    /// Open a replica without edits or simulated steps. Its number must be below 64.
    ///
    /// # Errors
    ///
    /// `OutOfMemory` if an allocation failed.
    pub fn open(alloc: Global, plan: Arc<Plan>, number: u32) -> Result<Replica, OutOfMemory>
        requires { number < MOST_REPLICAS }
        ensures replica { IfOk result (λ replica. replica
            ≡ record { number = number; sheet = opening_sheet (arc_value plan) }) }
        ensures within { IsWithinLimits (arc_value plan) }
    {
        let sheet = share(alloc, Sheet::opening(alloc, plan)?)?;
        Ok(Replica { number, sheet })
    }

    /// Return its number, which is below 64.
    pub fn number(&self) -> u32
        ensures number { result ≡ self.now.number }
        ensures below { self.now.number < MOST_REPLICAS }
    {
        self.number
    }

    /// Return the sheet. A caller that keeps it sees the replica as it is now, whatever is written later.
    pub fn sheet(&self) -> &Arc<Sheet>
        ensures sheet { arc_value result.now ≡ self.now.sheet }
        ensures is_sheet { IsSheet self.now.sheet }
    {
        &self.sheet
    }

    /// Return the sheet, and drop the replica.
    pub fn into_sheet(self) -> Arc<Sheet>
        ensures { arc_value result ≡ self.sheet }
    {
        self.sheet
    }

    /// Return the winners of all edits that the replica made, took or imported.
    pub fn scenario(&self) -> &Scenario
        ensures { result.now ≡ self.now.sheet.edits }
    {
        self.sheet.scenario()
    }

    /// Make another replica with the same plan, number and sheet. A write to one leaves the other unchanged.
    ///
    /// # Errors
    ///
    /// `OutOfMemory` if the sheet already has as many owners as it can have.
    pub fn copied(&self) -> Result<Replica, OutOfMemory>
        ensures { IfOk result (λ copy. copy ≡ self.now) }
    {
        let sheet = Arc::try_clone(&self.sheet)?;
        Ok(Replica {
            number: self.number,
            sheet,
        })
    }

    // ---- the named causes for which writes are refused

    /// Return the cause for which the replica would refuse to take a scenario, or `None` if its edits fit the plan.
    pub fn take_fault(&self, scenario: &Scenario) -> Option<ReplicaFault>
        ensures fault { result ≡ refusals.take_fault self.now.sheet.plan scenario.now }
        ensures fits { IfNone result (AreInRange self.now.sheet.plan scenario.now) }
    {
        match scenario.fits(self.sheet.plan()) {
            Some(fault) => Some(fault_of_received_edit(fault)),
            None => None,
        }
    }

    // ---- writes

    /// Set a number for an object from a step on, in the object's units. The stamp has the replica's number, and a
    /// count that is one more than the greatest that the replica holds.
    ///
    /// # Errors
    ///
    /// `NoObject`, `Step`, `ValueOutOfRange`, `CountsSpent`, in this order; else `WorkersGone` if the crew returned it,
    /// or `OutOfMemory` if an allocation failed.
    pub fn edit<C: Crew>(
        &mut self,
        alloc: Global,
        object: Object,
        step: u32,
        value: u32,
        crew: &mut C,
        meter: &mut Meter,
    ) -> Result<Stamp, ReplicaFault>
        ensures stamp { IfOk result (λ stamp. stamp ≡ (edit_made self.old object step (Put value)).stamp) }
        // The stamp is greater than each stamp that the replica held.
        ensures fresh { IfOk result (λ stamp. (e : edit.Edit) → contains self.old.sheet.edits e ≡ true →
            number_pair_cmp (stamp_key e.stamp) (stamp_key stamp) ≡ Less) }
        ensures write { IsWrite (Take (single_edit (edit_made self.old object step (Put value))))
            (refusals.edit_fault self.old object step (Put value)) result self.old self.new meter.old meter.new }
        ensures gone { CountsGone result (C.times_gone crew.old) (C.times_gone crew.new) }
    {
        let local = LocalEdit {
            object,
            step,
            value: Value::Put(value),
        };
        self.make_edit(alloc, local, crew, meter)
    }

    /// Withdraw what is set for an object at a step: from there on the latest earlier number is in force, or the
    /// default. A withdrawal is also accepted if nothing was set. The stamp is as for [`Replica::edit`].
    ///
    /// # Errors
    ///
    /// As for [`Replica::edit`], except `ValueOutOfRange`.
    pub fn withdraw<C: Crew>(
        &mut self,
        alloc: Global,
        object: Object,
        step: u32,
        crew: &mut C,
        meter: &mut Meter,
    ) -> Result<Stamp, ReplicaFault>
        ensures stamp { IfOk result (λ stamp. stamp ≡ (edit_made self.old object step Withdrawn).stamp) }
        // The stamp is greater than each stamp that the replica held.
        ensures fresh { IfOk result (λ stamp. (e : edit.Edit) → contains self.old.sheet.edits e ≡ true →
            number_pair_cmp (stamp_key e.stamp) (stamp_key stamp) ≡ Less) }
        ensures write { IsWrite (Take (single_edit (edit_made self.old object step Withdrawn)))
            (refusals.edit_fault self.old object step Withdrawn) result self.old self.new meter.old meter.new }
        ensures gone { CountsGone result (C.times_gone crew.old) (C.times_gone crew.new) }
    {
        let local = LocalEdit {
            object,
            step,
            value: Value::Withdrawn,
        };
        self.make_edit(alloc, local, crew, meter)
    }

    /// Make an edit: set a number as [`Replica::edit`], or withdraw what is set as [`Replica::withdraw`]. It returns
    /// what these return.
    ///
    /// # Errors
    ///
    /// As for [`Replica::edit`].
    pub fn make_edit<C: Crew>(
        &mut self,
        alloc: Global,
        local: LocalEdit,
        crew: &mut C,
        meter: &mut Meter,
    ) -> Result<Stamp, ReplicaFault>
        ensures stamp { IfOk result (λ stamp. stamp ≡ (edit_made self.old local.object local.step local.value).stamp) }
        // The stamp is greater than each stamp that the replica held.
        ensures fresh { IfOk result (λ stamp. (e : edit.Edit) → contains self.old.sheet.edits e ≡ true →
            number_pair_cmp (stamp_key e.stamp) (stamp_key stamp) ≡ Less) }
        ensures write { IsWrite (Take (single_edit (edit_made self.old local.object local.step local.value)))
            (refusals.edit_fault self.old local.object local.step local.value) result self.old self.new
            meter.old meter.new }
        ensures gone { CountsGone result (C.times_gone crew.old) (C.times_gone crew.new) }
    {
        let (stamp, taken) = self.new_edit(alloc, local)?;
        self.join(alloc, &taken, crew, meter)?;
        Ok(stamp)
    }

    /// Make the edit of [`Replica::make_edit`] as a scenario that has only this edit, and return it with its stamp. The
    /// scenario fits the plan, and the replica does not hold it until it is joined ([`Replica::join`]).
    ///
    /// # Errors
    ///
    /// The named causes of [`Replica::make_edit`], else `OutOfMemory` if an allocation failed.
    pub fn new_edit(
        &self,
        alloc: Global,
        local: LocalEdit,
    ) -> Result<(Stamp, Scenario), ReplicaFault>
        ensures stamp { IfOk result (λ made. made.0 ≡ (edit_made self.now local.object local.step local.value).stamp) }
        ensures edit { IfOk result (λ made.
            made.1 ≡ single_edit (edit_made self.now local.object local.step local.value)) }
        ensures fits { IfOk result (λ made. AreInRange self.now.sheet.plan made.1) }
        ensures accepted { IfOk result (λ _.
            refusals.edit_fault self.now local.object local.step local.value ≡ None) }
        ensures refused { IfErr result
            (IsRefusal (refusals.edit_fault self.now local.object local.step local.value)) }
    {
        let edit = self.stamped_edit(local);
        if let Some(fault) = edit.fault(self.sheet.plan()) {
            return Err(fault_of_own_edit(fault));
        }
        let alone = Scenario::empty(alloc).with_edit(&edit)?;
        Ok((edit.stamp, alone))
    }

    /// Import edits from outside this world, in any order, whose stamps have numbers from 64 on. Either all are taken,
    /// or none. Return the first step at which the numbers set have changed.
    ///
    /// # Errors
    ///
    /// The fault of the first faulty edit: `NoObject`, `Step`, `ValueOutOfRange`, `Count`, `Insider`, in this order;
    /// else `WorkersGone` if the crew returned it, or `OutOfMemory` if an allocation failed.
    pub fn import<C: Crew>(
        &mut self,
        alloc: Global,
        edits: &[Edit],
        crew: &mut C,
        meter: &mut Meter,
    ) -> Result<Option<u32>, ReplicaFault>
        ensures touched { IfOk result (λ touched. touched ≡ touched_step self.old.sheet (from_list edits.now)) }
        ensures write { IsWrite (Take (from_list edits.now)) (refusals.import_fault self.old.sheet.plan edits.now)
            result self.old self.new meter.old meter.new }
        ensures gone { CountsGone result (C.times_gone crew.old) (C.times_gone crew.new) }
    {
        if let Some(fault) = import_fault(self.sheet.plan(), edits) {
            return Err(fault);
        }
        let scenario = Scenario::of_edits(alloc, edits)?;
        self.join(alloc, &scenario, crew, meter)
    }

    /// Take a scenario: the edits of another replica, or a part of them. Return the first step at which the numbers set
    /// have changed.
    ///
    /// # Errors
    ///
    /// The fault of the first faulty edit by object and step: `NoObject`, `Step`, `ValueOutOfRange`, `Count`; else
    /// `WorkersGone` if the crew returned it, or `OutOfMemory` if an allocation failed.
    pub fn take<C: Crew>(
        &mut self,
        alloc: Global,
        scenario: &Scenario,
        crew: &mut C,
        meter: &mut Meter,
    ) -> Result<Option<u32>, ReplicaFault>
        ensures touched { IfOk result (λ touched. touched ≡ touched_step self.old.sheet scenario.now) }
        ensures write { IsWrite (Take scenario.now) (refusals.take_fault self.old.sheet.plan scenario.now)
            result self.old self.new meter.old meter.new }
        ensures gone { CountsGone result (C.times_gone crew.old) (C.times_gone crew.new) }
    {
        if let Some(fault) = self.take_fault(scenario) {
            return Err(fault);
        }
        self.join(alloc, scenario, crew, meter)
    }

    /// Join a scenario, which must fit the plan (`Scenario::fits` returns `None`). All writes of edits come through
    /// here: [`Replica::make_edit`], [`Replica::import`] and [`Replica::take`] check the named causes, and then join.
    /// Return the first step at which the numbers set have changed.
    ///
    /// # Errors
    ///
    /// `WorkersGone` if the crew returned it, else `OutOfMemory` if an allocation failed.
    pub fn join<C: Crew>(
        &mut self,
        alloc: Global,
        scenario: &Scenario,
        crew: &mut C,
        meter: &mut Meter,
    ) -> Result<Option<u32>, ReplicaFault>
        requires { AreInRange self.old.sheet.plan scenario.now }
        ensures touched { IfOk result (λ touched. touched ≡ touched_step self.old.sheet scenario.now) }
        ensures write { IsWrite (Take scenario.now) None result self.old self.new meter.old meter.new }
        ensures gone { CountsGone result (C.times_gone crew.old) (C.times_gone crew.new) }
    {
        self.extend(alloc, scenario, 0, crew, meter)
    }

    /// Simulate up to a step that is not simulated yet. Return the horizon: the greater of the horizon before and `to`.
    ///
    /// # Errors
    ///
    /// `Horizon` if `to` is above 1,048,576; else `WorkersGone` if the crew returned it, or `OutOfMemory` if an
    /// allocation failed.
    pub fn advance<C: Crew>(
        &mut self,
        alloc: Global,
        to: u32,
        crew: &mut C,
        meter: &mut Meter,
    ) -> Result<u32, ReplicaFault>
        ensures horizon { IfOk result (λ horizon. horizon ≡ max self.old.sheet.horizon to) }
        ensures write { IsWrite (Advance to) (refusals.advance_fault to)
            result self.old self.new meter.old meter.new }
        ensures gone { CountsGone result (C.times_gone crew.old) (C.times_gone crew.new) }
    {
        if to > GREATEST_HORIZON {
            return Err(ReplicaFault::Horizon);
        }
        let horizon = self.sheet.horizon().max(to);
        self.extend(alloc, &Scenario::empty(alloc), to, crew, meter)?;
        Ok(horizon)
    }

    // Return the edit that the replica makes.
    fn stamped_edit(&self, local: LocalEdit) -> Edit
        ensures { result ≡ edit_made self.now local.object local.step local.value }
    {
        let count = self.sheet.scenario().greatest_count() + 1;
        let number = self.number as u16;
        Edit {
            object: local.object,
            step: local.step,
            stamp: Stamp { count, number },
            value: local.value,
        }
    }

    // Join a scenario that fits the plan, and simulate up to a step.
    fn extend<C: Crew>(
        &mut self,
        alloc: Global,
        scenario: &Scenario,
        to: u32,
        crew: &mut C,
        meter: &mut Meter,
    ) -> Result<Option<u32>, ReplicaFault>
        requires { AreInRange self.old.sheet.plan scenario.now × (to ≤ GREATEST_HORIZON) }
        ensures touched { IfOk result (λ touched. touched ≡ touched_step self.old.sheet scenario.now) }
        ensures sheet { OnOk result (self.new
            ≡ record self.old { sheet = grown_sheet self.old.sheet scenario.now to }) }
        ensures refused { IfErr result (IsWriteRefusal None) }
        ensures unchanged { OnErr result (self.new ≡ self.old) }
        ensures steps { OnOk result (meter.new ≡ meter_after meter.old (max self.old.sheet.horizon to
            - draft_start self.old.sheet.horizon
            (kept_step self.old.sheet.horizon (touched_step self.old.sheet scenario.now)))) }
        ensures few_steps { TicksAtMost
            (most_steps self.old.sheet.horizon (max self.old.sheet.horizon to)
            (touched_step self.old.sheet scenario.now))
            meter.old meter.new }
        ensures gone { CountsGone result (C.times_gone crew.old) (C.times_gone crew.new) }
    {
        let Grown { sheet, touched } = grown(alloc, &self.sheet, scenario, to, crew, meter)?;
        self.sheet = share(alloc, sheet)?;
        Ok(touched)
    }

    // ---- messages

    /// Make a message of all edits that the replica holds, to be sent to others.
    ///
    /// # Errors
    ///
    /// `OutOfMemory` if an allocation failed. Without edits it does not fail.
    pub fn message(&self) -> Result<Scenario, ReplicaFault>
        ensures message { IfOk result (λ message. message ≡ self.now.sheet.edits) }
        ensures grows_nothing { self.now.sheet.edits ≡ empty → IsOk result }
        ensures refused { IfErr result (IsRefusal None) }
    {
        Ok(self.sheet.scenario().copied()?)
    }

    /// Make the heads of all edits that the replica holds. Another replica replies to them with the edits missing here.
    ///
    /// # Errors
    ///
    /// `OutOfMemory` if an allocation failed. Without edits it does not fail.
    pub fn heads(&self, alloc: Global) -> Result<Heads, ReplicaFault>
        ensures heads { IfOk result (λ heads. heads ≡ deltas.heads self.now.sheet.edits) }
        ensures grows_nothing { self.now.sheet.edits ≡ empty → IsOk result }
        ensures refused { IfErr result (IsRefusal None) }
    {
        Ok(heads_of(alloc, self.sheet.scenario())?)
    }

    /// Make the reply to the heads of another replica: the edits of this one beyond them.
    ///
    /// # Errors
    ///
    /// `OutOfMemory` if an allocation failed. Without edits it does not fail.
    pub fn beyond(&self, alloc: Global, heads: &Heads) -> Result<Scenario, ReplicaFault>
        ensures delta { IfOk result (λ delta. delta ≡ deltas.beyond self.now.sheet.edits heads.now) }
        ensures grows_nothing { self.now.sheet.edits ≡ empty → IsOk result }
        ensures refused { IfErr result (IsRefusal None) }
    {
        Ok(beyond(alloc, self.sheet.scenario(), heads)?)
    }

    // ---- queries

    /// Return the road at a step.
    ///
    /// # Errors
    ///
    /// `NotSimulated` if the step is above the horizon, else `OutOfMemory` if an allocation failed.
    pub fn state(&self, alloc: Global, step: u32) -> Result<Road, ReplicaFault>
        ensures state { IfOk result (λ road. road ≡ state_of self.now.sheet step) }
        ensures accepted { IfOk result (λ _. refusals.state_fault self.now.sheet step ≡ None) }
        ensures refused { IfErr result (IsRefusal (refusals.state_fault self.now.sheet step)) }
    {
        Ok(self.sheet.state(alloc, step)?)
    }

    /// Return the counts of a detector in the steps from `from` to before `to`.
    ///
    /// # Errors
    ///
    /// `NoDetector` if the plan has no such detector, `Range` if `from` is above `to`, `NotSimulated` if `to` is above
    /// the horizon, in this order; else `OutOfMemory` if an allocation failed.
    pub fn totals(
        &self,
        alloc: Global,
        detector: u32,
        from: u32,
        to: u32,
    ) -> Result<Totals, ReplicaFault>
        ensures totals { IfOk result (λ totals. totals ≡ total_of self.now.sheet detector from to) }
        ensures accepted { IfOk result (λ _. refusals.totals_fault self.now.sheet detector from to ≡ None) }
        ensures refused { IfErr result (IsRefusal (refusals.totals_fault self.now.sheet detector from to)) }
        // The counts of whole intervals are stored.
        ensures kept { refusals.totals_fault self.now.sheet detector from to ≡ None →
            AreWholeIntervals self.now.sheet from to → IsOk result }
    {
        Ok(self.sheet.totals(alloc, detector, from, to)?)
    }

    /// Return the rows of a space-time diagram: those of the steps from `from` to `to`, both included, each with the
    /// blocks of its step.
    ///
    /// # Errors
    ///
    /// `Range` if `from` is above `to` or there are more than 1,024 rows, else `NotSimulated` if `to` is above the
    /// horizon, else `OutOfMemory` if an allocation failed.
    pub fn rows(&self, alloc: Global, from: u32, to: u32) -> Result<Vec<String>, ReplicaFault>
        ensures rows { IfOk result (λ rows. map string_bytes rows.items ≡ rows_of self.now.sheet from to) }
        ensures accepted { IfOk result (λ _. refusals.rows_fault self.now.sheet from to ≡ None) }
        ensures refused { IfErr result (IsRefusal (refusals.rows_fault self.now.sheet from to)) }
    {
        let mut cache = QueryCache::new();
        Ok(cache.rows(alloc, &self.sheet, from, to)?)
    }
}

// Move a sheet into shared ownership.
fn share(alloc: Global, sheet: Sheet) -> Result<Arc<Sheet>, OutOfMemory>
    ensures { IfOk result (λ shared. arc_value shared ≡ sheet) }
{
    Ok(Arc::new(alloc, sheet)?)
}

// Return the cause for which an import is refused: the fault of its first faulty edit.
fn import_fault(plan: &Plan, edits: &[Edit]) -> Option<ReplicaFault>
    ensures { result ≡ refusals.import_fault plan.now edits.now }
{
    for edit in edits {
        if let Some(fault) = imported_fault(plan, edit) {
            return Some(fault);
        }
    }
    None
}

/// Return the first named cause for which a crowd is refused: the fault of its first faulty edit, in the order of the
/// shares, else `Horizon` if the step is too late.
pub fn shares_fault(plan: &Plan, shares: &[Vec<Edit>], to: u32) -> Option<ReplicaFault>
    ensures { result ≡ crowds.shares_fault plan.now (crowds.shares_of shares.now) to }
{
    for share in shares {
        if let Some(fault) = import_fault(plan, share.as_slice()) {
            return Some(fault);
        }
    }
    if to > GREATEST_HORIZON {
        return Some(ReplicaFault::Horizon);
    }
    None
}

// Return the cause for which one imported edit is refused.
fn imported_fault(plan: &Plan, edit: &Edit) -> Option<ReplicaFault>
    ensures { result ≡ refusals.imported_edit_fault plan.now edit.now }
{
    match edit.fault(plan) {
        Some(fault) => Some(fault_of_received_edit(fault)),
        None if edit.stamp.number < FIRST_IMPORT_NUMBER => Some(ReplicaFault::Insider),
        None => None,
    }
}
