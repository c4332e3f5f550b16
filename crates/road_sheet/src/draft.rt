//! Drafts: sheets that grow.

ghost use Rattle.std.specs.Prelude.{◌≡◌, ◌<◌, IfOk, OnErr, OnOk};
ghost use Rattle.std.specs.Arc.{arc_value};
ghost use Rattle.road_plan.specs.declared.limits.TheConstants.{GREATEST_HORIZON};
ghost use Rattle.road_ends.specs.Input.{input_speeds};
ghost use Rattle.road_sheet.specs.Sheets.{next_input, sheet_after_step, state_of};

use crate::sheet::Sheet;
use crate::span_draft::SpanDraft;
use road_cells::Road;
use road_ends::{StepInput, finish};
use road_plan::OutOfMemory;
use std::alloc::Global;
use std::marker::Model;
use std::sync::Arc;

/// A sheet that is being made. Contracts see the sheet so far.
#[derive(Drop)]
pub struct Draft {
    pub(crate) sheet: Sheet,
}

impl Model for Draft {
    ghost use Rattle.std.specs.Prelude.{◌≡◌};
    ghost use Rattle.std.specs.Coded.{codes};
    ghost use Rattle.road_scenario.specs.Instances.EditOrder.{edits_code};
    ghost use Rattle.road_sheet.specs.Sheets.{Sheet};

    ghost Value = { Sheet };

    ghost coded = { Prim.hlevel (codes, edits_code) };

    ghost view = { λ d. d.sheet };
}

impl Draft {
    /// Return the number of steps that are simulated so far.
    pub fn horizon(&self) -> u32
        ensures { result ≡ self.now.horizon }
    {
        self.sheet.horizon()
    }

    /// Make the input of the next step.
    ///
    /// # Errors
    ///
    /// `OutOfMemory` if an allocation failed. The draft is then unchanged.
    pub fn input(&mut self, alloc: Global) -> Result<Arc<StepInput>, OutOfMemory>
        ensures input { IfOk result (λ input. arc_value input ≡ next_input self.old) }
        ensures unchanged { self.new ≡ self.old }
    {
        self.sheet.next_input(alloc)
    }

    /// Add one more step, given its input and the new speeds of its cars. The input must be that of the next step, the
    /// speeds must be those that the rules give its cars, and the horizon must be below 1,048,576.
    ///
    /// # Errors
    ///
    /// `OutOfMemory` if an allocation failed. The draft is then unchanged.
    pub fn push(
        &mut self,
        alloc: Global,
        input: &StepInput,
        speeds: &[u8],
    ) -> Result<(), OutOfMemory>
        requires input { input.now ≡ next_input self.old }
        requires speeds { speeds.now ≡ input_speeds input.now }
        requires within_limit { self.old.horizon < GREATEST_HORIZON }
        ensures grown { OnOk result (self.new ≡ sheet_after_step self.old) }
        ensures unchanged { OnErr result (self.new ≡ self.old) }
    {
        let road = finish(alloc, input, speeds)?;
        self.sheet.extend(alloc, input, speeds, road)
    }

    /// Return the road at the horizon.
    pub fn road(&self) -> &Road
        ensures { result.now ≡ state_of self.now self.now.horizon }
    {
        self.sheet.road()
    }

    /// Split the draft into a draft that grows by spans, and the road at its horizon.
    pub fn by_spans(self) -> (SpanDraft, Road)
        ensures draft { result.0 ≡ self }
        ensures road { result.1 ≡ state_of self self.horizon }
    {
        self.sheet.by_spans()
    }

    /// Return the sheet.
    pub fn sheet(self) -> Sheet
        ensures { result ≡ self }
    {
        self.sheet
    }
}
