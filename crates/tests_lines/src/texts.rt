//! The texts of the errors of plans, edits, crews and lines.

use road_format::{LineFault, OutOfMemory, PlanLineFault};
use road_plan::PlanFault;
use road_scenario::EditFault;
use road_workers::CrewFault;
use std::alloc::Global;
use std::test::Fail;

/// An error of a library.
#[derive(Clone, Copy)]
enum Fault {
    Plan(PlanFault),
    Edit(EditFault),
    Crew(CrewFault),
    Line(LineFault),
    PlanLine(PlanLineFault),
}

const TEXTS: &[(Fault, &str)] = &[
    (
        Fault::Plan(PlanFault::Length),
        "the road is not 8 to 8192 cells long",
    ),
    (
        Fault::Plan(PlanFault::Exit),
        "the deleted zone is not 1 to 64 cells long and shorter than the road",
    ),
    (
        Fault::Plan(PlanFault::Zones),
        "there are not 1 to 64 zones with a width above 0 and one entry for each",
    ),
    (
        Fault::Plan(PlanFault::Inlets),
        "there is no inlet, there are more than 16, or they are not at different cells before the deleted zone",
    ),
    (
        Fault::Plan(PlanFault::Detectors),
        "there are more than 64 detectors, or one is at the first cell or in the deleted zone",
    ),
    (
        Fault::Plan(PlanFault::Default),
        "a speed limit is above 9, or a slowing chance or an inflow above 65536",
    ),
    (Fault::Plan(PlanFault::OutOfMemory), "no memory"),
    (
        Fault::Edit(EditFault::NoObject),
        "the plan has no such object",
    ),
    (Fault::Edit(EditFault::Step), "the step is above 1048575"),
    (
        Fault::Edit(EditFault::ValueOutOfRange),
        "the number is out of the object's range",
    ),
    (
        Fault::Edit(EditFault::Count),
        "the count is not 1 to 281474976710656",
    ),
    (
        Fault::Crew(CrewFault::WorkersGone),
        "a worker could not be started or has gone",
    ),
    (Fault::Crew(CrewFault::OutOfMemory), "no memory"),
    (Fault::Line(LineFault::NotJson), "not json"),
    (Fault::Line(LineFault::NotACommand), "not a command"),
    (Fault::Line(LineFault::UnknownForm), "unknown form"),
    (Fault::Line(LineFault::OutOfMemory), "no memory"),
    (Fault::PlanLine(PlanLineFault::NotJson), "not json"),
    (Fault::PlanLine(PlanLineFault::NotAPlan), "not a plan"),
    (
        Fault::PlanLine(PlanLineFault::Names),
        "the names are not 1 to 64 different texts of 1 to 64 bytes",
    ),
    (
        Fault::PlanLine(PlanLineFault::Plan(PlanFault::Length)),
        "the road is not 8 to 8192 cells long",
    ),
    (Fault::PlanLine(PlanLineFault::OutOfMemory), "no memory"),
];

// Return the text of an error.
fn text_of(alloc: Global, fault: Fault) -> Result<String, OutOfMemory> {
    match fault {
        Fault::Plan(fault) => format!(in alloc; "{fault}"),
        Fault::Edit(fault) => format!(in alloc; "{fault}"),
        Fault::Crew(fault) => format!(in alloc; "{fault}"),
        Fault::Line(fault) => format!(in alloc; "{fault}"),
        Fault::PlanLine(fault) => format!(in alloc; "{fault}"),
    }
}

#[test]
fn each_error_has_its_text(rt: HostRuntime) -> Result<(), Fail> {
    for (fault, text) in TEXTS {
        let said = text_of(rt.alloc(), *fault)?;
        assert!(rt; said.as_str() == *text);
    }
    Ok(())
}
