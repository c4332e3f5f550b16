//! The named causes for which a line or a command is refused.

ghost use Rattle.std.specs.Prelude.{◌≡◌};
ghost use Rattle.road_format.specs.Refusals.{text_of};

/// Why a line is refused, as its reply states it.
#[derive(Clone, Copy, Debug, PartialEq, Eq)]
pub enum Refusal {
    /// The input ended before its first line.
    NoPlan,
    /// The line has more than 65,536 bytes, without its newline.
    LineTooLong,
    /// The line is not a JSON value.
    NotJson,
    /// The first line is a JSON value, but not a plan line.
    NotAPlan,
    /// There is no replica, or there are more than 64; or two names are equal, or one does not have 1 to 64 bytes.
    Names,
    /// The road is too short or too long.
    Length,
    /// The deleted zone is empty, too long, or no shorter than the road.
    Exit,
    /// The zones have no width or are too many, or the list does not have one entry for each zone.
    Zones,
    /// The inlets are too few or too many, or not at different cells before the deleted zone.
    Inlets,
    /// The detectors are too many, or one is at the first cell or in the deleted zone.
    Detectors,
    /// A speed limit, a slowing chance or an inflow is too large.
    Default,
    /// The line is a JSON value, but not a command.
    NotACommand,
    /// The command's form is not known.
    UnknownForm,
    /// No replica has this name.
    NoReplica,
    /// No message has this name, or the message of this name is of another kind.
    NoMessage,
    /// Another message already has this name.
    NameTaken,
    /// The plan has no such object.
    NoObject,
    /// The step from which an edit takes effect is too large.
    Step,
    /// The object does not allow the value.
    ValueOutOfRange,
    /// No count is left for the stamp of an edit.
    CountsSpent,
    /// The count of an edit's stamp is 0 or too large.
    Count,
    /// The number in an edit's stamp is that of a replica.
    Insider,
    /// The requested horizon is too large.
    Horizon,
    /// The plan has no such detector.
    NoDetector,
    /// The first requested step is above the last, or too many rows are requested.
    Range,
    /// The requested step is above the replica's horizon.
    NotSimulated,
}

impl Refusal {
    /// Return the text of the refusal in a reply.
    pub fn text(self) -> &'static str
        ensures { result.now ≡ text_of self }
    {
        match self {
            Refusal::NoPlan => "no plan",
            Refusal::LineTooLong => "line too long",
            Refusal::NotJson => "not json",
            Refusal::NotAPlan => "not a plan",
            Refusal::Names => "Names",
            Refusal::Length => "Length",
            Refusal::Exit => "Exit",
            Refusal::Zones => "Zones",
            Refusal::Inlets => "Inlets",
            Refusal::Detectors => "Detectors",
            Refusal::Default => "Default",
            Refusal::NotACommand => "not a command",
            Refusal::UnknownForm => "unknown form",
            Refusal::NoReplica => "NoReplica",
            Refusal::NoMessage => "NoMessage",
            Refusal::NameTaken => "NameTaken",
            Refusal::NoObject => "NoObject",
            Refusal::Step => "Step",
            Refusal::ValueOutOfRange => "ValueOutOfRange",
            Refusal::CountsSpent => "CountsSpent",
            Refusal::Count => "Count",
            Refusal::Insider => "Insider",
            Refusal::Horizon => "Horizon",
            Refusal::NoDetector => "NoDetector",
            Refusal::Range => "Range",
            Refusal::NotSimulated => "NotSimulated",
        }
    }
}
