//! The limits of the laboratory. Every other crate takes them from here.

/// The minimum length of a road, in cells.
pub const LEAST_LENGTH: u32 = 8;
/// The maximum length of a road, in cells.
pub const GREATEST_LENGTH: u32 = 8_192;
/// The maximum length of the deleted zone at the end of a road, in cells. The zone has at least one cell.
pub const GREATEST_EXIT: u32 = 64;
/// The maximum number of zones of a road.
pub const MOST_ZONES: usize = 64;
/// The maximum number of inlets of a road.
pub const MOST_INLETS: usize = 16;
/// The maximum number of detectors of a road.
pub const MOST_DETECTORS: usize = 64;
/// The highest speed limit, in cells per step.
pub const GREATEST_LIMIT: u32 = 9;
/// The chance of an event that always happens: chances are counted in 1/65,536.
pub const CERTAIN: u32 = 65_536;
/// The maximum number of replicas of a world. They are numbered from 0.
pub const MOST_REPLICAS: u32 = 64;
/// The latest step of an edit.
pub const LAST_EDIT_STEP: u32 = 1_048_575;
/// The maximum horizon, in steps.
pub const GREATEST_HORIZON: u32 = 1_048_576;
/// The largest count of a stamp. The smallest is 1.
pub const GREATEST_COUNT: u64 = 281_474_976_710_656;
/// The smallest number in the stamp of an imported edit. Smaller numbers belong to replicas.
pub const FIRST_IMPORT_NUMBER: u16 = 64;
/// The maximum number of sessions of one shared replica.
pub const MOST_SESSIONS: u32 = 8;
/// The maximum number of workers of a crew.
pub const MOST_WORKERS: u32 = 16;
/// The maximum number of rows of one space-time diagram.
pub const MOST_ROWS: u32 = 1_024;
/// The maximum length of a line of input, in bytes, without its newline.
pub const LONGEST_LINE: usize = 65_536;
/// The maximum number of lines of input after the plan line.
pub const MOST_LINES: u32 = 1_000_000;
/// The maximum length of the input, in bytes.
pub const MOST_BYTES: u64 = 4_294_967_296;
