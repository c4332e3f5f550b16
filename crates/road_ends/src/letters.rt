//! The letters of a row of text.

/// The letter of a standing car. A car of speed v has the v-th letter after it.
pub const STANDING: u8 = b'0';
/// The letter of a blocked cell with no car on it.
pub const BLOCKED: u8 = b'#';
/// The letter of an empty cell.
pub const EMPTY: u8 = b'.';
