//! What the store knows of a reader.

use crate::entry::Entry;
use std::collections::LinkedList;

/// What the store knows of one of its readers. Only contracts use it: the program never makes one.
pub struct View {
    /// The history that was published when the reader last entered the store.
    pub found: LinkedList<Entry>,
    /// The accepted writes of its session, with their places in the journal.
    pub own: LinkedList<(u64, Entry)>,
    /// The number of times that it has entered the store to look.
    pub entered: u64,
}
