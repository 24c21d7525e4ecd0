//! Rows of watches: tag 9. A key is an observer after its length, and the name that it watches.

/// The tag of the rows of watches.
pub const WATCH: u8 = 9;
