//! Why a call of the journal is refused.

/// Why a device isn't opened or formatted.
#[derive(Clone, Copy, Debug, PartialEq, Eq)]
pub enum JournalWhy {
    /// The device is shorter than its scale asks.
    Small { len: u64, need: u64 },

    /// No store was made on it yet.
    Blank,

    /// The first byte by which it is no store.
    NotAStore { offset: u64, byte: u8 },

    /// It is a store of another scale.
    ScaleDiffers { found: u8, wanted: u8 },

    /// After the open gate at that offset there is no whole record.
    Damaged { offset: u64 },

    /// The device failed.
    DiskFault,

    NoMemory,
}

/// Why a record isn't appended.
#[derive(Clone, Copy, Debug, PartialEq, Eq)]
pub enum AppendWhy {
    /// The half has no room for so many more bytes.
    JournalFull { used: u64, need: u64, size: u64 },

    /// The device failed. The record may be there or not, until the device is opened again.
    DiskFault,

    NoMemory,
}
