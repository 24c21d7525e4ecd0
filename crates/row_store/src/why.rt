//! Why a call of the store is refused.

/// Why a device isn't opened as a store.
#[derive(Clone, Copy, Debug, PartialEq, Eq)]
pub enum StoreWhy {
    /// The device is shorter than its scale asks.
    Small { len: u64, need: u64 },

    /// The first byte by which it is no store.
    NotAStore { offset: u64, byte: u8 },

    /// It is a store of another scale.
    ScaleDiffers { found: u8, wanted: u8 },

    /// After the open gate at that offset there is no whole record, or one that is no batch with the number that
    /// follows.
    Damaged { offset: u64 },

    /// The rows of that tag aren't those of the world that they open to; 0 where that world breaks a rule. The store
    /// itself never answers it.
    BadRows { tag: u8 },

    /// The device failed.
    DiskFault,

    NoMemory,
}

/// Why a batch isn't committed.
#[derive(Clone, Copy, Debug, PartialEq, Eq)]
pub enum CommitWhy {
    /// An earlier commit answered `DiskFault`.
    Closed,

    /// The half has no room for so many more bytes.
    JournalFull { used: u64, need: u64, size: u64 },

    /// The device failed. The batch may be there or not, until the device is opened again.
    DiskFault,

    NoMemory,
}
