//! Numbers with a range, and the two scales of a store.
ghost use Rattle.std.specs.Prelude.{◌≡◌};
ghost use Rattle.apex_base.specs.Commit.{is_caller_id, rollback_id};
ghost use Rattle.apex_base.specs.Ranges.{IsVersion, IsMillis};
ghost use Rattle.apex_base.specs.Numbers.{version_of, millis_of, scale_modules, scale_file_weight, scale_data_weight};
ghost use Rattle.apex_base.specs.Numbers.{scale_units, scale_device_len, scale_number, scale_of_number};

use std::marker::Model;

/// A module's version: 1 to 9223372036854775807. A greater version is newer.
#[derive(Clone, Copy, PartialEq, Eq, PartialOrd, Ord)]
pub struct Version {
    number: u64,
}

impl Model for Version {
    ghost use Rattle.std.specs.Prelude.{ℕ};
    ghost use Rattle.apex_base.specs.Ranges.{IsVersion};

    ghost Value = { ℕ };

    ghost view = { λ version. version.number };

    ghost invariant = { λ version. IsVersion version.number };

    ghost inverse = { λ n. record { number = n } };
}

impl Version {
    /// The version of this number, or None if it is out of range.
    pub fn new(number: u64) -> Option<Self>
        ensures { result ≡ version_of number }
    {
        if number >= 1 && number <= 9223372036854775807 {
            Some(Version { number })
        } else {
            None
        }
    }

    /// The number.
    pub fn number(self) -> u64
        ensures value { result ≡ self }
        ensures range { IsVersion self }
    {
        self.number
    }
}

/// A moment or a duration: 0 to 9007199254740991 milliseconds.
#[derive(Clone, Copy, PartialEq, Eq, PartialOrd, Ord)]
pub struct Millis {
    number: u64,
}

impl Model for Millis {
    ghost use Rattle.std.specs.Prelude.{ℕ};
    ghost use Rattle.apex_base.specs.Ranges.{IsMillis};

    ghost Value = { ℕ };

    ghost view = { λ millis. millis.number };

    ghost invariant = { λ millis. IsMillis millis.number };

    ghost inverse = { λ n. record { number = n } };
}

impl Millis {
    /// No milliseconds: the clock before the first boot.
    pub fn zero() -> Self
        ensures { result ≡ 0 }
    {
        Millis { number: 0 }
    }

    /// That many milliseconds, or None if they are out of range.
    pub fn new(number: u64) -> Option<Self>
        ensures { result ≡ millis_of number }
    {
        if number <= 9007199254740991 {
            Some(Millis { number })
        } else {
            None
        }
    }

    /// The number of milliseconds.
    pub fn number(self) -> u64
        ensures value { result ≡ self }
        ensures range { IsMillis self }
    {
        self.number
    }
}

/// The id of a session, or of a child of one.
#[derive(Clone, Copy, Debug, PartialEq, Eq, PartialOrd, Ord)]
pub struct SessionId(pub u32);

/// What the id of the session that takes another back has more than the other's, and the first id that no caller may give.
const ROLLBACK: u32 = 1073741824;

impl SessionId {
    /// Whether a caller may give this id.
    pub fn is_caller_id(self) -> bool
        ensures { result ≡ is_caller_id self }
    {
        self.0 >= 1 && self.0 < ROLLBACK
    }

    /// The number of the session that takes this one back, or of its child that takes this child back.
    pub fn rollback_number(self) -> u64
        ensures { result ≡ (rollback_id self).0 }
    {
        u64::from(self.0) + u64::from(ROLLBACK)
    }
}

/// How large a store may grow: the table of `docs/formats/script.md`, "Scales".
#[derive(Clone, Copy, Debug, PartialEq, Eq)]
pub enum Scale {
    Small,
    Standard,
}

impl Scale {
    /// How many modules an image may have.
    pub fn modules(self) -> u32
        ensures { result ≡ scale_modules self }
    {
        match self {
            Scale::Small => 8,
            Scale::Standard => 64,
        }
    }

    /// The greatest weight of the modules that are kept.
    pub fn file_weight(self) -> u64
        ensures { result ≡ scale_file_weight self }
    {
        match self {
            Scale::Small => 65536,
            Scale::Standard => 16777216,
        }
    }

    /// The greatest weight of one name's data.
    pub fn data_weight(self) -> u64
        ensures { result ≡ scale_data_weight self }
    {
        match self {
            Scale::Small => 1024,
            Scale::Standard => 16384,
        }
    }

    /// How many units of sessions a store may ever have.
    pub fn units(self) -> u32
        ensures { result ≡ scale_units self }
    {
        match self {
            Scale::Small => 32,
            Scale::Standard => 1024,
        }
    }

    /// The least length of a device, in bytes.
    pub fn device_len(self) -> u64
        ensures { result ≡ scale_device_len self }
    {
        match self {
            Scale::Small => 1052672,
            Scale::Standard => 67112960,
        }
    }

    /// The scale's number on a device.
    pub fn number(self) -> u8
        ensures { result ≡ scale_number self }
    {
        match self {
            Scale::Small => 1,
            Scale::Standard => 2,
        }
    }

    /// The scale of a number, or None if no scale has it.
    pub fn of_number(n: u8) -> Option<Self>
        ensures { result ≡ scale_of_number n }
    {
        match n {
            1 => Some(Scale::Small),
            2 => Some(Scale::Standard),
            _ => None,
        }
    }
}
