//! A power cut that is set for a later write.
ghost use Rattle.std.specs.Prelude.{◌≡◌};

/// Where the next power cut stands.
#[derive(Clone, Copy, Debug, PartialEq, Eq)]
pub enum Arm {
    /// No cut is set.
    Off,

    /// The power fails at the write of this number from here on, counted from 1.
    Set { left: u32, pick: u32 },

    /// The power has failed, and every call fails until it comes back.
    Stopped { pick: u32 },
}

impl Arm {
    ghost use Rattle.apex_disk.specs.Arm.{armed, after_write, has_stopped, pick_of};

    /// The same with this cut set, where the power is still on.
    pub fn armed(self, writes: u32, pick: u32) -> Self
        ensures { result ≡ armed self writes pick }
    {
        match self {
            Arm::Off | Arm::Set { .. } => Arm::Set { left: writes, pick },
            Arm::Stopped { pick } => Arm::Stopped { pick },
        }
    }

    /// The same after one more write.
    pub fn after_write(self) -> Self
        ensures { result ≡ after_write self }
    {
        match self {
            Arm::Set { left, pick } => {
                if left == 1 {
                    Arm::Stopped { pick }
                } else {
                    Arm::Set {
                        left: left.saturating_sub(1),
                        pick,
                    }
                }
            }
            Arm::Off => Arm::Off,
            Arm::Stopped { pick } => Arm::Stopped { pick },
        }
    }

    /// Whether the power has failed.
    pub fn has_stopped(self) -> bool
        ensures { result ≡ has_stopped self }
    {
        match self {
            Arm::Off | Arm::Set { .. } => false,
            Arm::Stopped { .. } => true,
        }
    }

    /// What becomes of bytes that weren't synced when the power comes back.
    pub fn pick(self) -> u32
        ensures { result ≡ pick_of self }
    {
        match self {
            Arm::Off | Arm::Set { .. } => 1,
            Arm::Stopped { pick } => pick,
        }
    }
}
