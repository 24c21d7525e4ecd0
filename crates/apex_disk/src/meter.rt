//! Counts the calls of a disk in memory, and says which of them fail.
ghost use Rattle.std.specs.Prelude.{◌≡◌};

use crate::arm::Arm;

/// The numbers of the calls that fail, from 1, reads, writes and syncs counted together; and the power cut that is set.
#[derive(Drop)]
pub struct Meter {
    pub fails: Vec<u64>,
    pub calls: u64,
    pub faults: u64,
    pub arm: Arm,
}

impl Meter {
    ghost use Rattle.std.specs.Prelude.{[]};
    ghost use Rattle.apex_disk.specs.declared.arm.Arm.TheVariants.{Off};
    ghost use Rattle.apex_disk.specs.Arm.{armed, after_write, has_stopped};
    ghost use Rattle.apex_disk.specs.Meter.{refuses, called, handed_over};

    /// No call was made yet, and no cut is set.
    pub fn of(fails: Vec<u64>) -> Self
        ensures { result ≡ record { fails = fails; calls = 0; faults = 0; arm = Off } }
    {
        Meter {
            fails,
            calls: 0,
            faults: 0,
            arm: Arm::Off,
        }
    }

    /// Counts a call, and says whether it fails.
    pub fn refuses(&mut self) -> bool
        ensures answer { result ≡ refuses self.old }
        ensures counted { self.new ≡ called self.old }
    {
        self.calls = self.calls.saturating_add(1);
        if self.fails.contains(&self.calls) || self.arm.has_stopped() {
            self.faults = self.faults.saturating_add(1);
            return true;
        }
        false
    }

    /// Counts a write that was handed over, and says whether the power failed in it.
    pub fn stops(&mut self) -> bool
        ensures answer { result ≡ has_stopped (after_write self.old.arm) }
        ensures counted { self.new ≡ handed_over self.old }
    {
        self.arm = self.arm.after_write();
        if self.arm.has_stopped() {
            self.faults = self.faults.saturating_add(1);
            return true;
        }
        false
    }
}
