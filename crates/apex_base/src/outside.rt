//! The world outside the manager: where bytes come from and go to, what mounts, where a test may wait.
ghost use Rattle.std.specs.Prelude.{◌≡◌, ◌≤◌, ℕ, List, Bool, Option, length, IfOk};
ghost use Rattle.apex_base.specs.Causes.{HasCause};
ghost use Rattle.apex_base.specs.Outside.{Took, Puts};
ghost use Rattle.apex_base.specs.declared.records.Place.{Place};

use crate::{Name, Place, Version};

/// A read or a put that failed.
#[derive(Clone, Copy, Debug, PartialEq, Eq)]
pub struct Failed;

/// Where bytes come from.
pub trait Source {
    /// The bytes that are left, if the source states them.
    ghost left: { Self → Option (List ℕ) };

    /// How often a read has failed.
    ghost faults: { Self → ℕ };

    /// Reads the next bytes to the front of `into`, and answers how many. 0 means the end, unless `into` is
    /// empty.
    fn read(&mut self, into: &mut [u8]) -> Result<usize, Failed>
        ensures within { IfOk result (λ n. n ≤ length into.new) }
        ensures taken { Took (left self.old) (left self.new) result into.new }
        ensures cause { HasCause (faults self.old) (faults self.new) result };
}

/// Where bytes go to.
pub trait Sink {
    /// The bytes that it holds, if the sink states them.
    ghost held: { Self → Option (List ℕ) };

    /// How often a put has failed.
    ghost faults: { Self → ℕ };

    /// Appends the piece. A put that failed has appended a front of it, or nothing.
    fn put(&mut self, piece: &[u8]) -> Result<(), Failed>
        ensures put { Puts (held self.old) (held self.new) result piece.now }
        ensures cause { HasCause (faults self.old) (faults self.new) result };
}

/// Says which modules mount. Threads may share it.
pub trait Mounter: Sync {
    /// The fixed answer for a name, a version and a place.
    ghost mounting: { Self → List ℕ → ℕ → Place → Bool };

    /// Whether this module mounts.
    fn mounts(&self, name: &Name, version: Version, place: Place) -> bool
        ensures { result ≡ mounting self.now name.now version place };
}

/// Where a test may hold up a worker or a lane. Threads may share it.
pub trait Gate: Sync {
    /// Called before a worker's job or a lane's call.
    fn at(&self, who: u32, step: u32);
}

/// A gate that holds nobody up.
#[derive(Clone, Copy)]
pub struct OpenGate;

impl Gate for OpenGate {
    fn at(&self, _who: u32, _step: u32) {}
}
