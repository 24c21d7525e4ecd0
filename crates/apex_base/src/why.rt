//! Why a call failed, if it can also run out of memory.
use std::alloc::{AllocError, AllocFailed};

/// A fault, or out of memory. `specs/Answers.antt` has the words in which contracts speak of it.
#[derive(Clone, Copy, Drop, Debug, PartialEq, Eq)]
pub enum Why<F> {
    /// What is wrong with the input.
    Fault(F),
    /// Memory ran out.
    NoMemory,
}

impl<F> From<AllocError> for Why<F> {
    ghost use Rattle.std.specs.Prelude.{◌≡◌};
    ghost use Rattle.apex_base.specs.declared.why.Why.TheVariants.{NoMemory};

    ghost from_gives = { λ _ why. why ≡ NoMemory };

    fn from(_: AllocError) -> Why<F> {
        Why::NoMemory
    }
}

impl<T: Drop, F> From<AllocFailed<T>> for Why<F> {
    ghost use Rattle.std.specs.Prelude.{◌≡◌};
    ghost use Rattle.apex_base.specs.declared.why.Why.TheVariants.{NoMemory};

    ghost from_gives = { λ _ why. why ≡ NoMemory };

    fn from(_: AllocFailed<T>) -> Why<F> {
        Why::NoMemory
    }
}
