//! Why bytes aren't a script.
use apex_base::{Boxed, ModuleFault, Why};
use thiserror::Error;

/// What is wrong with a line, in the order in which the checks are made.
#[derive(Drop, Debug, PartialEq, Eq, Error)]
pub enum LineFault {
    /// The script has more than 16777216 bytes. It is reported at line 0.
    #[error("too-long")]
    TooLong,
    /// A byte outside 0x20 to 0x7e.
    #[error("bad-byte")]
    BadByte,
    /// No line begins with the first word.
    #[error("unknown-word")]
    UnknownWord,
    /// A line that this version doesn't read yet.
    #[error("not-yet")]
    NotYet,
    /// The line may not stand here.
    #[error("bad-place")]
    BadPlace,
    /// The line has too few or too many words.
    #[error("words")]
    Words,
    /// The word of this number, counted from 1, is the first that can't be read or isn't in range.
    #[error("bad-word {word}")]
    BadWord { word: u32 },
    /// The word of this number is a label, and no block above has it.
    #[error("no-label {word}")]
    NoLabel { word: u32 },
    /// The manifest of the module doesn't read, for this reason.
    #[error("bad-module {fault}")]
    BadModule { fault: Boxed<ModuleFault> },
    /// The image has a module of that name already.
    #[error("twice")]
    Twice,
    /// The image has as many modules as the scale allows, or the module of the block has no room for the file.
    #[error("full")]
    Full,
    /// The script ends too early: within a block, or without a `scale` line.
    #[error("unended")]
    Unended,
}

/// Why `read_script` gives no script: the first bad line, counted from 1, and what is wrong with it.
#[derive(Drop, Debug, PartialEq, Eq, Error)]
pub enum ScriptWhy {
    #[error("script line {line} {why}")]
    Bad { line: u32, why: LineFault },
    #[error("no memory")]
    NoMemory,
}

/// Why a line didn't enter a draft.
pub type LineError = Why<LineFault>;

impl From<LineFault> for LineError {
    ghost use Rattle.std.specs.Prelude.{◌≡◌};
    ghost use Rattle.apex_base.specs.declared.why.Why.TheVariants.{Fault};

    ghost from_gives = { λ fault why. why ≡ Fault fault };

    fn from(fault: LineFault) -> LineError {
        LineError::Fault(fault)
    }
}
