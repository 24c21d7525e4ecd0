//! How a run ends.
use device_script::LineFault;

/// How a run ended, and why it could not go on.
#[derive(Drop, Debug, PartialEq, Eq)]
pub enum Status {
    /// The script was played to its end, and all its text was put.
    Done,
    /// The words are no command.
    Usage,
    /// The bytes are no script: the first bad line, from 1, and what is wrong with it; line 0 for too long a script.
    Script { line: u32, why: LineFault },
    /// The source failed.
    SourceFault,
    /// The sink failed. It holds a front of the text.
    SinkFault,
    /// Memory ran out.
    Memory,
}

impl Status {
    ghost use Rattle.std.specs.Prelude.{◌≡◌};
    ghost use Rattle.device_play.specs.Headline.{status_number};

    /// The number that the program exits with.
    pub fn number(&self) -> u8
        ensures { result ≡ status_number self.now }
    {
        match self {
            Status::Done => 0,
            Status::Usage => 1,
            Status::Script { .. } => 2,
            Status::SourceFault => 3,
            Status::SinkFault => 4,
            Status::Memory => 5,
        }
    }
}
