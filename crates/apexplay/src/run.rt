//! The whole program over streams that `main` or a test hands it.
ghost use Rattle.std.specs.Prelude.{◌≡◌, IfOk, IfErr, OnOk, IsTrue};
ghost use Rattle.device_play.specs.declared.status.Status.{Status};
ghost use Rattle.device_play.specs.Headline.{status_number};
ghost use Rattle.apexplay.specs.Ending.{IsRun};
ghost use Rattle.apexplay.specs.Report.{HasLine};

use crate::play::{Ended, play};
use crate::streams::{Reading, Writing};
use device_play::Status;
use std::alloc::Global;
use std::io;
use std::io::{Read, Write};

/// The number that the program exits with, whether its line on standard error was written, and the reader and the
/// writer as it left them.
#[derive(Drop)]
pub struct Exit<R, W> {
    pub number: u8,
    pub said: bool,
    pub reader: R,
    pub writer: W,
}

/// Plays with these words, or ends with the status of words that can't be had, and says why it ended.
pub fn run<R: Read + Drop, W: Write + Drop, E: Write>(
    alloc: Global,
    words: Result<Vec<String>, Status>,
    reader: R,
    writer: W,
    errors: &mut E,
) -> Exit<R, W>
    ensures played { IfOk words (λ words. (status : Status) × (result.number ≡ status_number status)
        × IsRun words.items (R.remaining reader) (R.remaining result.reader)
        (W.contents writer) (W.contents result.writer) status
        × (IsTrue result.said → HasLine (E.contents errors.old) (E.contents errors.new) status)) }
    ensures stopped { IfErr words (λ status. (result.number ≡ status_number status)
        × (IsTrue result.said → HasLine (E.contents errors.old) (E.contents errors.new) status)) }
{
    let ended = match words {
        Ok(words) => play(alloc, &words, reader, writer),
        Err(status) => Ended {
            status,
            source: Reading::new(reader),
            sink: Writing::new(alloc, writer),
        },
    };
    let Ended {
        status,
        source,
        sink,
    } = ended;
    // There is nobody to tell where this fails.
    let said = report(errors, &status).is_ok();
    Exit {
        number: status.number(),
        said,
        reader: source.into_reader(),
        writer: sink.into_writer(),
    }
}

/// Says why a run ended, in one line, and nothing where it is done.
fn report<E: Write>(errors: &mut E, status: &Status) -> io::Result<()>
    ensures { OnOk result (HasLine (E.contents errors.old) (E.contents errors.new) status.now) }
{
    match status {
        Status::Done => Ok(()),
        Status::Usage => writeln!(errors, "apexplay: usage"),
        Status::Script { line, why } => writeln!(errors, "apexplay: script line {line} {why}"),
        Status::SourceFault => writeln!(errors, "apexplay: source fault"),
        Status::SinkFault => writeln!(errors, "apexplay: sink fault"),
        Status::Memory => writeln!(errors, "apexplay: no memory"),
    }
}
