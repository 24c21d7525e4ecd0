//! A run over a reader and a writer. Which they are is the business of `main`.
ghost use Rattle.std.specs.Prelude.{◌≡◌, ◌⊎◌, ◌↔◌, ◌<◌, ◌≤◌, [], IsTrue};
ghost use Rattle.std.specs.Io.KnownBytes.{Keeps};
ghost use Rattle.device_play.specs.Headline.{IsSilent};
ghost use Rattle.apexplay.specs.Ending.{IsRun};
ghost use Rattle.apexplay.specs.Streams.{held_of};

use crate::streams::{Reading, Writing};
use apex_base::OpenGate;
use device_play::{Played, Status, apex_play};
use std::alloc::Global;
use std::io::{Read, Write};

/// How a run ended, and what it left of its reader and its writer.
#[derive(Drop)]
pub struct Ended<R: Read, W: Write> {
    pub status: Status,
    pub source: Reading<R>,
    pub sink: Writing<W>,
}

/// Plays the script that the reader has, and writes its text. Lines are gathered into larger writes, so a run is done
/// only when the last of them is.
pub fn play<R: Read + Drop, W: Write + Drop>(
    alloc: Global,
    words: &[String],
    reader: R,
    writer: W,
) -> Ended<R, W>
    ensures run { IsRun words.now (R.remaining reader) (R.remaining result.source.reader)
        (W.contents writer) (W.contents result.sink.writer) result.status }
    ensures read { result.status ≡ Status.SourceFault → 0 < result.source.faults }
    ensures put { result.status ≡ Status.SinkFault → 0 < result.sink.faults }
{
    let mut source = Reading::new(reader);
    let mut sink = Writing::new(alloc, writer);
    if sink.take_room().is_err() {
        return Ended {
            status: Status::Memory,
            source,
            sink,
        };
    }
    let Played { status, turns: _ } = apex_play(alloc, words, &mut source, &mut sink, &OpenGate);
    let status = write_rest(&mut sink, status);
    Ended {
        status,
        source,
        sink,
    }
}

/// Whether a run that ended so may have put some of its text.
fn may_have_text(status: &Status) -> bool
    ensures { IsTrue result ↔ (¬ (IsSilent status.now)) }
{
    matches!(status, Status::Done | Status::SinkFault | Status::Memory)
}

/// Writes what is still gathered of the text of a run that ended so, and says how it ends then.
fn write_rest<W: Write + Drop>(sink: &mut Writing<W>, status: Status) -> Status
    ensures kept { Keeps (held_of W.contents sink.old) (held_of W.contents sink.new) }
    ensures refused { IsSilent status → result ≡ status }
    ensures failed { (result ≡ status) ⊎ (result ≡ Status.SinkFault) }
    ensures written { result ≡ Status.Done → sink.new.gathered.items ≡ [] }
    ensures later { sink.old.faults ≤ sink.new.faults }
    ensures cause { result ≡ Status.SinkFault → (status ≡ Status.SinkFault) ⊎ (0 < sink.new.faults) }
{
    if may_have_text(&status) && sink.finish().is_err() {
        return Status::SinkFault;
    }
    status
}
