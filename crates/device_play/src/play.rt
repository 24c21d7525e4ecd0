//! The top call. The commit point is `enter_turn` in `run`: a turn enters the history right after it happened and
//! before its first line is put, so that what a failing sink holds is a front of the text of the turns that are returned.
ghost use Rattle.std.specs.Prelude.{◌≡◌, [], ◌↔◌, IsTrue};
ghost use Rattle.std.specs.List.{All};
ghost use Rattle.apex_base.specs.Causes.{Rose};
ghost use Rattle.apex_base.specs.Outside.{PutAll, PutFront};
ghost use Rattle.apex_world.specs.declared.script.Script.{Script};
ghost use Rattle.apex_world.specs.Text.{out};
ghost use Rattle.apex_world.specs.Turns.{Fits, IsInOrder};
ghost use Rattle.device_script.specs.declared.fault.ScriptWhy.{ScriptWhy};
ghost use Rattle.device_play.specs.Headline.{Plays, HasScript, HasNoScript, IsRefused, HasBadLine, IsSilent};
ghost use Rattle.device_play.specs.Source.{Ended, TakesAtMost};

use crate::run::Run;
use crate::source::{ReadFailed, read_all};
use crate::status::Status;
use apex_base::{Gate, Listed, Sink, Source};
use apex_world::{Fate, Turns};
use device_script::{LineFault, ScriptWhy, read_script};
use play_text::PutFailed;
use std::alloc::Global;

/// How a run ended, and its turns.
#[derive(Drop)]
pub struct Played {
    pub status: Status,
    pub turns: Turns,
}

fn is_play(words: &[String]) -> bool
    ensures { IsTrue result ↔ Plays words.now }
{
    match words {
        [word] => word.as_bytes() == b"play".as_slice(),
        _ => false,
    }
}

fn too_long() -> Status
    ensures { result ≡ Status.Script 0 LineFault.TooLong }
{
    Status::Script {
        line: 0,
        why: LineFault::TooLong,
    }
}

fn refused(alloc: Global, status: Status) -> Played
    ensures { result ≡ record { status = status; turns = [] } }
{
    Played {
        status,
        turns: Listed::new(alloc),
    }
}

/// Plays the script that the source has, and puts its text: the words are `play`, the script is that of
/// `docs/formats/script.md`, the text that of `docs/formats/text.md`. The gate isn't called yet.
pub fn apex_play<S: Source, K: Sink, G: Gate>(
    alloc: Global,
    words: &[String],
    source: &mut S,
    sink: &mut K,
    _gate: &G,
) -> Played
    // What was put is a front of the text of the turns, and all of it at status Done.
    ensures text { (script : Script) → HasScript (S.left source.old) script →
        PutFront (K.held sink.old) (K.held sink.new) (out script result.turns) }
    ensures whole_text { (script : Script) → HasScript (S.left source.old) script → result.status ≡ Status.Done →
        PutAll (K.held sink.old) (K.held sink.new) (out script result.turns) }
    ensures emptied { result.status ≡ Status.Done → Ended (S.left source.old) (S.left source.new) }

    // The turns are the first of the script's, the lanes of a segment one after the other, and all of them at Done.
    ensures turns { (script : Script) → HasScript (S.left source.old) script → IsInOrder script result.turns }
    ensures all_turns { (script : Script) → HasScript (S.left source.old) script → result.status ≡ Status.Done →
        Fits script result.turns }

    // Nothing can cut a run so far, so every turn was answered.
    ensures answered { All (λ row. row.fate ≡ Fate.Answered) result.turns }

    // A run that refuses has put nothing and has no turns; neither has one whose bytes are no script.
    ensures silent { IsSilent result.status → PutAll (K.held sink.old) (K.held sink.new) [] }
    ensures silent_turns { IsSilent result.status → result.turns ≡ [] }
    ensures no_script { (why : ScriptWhy) → HasNoScript (S.left source.old) why → PutAll (K.held sink.old) (K.held sink.new) [] }
    ensures no_turns { (why : ScriptWhy) → HasNoScript (S.left source.old) why → result.turns ≡ [] }

    // Each status has its cause, but for Memory, which may come at any time.
    ensures usage { (result.status ≡ Status.Usage) ↔ (¬ (Plays words.now)) }
    ensures bad_line { HasBadLine (S.left source.old) result.status }
    ensures refused { (why : ScriptWhy) → HasNoScript (S.left source.old) why → IsRefused result.status why }
    ensures read { result.status ≡ Status.SourceFault → Rose (S.faults source.old) (S.faults source.new) }
    ensures put { result.status ≡ Status.SinkFault → Rose (K.faults sink.old) (K.faults sink.new) }

    // However long the source is, at most one byte more is taken of it than a script may have.
    ensures taken { (¬ (result.status ≡ Status.SourceFault)) → TakesAtMost 16777217 (S.left source.old) (S.left source.new) }
{
    if !is_play(words) {
        return refused(alloc, Status::Usage);
    }
    let bytes = match read_all(alloc, source) {
        Err(ReadFailed::Source) => return refused(alloc, Status::SourceFault),
        Err(ReadFailed::TooLong) => return refused(alloc, too_long()),
        Err(ReadFailed::NoMemory) => return refused(alloc, Status::Memory),
        Ok(bytes) => bytes,
    };
    let script = match read_script(alloc, &bytes) {
        Err(ScriptWhy::Bad { line, why }) => return refused(alloc, Status::Script { line, why }),
        Err(ScriptWhy::NoMemory) => return refused(alloc, Status::Memory),
        Ok(script) => script,
    };
    drop(bytes);
    let mut run = Run::start(alloc);
    let status = match run.play_script(alloc, sink, &script) {
        Err(PutFailed::Sink) => Status::SinkFault,
        Err(PutFailed::NoMemory) => Status::Memory,
        Ok(()) => Status::Done,
    };
    Played {
        status,
        turns: run.into_turns(),
    }
}
