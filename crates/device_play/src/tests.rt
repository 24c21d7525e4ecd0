//! What no clause says of a run: that ample memory is enough, and what a source and a sink that fail leave. Scripts with
//! their texts are worked scripts of the crate `worked_scripts`.
use crate::device::Device;
use crate::run::Run;
use crate::{Fate, Played, Status, TurnRow, apex_play};
use apex_base::{Listed, MemSink, MemSource, Name, OpenGate, SessionId, Version};
use apex_world::{Call, SharedModule};
use call_judge::prepare;
use device_script::{LineFault, read_script};
use std::alloc::Global;
use std::mem;
use std::test::Fail;

fn one(alloc: Global, n: u64) -> Result<Vec<u64>, Fail> {
    let mut numbers = Vec::new(alloc);
    numbers.push(n)?;
    Ok(numbers)
}

/// Plays a script, with a read and a put of these numbers that fail; 0 stands for none.
fn play(
    alloc: Global,
    command: &str,
    script: &str,
    read_fails: u64,
    put_fails: u64,
) -> Result<(Played, MemSink), Fail> {
    let mut words = Vec::new(alloc);
    words.push(String::from_str(alloc, command)?)?;
    let mut source = MemSource::of(script.as_bytes().to_vec(alloc)?, one(alloc, read_fails)?);
    let mut sink = MemSink::with_room(alloc, 4096, one(alloc, put_fails)?)?;
    let played = apex_play(alloc, &words, &mut source, &mut sink, &OpenGate);
    Ok((played, sink))
}

const UPDATE: &str =
    "scale standard\nimage S1B2\npre com.android.adbd@310000000\npre com.android.media@310000000\npre com.android.tzdata@310000000\nboot 1000 4\nsubmit 101 plain com.android.media@310200000\nready 101\nboot 100000 4\nsuccess 160000 101\n";

const UPDATE_TEXT: &str =
    "1.0.0 boot 1\nactive com.android.adbd 310000000 pre\nactive com.android.media 310000000 pre\nactive com.android.tzdata 310000000 pre\n1.0.1 ok\n1.0.2 ok\n2.0.0 boot 2\nsession 101 ACTIVATED\nactive com.android.adbd 310000000 pre\nactive com.android.media 310200000 data\nactive com.android.tzdata 310000000 pre\n2.0.1 ok\nend 5\n";

#[test]
fn a_script_is_played_to_its_end(rt: HostRuntime) -> Result<(), Fail> {
    let (played, sink) = play(rt.alloc(), "play", UPDATE, 0, 0)?;
    assert_eq!(rt; played.status, Status::Done);
    assert_eq!(rt; sink.bytes(), UPDATE_TEXT.as_bytes());
    let turns = [
        answered(1, 0, 0),
        answered(1, 0, 1),
        answered(1, 0, 2),
        answered(2, 0, 0),
        answered(2, 0, 1),
    ];
    assert_eq!(rt; played.turns.as_slice(), turns.as_slice());
    Ok(())
}

#[test]
fn a_run_that_refuses_puts_nothing(rt: HostRuntime) -> Result<(), Fail> {
    let bad_place = Status::Script {
        line: 2,
        why: LineFault::BadPlace,
    };
    let cases = [
        ("walk", UPDATE, 0, Status::Usage),
        ("play", "scale small\nboot 0 1\n", 0, bad_place),
        ("play", UPDATE, 1, Status::SourceFault),
        ("play", UPDATE, 2, Status::SourceFault),
    ];
    for (command, script, read_fails, status) in cases {
        let (played, sink) = play(rt.alloc(), command, script, read_fails, 0)?;
        assert_eq!(rt; played.status, status);
        assert_eq!(rt; sink.bytes().len(), 0);
        assert_eq!(rt; played.turns.as_slice().len(), 0);
    }
    Ok(())
}

fn answered(boot: u32, lane: u32, step: u32) -> TurnRow {
    TurnRow {
        boot,
        lane,
        step,
        fate: Fate::Answered,
    }
}

#[test]
fn a_sink_that_fails_keeps_a_front_of_the_text(rt: HostRuntime) -> Result<(), Fail> {
    let (played, sink) = play(rt.alloc(), "play", UPDATE, 0, 3)?;
    assert_eq!(rt; played.status, Status::SinkFault);
    let front = b"1.0.0 boot 1\nactive com.android.adbd 310000000 pre\n".as_slice();
    assert_eq!(rt; sink.bytes(), front);
    let turns = [answered(1, 0, 0)];
    assert_eq!(rt; played.turns.as_slice(), turns.as_slice());
    // Each of the 13 lines is one put.
    for put in 1..14 {
        let (played, sink) = play(rt.alloc(), "play", UPDATE, 0, put)?;
        assert_eq!(rt; played.status, Status::SinkFault);
        let held = sink.bytes().len();
        assert!(rt; held < UPDATE_TEXT.len());
        assert_eq!(rt; sink.bytes(), &UPDATE_TEXT.as_bytes()[..held]);
    }
    let (played, _) = play(rt.alloc(), "play", UPDATE, 0, 14)?;
    assert_eq!(rt; played.status, Status::Done);
    Ok(())
}

const TIE: &str =
    "scale small\nimage P\npre a@5\nboot 0 1\nsubmit 1 plain a@5\nready 1\nboot 1 1\nsubmit 2 plain a@4\nsuccess 1 1\nsubmit 2 plain a@4\n";

const TIE_TEXT: &str =
    "1.0.0 boot 1\nactive a 5 pre\n1.0.1 ok\n1.0.2 ok\n2.0.0 boot 2\nsession 1 ACTIVATED\nactive a 5 data\n2.0.1 refused overlap a 1\n2.0.2 ok\n2.0.3 refused downgrade a 5 4\nend 7\n";

#[test]
fn a_core_leaves_the_row_of_what_a_name_holds(rt: HostRuntime) -> Result<(), Fail> {
    let script = read_script(rt.alloc(), TIE.as_bytes())?;
    let mut sink = MemSink::with_room(rt.alloc(), 4096, one(rt.alloc(), 0)?)?;
    let mut run = Run::start(rt.alloc());
    run.play_script(rt.alloc(), &mut sink, &script)?;
    assert_eq!(rt; sink.bytes(), TIE_TEXT.as_bytes());
    let rows = mem::replace(&mut run.device, Device::new(rt.alloc())).into_rows();
    // The module that session 1 submitted as part 0, version 5.
    let target = [1, 0, 0, 0, 1, 0, 0, 0, 0, 0, 0, 0, 0, 5].as_slice();
    assert_eq!(rt; rows.get(&[3, b'a']), Some(target));
    Ok(())
}

#[test]
fn calls_are_prepared_where_there_is_memory(rt: HostRuntime) -> Result<(), Fail> {
    let name = Name::read(b"a").ok_or("a name")?;
    let version = Version::new(2).ok_or("a version")?;
    let submit = Call::Submit {
        id: SessionId(1),
        children: Listed::new(rt.alloc()),
        rollback: false,
        parts: Listed::one(rt.alloc(), SharedModule::short(name, version))?,
    };
    assert!(rt; prepare(rt.alloc(), submit).into_call().is_some());
    assert!(rt; prepare(rt.alloc(), Call::Revert).into_call().is_some());
    Ok(())
}
