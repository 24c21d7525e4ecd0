//! The printed words, of which scripts so far show some: refusals, replies, fates, causes and the boot loop, by hand from
//! `docs/formats/text.md`.
use crate::TurnText;
use apex_base::{
    Bytes, Case, Cause, Listed, MemSink, Name, Pick, Place, Refusal, RollbackState, SessionId,
    State, Version,
};
use apex_world::{BootReply, Changed, Fate, Reply, Shown, TurnRow};
use std::alloc::Global;
use std::test::Fail;

/// The lines of turn 2.3.10 with this fate, where it shows this.
fn text_of(alloc: Global, fate: Fate, shown: &Shown) -> Result<Vec<u8>, Fail> {
    let row = TurnRow {
        boot: 2,
        lane: 3,
        step: 10,
        fate,
    };
    let mut sink = MemSink::with_room(alloc, 256, Vec::new(alloc))?;
    if TurnText::new(alloc)
        .turn_lines(alloc, &mut sink, &row, shown)
        .is_err()
    {
        return Err(Fail::new("the lines are not put"));
    }
    Ok(sink.bytes().to_vec(alloc)?)
}

fn name(text: &[u8]) -> Result<Name, Fail> {
    Ok(Name::read(text).ok_or("a name")?)
}

fn version(number: u64) -> Result<Version, Fail> {
    Ok(Version::new(number).ok_or("a version")?)
}

#[test]
fn refusals_are_printed(rt: HostRuntime) -> Result<(), Fail> {
    let id = SessionId(7);
    let a = name(b"a")?;
    let k = name(b"k")?;
    let active = version(5)?;
    let given = version(4)?;
    let downgrade = Refusal::Downgrade {
        name: a,
        active,
        given,
    };
    let state = RollbackState::Deleted;
    let cases = [
        (Refusal::IdRange { id: SessionId(0) }, "id-range 0"),
        (Refusal::IdTaken { id }, "id-taken 7"),
        (Refusal::Parts { count: 0 }, "parts 0"),
        (Refusal::TwiceNamed { name: k }, "twice-named k"),
        (Refusal::KeyDiffers { name: k }, "key-differs k"),
        (Refusal::Overlap { name: a, id }, "overlap a 7"),
        (downgrade, "downgrade a 5 4"),
        (Refusal::SessionsFull { units: 33 }, "sessions-full 33"),
        (Refusal::StoreFull { weight: 65537 }, "store-full 65537"),
        (Refusal::NothingToRevert, "nothing-to-revert"),
        (Refusal::NoRollback { id }, "no-rollback 7"),
        (Refusal::NotAvailable { state }, "rollback-state DELETED"),
        (Refusal::UnknownModule { name: a }, "unknown-module a"),
        (Refusal::DataFull { weight: 1025 }, "data-full 1025"),
        (Refusal::NoKey { key: k }, "no-key k"),
        (Refusal::NoObserver { name: k }, "no-observer k"),
    ];
    for (refusal, words) in cases {
        let line = text_of(
            rt.alloc(),
            Fate::Answered,
            &Shown::Replied(Reply::Refused(refusal)),
        )?;
        let text = format!(in rt.alloc(); "2.3.10 refused {words}\n")?;
        assert_eq!(rt; line.as_slice(), text.as_bytes());
    }
    Ok(())
}

fn replies(alloc: Global) -> Result<Vec<(Reply, &'static str)>, Fail> {
    let mut ids = Listed::new(alloc);
    ids.push(SessionId(1073741825))?;
    let mut bytes = Vec::new(alloc);
    bytes.push(1)?;
    bytes.push(171)?;
    let available = Some(RollbackState::Available);
    let mut cases = Vec::new(alloc);
    cases.push((Reply::Done, "ok"))?;
    cases.push((
        Reply::Committed(SessionId(1073741829)),
        "committed 1073741829",
    ))?;
    cases.push((Reply::Value(Bytes::of(bytes)), "value 01ab"))?;
    cases.push((Reply::Value(Bytes::new(alloc)), "value -"))?;
    cases.push((Reply::State(State::Activated, None), "state ACTIVATED"))?;
    cases.push((
        Reply::State(State::Success, available),
        "state SUCCESS rollback AVAILABLE",
    ))?;
    cases.push((Reply::Noted, "noted"))?;
    cases.push((
        Reply::Triggered(Some(name(b"rb")?), ids),
        "triggered rb 1073741825",
    ))?;
    cases.push((Reply::Triggered(None, Listed::new(alloc)), "triggered -"))?;
    Ok(cases)
}

#[test]
fn replies_are_printed(rt: HostRuntime) -> Result<(), Fail> {
    for (reply, words) in replies(rt.alloc())? {
        let line = text_of(rt.alloc(), Fate::Answered, &Shown::Replied(reply))?;
        let text = format!(in rt.alloc(); "2.3.10 {words}\n")?;
        assert_eq!(rt; line.as_slice(), text.as_bytes());
    }
    Ok(())
}

#[test]
fn fates_are_printed(rt: HostRuntime) -> Result<(), Fail> {
    let cases = [
        (Fate::Kept, "fault kept"),
        (Fate::Lost, "fault lost"),
        (Fate::Open, "fault open"),
        (Fate::Closed, "closed"),
        (Fate::NoMemory, "no memory"),
        (Fate::Full, "full"),
    ];
    for (fate, words) in cases {
        let line = text_of(rt.alloc(), fate, &Shown::Fated)?;
        let text = format!(in rt.alloc(); "2.3.10 {words}\n")?;
        assert_eq!(rt; line.as_slice(), text.as_bytes());
    }
    Ok(())
}

/// The reply of boot 4 that changed this session.
fn changing(alloc: Global, cause: Cause) -> Result<BootReply, Fail> {
    let changed = Changed {
        id: SessionId(1),
        state: State::Reverted,
        cause: Some(cause),
    };
    Ok(BootReply {
        number: 4,
        changes: Listed::one(alloc, changed)?,
        active: Listed::new(alloc),
        boot_loop: None,
    })
}

fn part(case: Case) -> Result<Cause, Fail> {
    Ok(Cause::Part {
        name: name(b"a")?,
        case,
    })
}

#[test]
fn causes_are_printed(rt: HostRuntime) -> Result<(), Fail> {
    let cases = [
        (Cause::Reverted, "reverted"),
        (Cause::OtherBuild, "other-build"),
        (Cause::Superseded(SessionId(9)), "superseded 9"),
        (part(Case::NotInImage)?, "part a not-in-image"),
        (part(Case::BelowPreinstalled)?, "part a below-preinstalled"),
        (part(Case::KeyDiffers)?, "part a key-differs"),
        (part(Case::Unsound)?, "part a unsound"),
        (part(Case::NoMount)?, "part a no-mount"),
    ];
    for (cause, words) in cases {
        let shown = Shown::Booted(changing(rt.alloc(), cause)?);
        let lines = text_of(rt.alloc(), Fate::Answered, &shown)?;
        let text = format!(in rt.alloc(); "2.3.10 boot 4\nsession 1 REVERTED {words}\n")?;
        assert_eq!(rt; lines.as_slice(), text.as_bytes());
    }
    Ok(())
}

#[test]
fn a_boot_with_a_loop_is_printed(rt: HostRuntime) -> Result<(), Fail> {
    let active = Pick {
        name: name(b"b")?,
        chosen: Some((version(7)?, Place::Data)),
    };
    let reply = BootReply {
        number: 4,
        changes: Listed::new(rt.alloc()),
        active: Listed::one(rt.alloc(), active)?,
        boot_loop: Some((
            Some(name(b"rb")?),
            Listed::one(rt.alloc(), SessionId(1073741825))?,
        )),
    };
    let lines = text_of(rt.alloc(), Fate::Answered, &Shown::Booted(reply))?;
    let text = b"2.3.10 boot 4\nactive b 7 data\nloop rb 1073741825\n".as_slice();
    assert_eq!(rt; lines.as_slice(), text);
    Ok(())
}
