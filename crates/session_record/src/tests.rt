//! What no clause says: that the calls succeed, and the bytes of `docs/rows.md`.
use super::*;
use apex_base::{Kind, RollbackState, SessionId};
use std::test::*;

/// Session 5, which submitted `a` of version 2 with rollback and was marked successful.
const WORKED: [u8; 52] = [
    5, 2, 0, 0, 0, 0, 2, 0, 0, 0, 0, 0, 0, 7, 208, 0, 0, 0, 2, 1, 80, 0, 1, 0, 0, 0, 0, 0, 1, 97,
    0, 0, 0, 0, 0, 0, 0, 2, 1, 0, 0, 0, 5, 0, 0, 0, 0, 0, 0, 0, 0, 2,
];

/// A session of two children, which failed since the image has no `b`.
const CHILDREN: [u8; 70] = [
    4, 1, 0, 0, 0, 0, 0, 0, 0, 0, 0, 0, 0, 0, 0, 0, 0, 0, 0, 1, 80, 4, 1, 1, 98, 2, 2, 0, 0, 0, 6,
    1, 97, 0, 0, 0, 0, 0, 0, 0, 0, 2, 0, 0, 0, 7, 1, 98, 0, 0, 0, 0, 0, 0, 0, 3, 1, 0, 0, 0, 5, 1,
    0, 0, 0, 0, 0, 0, 0, 3,
];

#[test]
fn the_worked_record_is_read(rt: HostRuntime) -> Result<(), Fail> {
    let found = decode_record(rt.alloc(), SessionId(5), &WORKED)
        .ok()
        .flatten()
        .ok_or("the bytes are a record")?;
    assert!(rt; found.id == SessionId(5));
    assert!(rt; found.state == State::Success);
    assert!(rt; found.kind == Kind::WithRollback);
    assert!(rt; found.rollback == Some(RollbackState::Available));
    assert_eq!(rt; found.moment.number(), 2000);
    assert_eq!(rt; found.activation, 2);
    assert_eq!(rt; found.print.as_bytes(), b"P".as_slice());
    assert!(rt; found.cause.is_none());
    assert!(rt; found.children.as_slice().is_empty());
    assert_eq!(rt; found.parts.as_slice().len(), 1);
    let part = found.parts.as_slice().first().ok_or("there is a part")?;
    assert_eq!(rt; part.name.as_bytes(), b"a".as_slice());
    Ok(())
}

#[test]
fn children_stand_before_their_parts(rt: HostRuntime) -> Result<(), Fail> {
    let found = decode_record(rt.alloc(), SessionId(5), &CHILDREN)
        .ok()
        .flatten()
        .ok_or("the bytes are a record")?;
    assert!(rt; found.children.as_slice() == [SessionId(6), SessionId(7)].as_slice());
    assert_eq!(rt; found.parts.as_slice().len(), 2);
    assert!(rt; found.cause.is_some());
    Ok(())
}

#[test]
fn what_was_read_is_spelled_again(rt: HostRuntime) -> Result<(), Fail> {
    for bytes in [WORKED.as_slice(), CHILDREN.as_slice()] {
        let Ok(Some(found)) = decode_record(rt.alloc(), SessionId(5), bytes) else {
            return Err("the bytes are a record".into());
        };
        let spelled = encode_record(rt.alloc(), &found)
            .ok()
            .ok_or("there is memory")?;
        assert_eq!(rt; spelled.as_slice(), bytes);
    }
    Ok(())
}

#[test]
fn other_bytes_are_no_record(rt: HostRuntime) {
    let others: [&[u8]; 3] = [&[], &WORKED[..51], &WORKED[1..]];
    for bytes in others {
        assert!(rt; matches!(decode_record(rt.alloc(), SessionId(5), bytes), Ok(None)));
    }
}
