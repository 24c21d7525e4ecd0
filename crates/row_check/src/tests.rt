//! What no clause says: that the calls succeed.
use super::*;
use apex_base::{Bytes, Why};
use row_map::Rows;
use std::test::*;

/// One boot, at moment 0.
const ONE_BOOT: [u8; 13] = [0, 0, 0, 1, 1, 0, 0, 0, 0, 0, 0, 0, 0];

/// Two boots and no moment.
const TWO_BOOTS: [u8; 5] = [0, 0, 0, 2, 0];

/// The same, after which a byte follows.
const ONE_BYTE_MORE: [u8; 6] = [0, 0, 0, 2, 0, 7];

fn rows_of(rt: &HostRuntime, value: &[u8]) -> Result<Rows, Fail> {
    let mut rows = Rows::new(rt.alloc());
    let key = Vec::from_slice(rt.alloc(), &[1])
        .ok()
        .ok_or("there is memory")?;
    let value = Vec::from_slice(rt.alloc(), value)
        .ok()
        .ok_or("there is memory")?;
    rows.put(key, Bytes::of(value))
        .ok()
        .ok_or("there is memory")?;
    Ok(rows)
}

#[test]
fn one_boot_is_right(rt: HostRuntime) -> Result<(), Fail> {
    let rows = rows_of(&rt, &ONE_BOOT)?;
    let right = is_right_alone(rt.alloc(), 1, &rows)
        .ok()
        .ok_or("there is memory")?;
    assert!(rt; right);
    let boots = opened_boots(rt.alloc(), &rows)
        .ok()
        .ok_or("there is memory")?;
    assert_eq!(rt; boots.count, 1);
    assert_eq!(rt; boots.moments.len(), 1);
    let sessions = opened_sessions(rt.alloc(), &rows)
        .ok()
        .ok_or("there is memory")?;
    assert_eq!(rt; sessions.len(), 0);
    Ok(())
}

#[test]
fn boots_with_a_byte_more_are_wrong(rt: HostRuntime) -> Result<(), Fail> {
    let rows = rows_of(&rt, &ONE_BYTE_MORE)?;
    let right = is_right_alone(rt.alloc(), 1, &rows)
        .ok()
        .ok_or("there is memory")?;
    assert!(rt; !right);
    Ok(())
}

/// Session 5 of `docs/rows.md`, "A record", while it is ACTIVATED and its rollback ENABLING.
const ACTIVATED: [u8; 52] = [
    3, 2, 0, 0, 0, 0, 1, 0, 0, 0, 0, 0, 0, 0, 0, 0, 0, 0, 2, 1, 80, 0, 1, 0, 0, 0, 0, 0, 1, 97, 0,
    0, 0, 0, 0, 0, 0, 2, 1, 0, 0, 0, 5, 0, 0, 0, 0, 0, 0, 0, 0, 2,
];

/// The same session as it stands there: SUCCESS, with a rollback that is AVAILABLE.
const SUCCESS: [u8; 52] = [
    5, 2, 0, 0, 0, 0, 2, 0, 0, 0, 0, 0, 0, 7, 208, 0, 0, 0, 2, 1, 80, 0, 1, 0, 0, 0, 0, 0, 1, 97,
    0, 0, 0, 0, 0, 0, 0, 2, 1, 0, 0, 0, 5, 0, 0, 0, 0, 0, 0, 0, 0, 2,
];

/// Its module: session 5, part 0, version 2.
const TARGET: [u8; 14] = [1, 0, 0, 0, 5, 0, 0, 0, 0, 0, 0, 0, 0, 2];

const PREINSTALLED: [u8; 1] = [2];

fn rows_with(rt: &HostRuntime, entries: &[(&[u8], &[u8])]) -> Result<Rows, Fail> {
    let mut rows = Rows::new(rt.alloc());
    for (key, value) in entries {
        let key = Vec::from_slice(rt.alloc(), *key)
            .ok()
            .ok_or("there is memory")?;
        let value = Vec::from_slice(rt.alloc(), *value)
            .ok()
            .ok_or("there is memory")?;
        rows.put(key, Bytes::of(value))
            .ok()
            .ok_or("there is memory")?;
    }
    Ok(rows)
}

fn judged(rt: &HostRuntime, entries: &[(&[u8], &[u8])]) -> Result<SettledTags, Fail> {
    let rows = rows_with(rt, entries)?;
    let sessions = opened_sessions(rt.alloc(), &rows)
        .ok()
        .ok_or("there is memory")?;
    let tags = settled_tags(rt.alloc(), &rows, &sessions)
        .ok()
        .ok_or("there is memory")?;
    Ok(tags)
}

/// The name `a` holds the module of session 5, and held the preinstalled one; the module has the file `x`.
#[test]
fn rows_that_a_session_calls_for_are_right(rt: HostRuntime) -> Result<(), Fail> {
    let entries: [(&[u8], &[u8]); 4] = [
        (&[2, 0, 0, 0, 5], &ACTIVATED),
        (&[3, 97], &TARGET),
        (&[4, 97], &PREINSTALLED),
        (&[5, 0, 0, 0, 5, 0, 120], b"content"),
    ];
    let tags = judged(&rt, &entries)?;
    assert!(rt; tags.active);
    assert!(rt; tags.backup);
    assert!(rt; tags.files);
    Ok(())
}

/// A SUCCESS session can't be undone, so that there is no row of tag 4; and there is no session 4.
#[test]
fn rows_that_no_session_calls_for_are_wrong(rt: HostRuntime) -> Result<(), Fail> {
    let entries: [(&[u8], &[u8]); 4] = [
        (&[2, 0, 0, 0, 5], &SUCCESS),
        (&[3, 97], &PREINSTALLED),
        (&[4, 97], &PREINSTALLED),
        (&[5, 0, 0, 0, 4, 0, 120], b"content"),
    ];
    let tags = judged(&rt, &entries)?;
    assert!(rt; !tags.active);
    assert!(rt; !tags.backup);
    assert!(rt; !tags.files);
    Ok(())
}

/// What rows open to, or the tag at which they are bad.
fn opened(rt: &HostRuntime, entries: &[(&[u8], &[u8])]) -> Result<Result<OpenedRows, u8>, Fail> {
    let rows = rows_with(rt, entries)?;
    if rows.has(&[]) {
        return Err(Fail::new("a row has the empty key"));
    }
    match open_rows(rt.alloc(), &rows) {
        Ok(opened) => Ok(Ok(opened)),
        Err(Why::Fault(bad)) => Ok(Err(bad.tag)),
        Err(Why::NoMemory) => Err(Fail::new("there is memory")),
    }
}

/// One row of each tag but 8. Observer `b` watches `a`, which has a value that session 5 keeps as well.
#[test]
fn rows_of_a_world_open(rt: HostRuntime) -> Result<(), Fail> {
    let entries: [(&[u8], &[u8]); 8] = [
        (&[1], &TWO_BOOTS),
        (&[2, 0, 0, 0, 5], &ACTIVATED),
        (&[3, 97], &TARGET),
        (&[4, 97], &PREINSTALLED),
        (&[5, 0, 0, 0, 5, 0, 120], b"content"),
        (&[6, 1, 97, 107], b"value"),
        (&[7, 0, 0, 0, 5, 1, 97, 107], b"value"),
        (&[9, 1, 98, 97], &[0, 0, 0, 0, 0, 0, 7, 208]),
    ];
    let opened = opened(&rt, &entries)?
        .ok()
        .ok_or("they are those of their world")?;
    assert_eq!(rt; opened.sessions.len(), 1);
    assert_eq!(rt; opened.boots.count, 2);
    Ok(())
}

/// No record has the state 9, there is no session 4, and no key has the tag 200.
#[test]
fn the_least_wrong_tag_is_told(rt: HostRuntime) -> Result<(), Fail> {
    let entries: [(&[u8], &[u8]); 3] = [
        (&[2, 0, 0, 0, 5], &[9]),
        (&[5, 0, 0, 0, 4, 0, 120], b"content"),
        (&[200], b"value"),
    ];
    assert_eq!(rt; opened(&rt, &entries)?.err(), Some(2));
    assert_eq!(rt; opened(&rt, &entries[1..])?.err(), Some(5));
    assert_eq!(rt; opened(&rt, &entries[2..])?.err(), Some(200));
    Ok(())
}

#[test]
fn a_row_of_tag_0_is_told_before_all(rt: HostRuntime) -> Result<(), Fail> {
    let entries: [(&[u8], &[u8]); 3] = [
        (&[0], b"value"),
        (&[2, 0, 0, 0, 5], &[9]),
        (&[200], b"value"),
    ];
    assert_eq!(rt; opened(&rt, &entries)?.err(), Some(0));
    Ok(())
}
