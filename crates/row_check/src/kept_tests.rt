//! A worked store of what sessions keep: session 5 of `docs/rows.md`, "A record", which boot 2 activated, and one value
//! that `a` had before it.

use super::*;
use apex_base::Bytes;
use row_map::Rows;
use std::alloc::{AllocError, Global};
use std::test::*;

/// Two boots and no moment.
const BOOTS: [u8; 5] = [0, 0, 0, 2, 0];

/// SUCCESS, with rollback, AVAILABLE since 2000, activated by boot 2, of one part `a`.
const SESSION: [u8; 52] = [
    5, 2, 0, 0, 0, 0, 2, 0, 0, 0, 0, 0, 0, 7, 208, 0, 0, 0, 2, 1, 80, 0, 1, 0, 0, 0, 0, 0, 1, 97,
    0, 0, 0, 0, 0, 0, 0, 2, 1, 0, 0, 0, 5, 0, 0, 0, 0, 0, 0, 0, 0, 2,
];

/// The value of `a` under `k`, as session 5 keeps it.
const SNAPSHOT: [u8; 8] = [7, 0, 0, 0, 5, 1, 97, 107];

/// The same among the values before a rollback, which session 5 doesn't keep.
const PRE_RESTORE: [u8; 8] = [8, 0, 0, 0, 5, 1, 97, 107];

/// The same of session 6, which isn't there.
const OF_NO_SESSION: [u8; 8] = [7, 0, 0, 0, 6, 1, 97, 107];

fn put(alloc: Global, rows: &mut Rows, key: &[u8], value: &[u8]) -> Result<(), AllocError> {
    let key = key.to_vec(alloc)?;
    let value = value.to_vec(alloc)?;
    rows.put(key, Bytes::of(value))
}

/// The boots, the session, and a value at this key.
fn store(alloc: Global, key: &[u8]) -> Result<Rows, AllocError> {
    let mut rows = Rows::new(alloc);
    put(alloc, &mut rows, &[1], &BOOTS)?;
    put(alloc, &mut rows, &[2, 0, 0, 0, 5], &SESSION)?;
    put(alloc, &mut rows, key, &[118])?;
    Ok(rows)
}

/// Which rows are right in such a store.
fn are_right(alloc: Global, key: &[u8]) -> Result<KeptTags, AllocError> {
    let rows = store(alloc, key)?;
    let sessions = opened_sessions(alloc, &rows)?;
    let boots = opened_boots(alloc, &rows)?;
    kept_tags(alloc, &rows, sessions.as_slice(), boots.count)
}

#[test]
fn a_snapshot_of_its_session_is_right(rt: HostRuntime) -> Result<(), Fail> {
    let right = are_right(rt.alloc(), &SNAPSHOT)
        .ok()
        .ok_or("there is memory")?;
    assert!(rt; right.snapshots && right.pre_restores);
    Ok(())
}

/// The value counts for what `a` had before boot 2, so that a snapshot is missing too.
#[test]
fn a_value_that_no_session_keeps_is_wrong(rt: HostRuntime) -> Result<(), Fail> {
    let right = are_right(rt.alloc(), &PRE_RESTORE)
        .ok()
        .ok_or("there is memory")?;
    assert!(rt; !right.snapshots && !right.pre_restores);
    Ok(())
}

#[test]
fn a_snapshot_of_no_session_is_wrong(rt: HostRuntime) -> Result<(), Fail> {
    let right = are_right(rt.alloc(), &OF_NO_SESSION)
        .ok()
        .ok_or("there is memory")?;
    assert!(rt; !right.snapshots && right.pre_restores);
    Ok(())
}

/// Whether the rows of tag 7 are right where boot 2 activated session 6 too, and that keeps this value of `a` under `k`.
fn are_right_beside(alloc: Global, value: &[u8]) -> Result<bool, AllocError> {
    let mut rows = store(alloc, &SNAPSHOT)?;
    put(alloc, &mut rows, &[2, 0, 0, 0, 6], &SESSION)?;
    put(alloc, &mut rows, &OF_NO_SESSION, value)?;
    let sessions = opened_sessions(alloc, &rows)?;
    let boots = opened_boots(alloc, &rows)?;
    let right = kept_tags(alloc, &rows, sessions.as_slice(), boots.count)?;
    Ok(right.snapshots)
}

/// The value of the first session counts: 118.
#[test]
fn sessions_of_one_boot_keep_one_value(rt: HostRuntime) -> Result<(), Fail> {
    let same = are_right_beside(rt.alloc(), &[118])
        .ok()
        .ok_or("there is memory")?;
    let other = are_right_beside(rt.alloc(), &[119])
        .ok()
        .ok_or("there is memory")?;
    assert!(rt; same && !other);
    Ok(())
}
