//! What no clause says: that keys are made where there is memory, and their bytes as `docs/rows.md` has them.
use super::*;
use apex_base::{Name, SessionId};
use std::test::*;

/// Keys of boots, of session 5, of the name `a`, of the file `f` of part 3 of session 5, and the front of what session
/// 258 keeps of `a`.
const KEYS: [&[u8]; 6] = [
    &[1],
    &[2, 0, 0, 0, 5],
    &[3, 97],
    &[4, 97],
    &[5, 0, 0, 0, 5, 3, 102],
    &[7, 0, 0, 1, 2, 1, 97],
];

#[test]
fn keys_have_the_bytes_of_the_table(rt: HostRuntime) -> Result<(), Fail> {
    let alloc = rt.alloc();
    let name = Name::read(b"a").ok_or("it is a name")?;
    let id = SessionId(5);
    let record = record_key(alloc, id).ok().ok_or("there is memory")?;
    let active = name_key(alloc, ACTIVE, &name)
        .ok()
        .ok_or("there is memory")?;
    let backup = backup_key(alloc, &name).ok().ok_or("there is memory")?;
    let file = file_key(alloc, id, 3, b"f").ok().ok_or("there is memory")?;
    let kept = kept_front(alloc, SNAPSHOT, SessionId(258), &name)
        .ok()
        .ok_or("there is memory")?;
    let made: [&[u8]; 6] = [
        &boots_key(),
        record.as_slice(),
        &active,
        backup.as_slice(),
        &file,
        &kept,
    ];
    assert!(rt; made == KEYS);
    Ok(())
}
