//! What no clause says: that the calls succeed, and the bytes of `docs/rows.md`.
ghost use Rattle.std.specs.Prelude.{IfOk};
ghost use Rattle.std.specs.List.{AllByRecursion};
ghost use Rattle.session_record.specs.Room.{HasPartNumber};

use super::*;
use apex_base::{
    Bytes, FilePath, Kind, Listed, Millis, Module, Name, Part, Print, Record, SessionId, State,
    Target, Version,
};
use std::alloc::Global;
use std::collections::BTreeMap;
use std::test::*;

/// The key of the file `a` of part 0 of session 5.
const FILE_KEY: [u8; 7] = [5, 0, 0, 0, 5, 0, 97];

/// The module that session 5 submitted as part 0, version 2.
const TARGET: [u8; 14] = [1, 0, 0, 0, 5, 0, 0, 0, 0, 0, 0, 0, 0, 2];

#[test]
fn a_module_of_one_file_is_one_row(rt: HostRuntime) -> Result<(), Fail> {
    let alloc = rt.alloc();
    let path = FilePath::read(b"a").ok_or("it is a path")?;
    let content = Vec::from_slice(alloc, b"xyz")
        .ok()
        .ok_or("there is memory")?;
    let mut files = Module::new(alloc);
    files
        .put(path, Bytes::of(content))
        .ok()
        .ok_or("there is room")?;
    let changes = put(alloc, SessionId(5), 0, &files)
        .ok()
        .ok_or("there is memory")?;
    assert_eq!(rt; changes.len(), 1);
    let change = changes.first().ok_or("there is a row")?;
    assert_eq!(rt; change.key.as_slice(), FILE_KEY.as_slice());
    let value = change.value.as_ref().ok_or("the row has a value")?;
    assert_eq!(rt; value.as_slice(), b"xyz".as_slice());
    Ok(())
}

#[test]
fn no_rows_are_a_module_without_files(rt: HostRuntime) -> Result<(), Fail> {
    let rows: BTreeMap<Vec<u8>, Bytes> = BTreeMap::new(rt.alloc());
    let files = module_of(rt.alloc(), &rows, SessionId(5), 0)
        .ok()
        .ok_or("there is memory")?;
    let path = FilePath::read(b"a").ok_or("it is a path")?;
    assert!(rt; files.get(&path).is_none());
    Ok(())
}

/// A session that submitted version 2 of `a`.
fn session_of_a(alloc: Global, id: u32, state: State, activation: u32) -> Result<Record, Fail>
    ensures { IfOk result (λ r. AllByRecursion (λ p. HasPartNumber p.target) r.parts) }
{
    let name = Name::read(b"a").ok_or("it is a name")?;
    let print = Print::read(b"P").ok_or("it is a fingerprint")?;
    let version = Version::new(2).ok_or("it is a version")?;
    let target = Target::Module {
        session: SessionId(id),
        part: 0,
        version,
    };
    let part = Part {
        name,
        version: Some(version),
        target,
    };
    Ok(Record {
        id: SessionId(id),
        children: Listed::new(alloc),
        kind: Kind::Plain,
        parts: Listed::one(alloc, part).ok().ok_or("there is memory")?,
        print,
        state,
        cause: None,
        activation,
        rollback: None,
        moment: Millis::zero(),
    })
}

/// Session 5 is ACTIVATED and names `a`; nothing is kept of session 4.
#[test]
fn rows_of_one_session_are_settled(rt: HostRuntime) -> Result<(), Fail> {
    let alloc = rt.alloc();
    let record = session_of_a(alloc, 5, State::Activated, 2)?;
    let mut rows = BTreeMap::new(alloc);
    for session in [4, 5] {
        let key = Vec::from_slice(alloc, &[5, 0, 0, 0, session, 0, 97])
            .ok()
            .ok_or("there is memory")?;
        let _ = rows
            .insert(key, Bytes::new(alloc))
            .ok()
            .ok_or("there is memory")?;
    }
    let changes = settle(alloc, &rows, &[record])
        .ok()
        .ok_or("there is memory")?;
    let wanted: [(&[u8], Option<&[u8]>); 3] = [
        (&[3, 97], Some(&TARGET)),
        (&[4, 97], Some(&[2])),
        (&[5, 0, 0, 0, 4, 0, 97], None),
    ];
    assert_eq!(rt; changes.len(), 3);
    for (change, (key, value)) in changes.iter().zip(wanted.iter()) {
        assert_eq!(rt; change.key.as_slice(), *key);
        let found = change.value.as_ref().map(|bytes| bytes.as_slice());
        assert!(rt; found == *value);
    }
    Ok(())
}

/// Sessions 2 and 3 succeeded. Boot 3 activated session 2, and boot 2 session 3.
#[test]
fn backup_is_of_the_last_boot_before(rt: HostRuntime) -> Result<(), Fail> {
    let alloc = rt.alloc();
    let later = session_of_a(alloc, 2, State::Success, 3)?;
    let sooner = session_of_a(alloc, 3, State::Success, 2)?;
    let last = session_of_a(alloc, 5, State::Activated, 5)?;
    let rows = BTreeMap::new(alloc);
    let changes = settle(alloc, &rows, &[later, sooner, last])
        .ok()
        .ok_or("there is memory")?;
    assert_eq!(rt; changes.len(), 2);
    let backup = changes.get(1).ok_or("there are two rows")?;
    assert_eq!(rt; backup.key.as_slice(), [4, 97].as_slice());
    let value = backup.value.as_ref().ok_or("the row has a value")?;
    assert_eq!(rt;
        value.as_slice(),
        [1, 0, 0, 0, 2, 0, 0, 0, 0, 0, 0, 0, 0, 2].as_slice()
    );
    Ok(())
}
