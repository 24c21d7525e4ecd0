//! A worked store: session 5 submitted `a` of version 2, and its module is kept.
ghost use Rattle.std.specs.Prelude.{◌≡◌};

use crate::modules::are_lawful_modules;
use apex_base::{Bytes, Scale};
use row_check::{opened_boots, opened_sessions};
use row_map::Rows;
use session_check::are_lawful;
use std::alloc::{AllocError, Global};
use std::test::*;

/// VERIFIED, plain, of one part.
const SESSION: [u8; 52] = [
    1, 1, 0, 0, 0, 0, 0, 0, 0, 0, 0, 0, 0, 0, 0, 0, 0, 0, 0, 1, 80, 0, 1, 0, 0, 0, 0, 0, 1, 97, 0,
    0, 0, 0, 0, 0, 0, 2, 1, 0, 0, 0, 5, 0, 0, 0, 0, 0, 0, 0, 0, 2,
];

const MANIFEST: &[u8] = b"{\"name\":\"a\",\"version\":2}";

/// The digest is that of the manifest, as `sha256sum` prints it.
const LISTING: &[u8] =
    b"b2a03f2fc6841d8315613dabf654f51959ed39a16acaacbeba1de2c757416e95 apex_manifest.json\n";

fn put(alloc: Global, rows: &mut Rows, key: &[u8], value: &[u8]) -> Result<(), AllocError> {
    let key = key.to_vec(alloc)?;
    let value = value.to_vec(alloc)?;
    rows.put(key, Bytes::of(value))
}

/// The session and the two files of its module, with this text as the manifest.
fn store(alloc: Global, manifest: &[u8]) -> Result<Rows, AllocError> {
    let mut rows = Rows::new(alloc);
    put(alloc, &mut rows, &[2, 0, 0, 0, 5], &SESSION)?;
    put(alloc, &mut rows, b"\x05\0\0\0\x05\0apex_digests", LISTING)?;
    put(
        alloc,
        &mut rows,
        b"\x05\0\0\0\x05\0apex_manifest.json",
        manifest,
    )?;
    Ok(rows)
}

/// Whether the modules are lawful, where the sessions are.
fn judged(alloc: Global, manifest: &[u8]) -> Result<Option<bool>, AllocError> {
    let rows = store(alloc, manifest)?;
    let sessions = opened_sessions(alloc, &rows)?;
    let boots = opened_boots(alloc, &rows)?;
    if are_lawful(alloc, sessions.as_slice(), boots.count)? {
        let lawful = are_lawful_modules(alloc, &rows, sessions.as_slice(), Scale::Small)?;
        Ok(Some(lawful))
    } else {
        Ok(None)
    }
}

#[test]
fn a_module_that_is_there_is_lawful(rt: HostRuntime) -> Result<(), Fail> {
    let lawful = judged(rt.alloc(), MANIFEST).ok().ok_or("there is memory")?;
    assert_eq!(rt; lawful, Some(true));
    Ok(())
}

/// A byte of the manifest is another one, so that the listing isn't the right one.
#[test]
fn a_module_that_is_not_sound_is_not_lawful(rt: HostRuntime) -> Result<(), Fail> {
    let lawful = judged(rt.alloc(), b"{\"name\":\"b\",\"version\":2}")
        .ok()
        .ok_or("there is memory")?;
    assert_eq!(rt; lawful, Some(false));
    Ok(())
}
