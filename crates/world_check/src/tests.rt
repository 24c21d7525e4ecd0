//! What no clause says: with ample memory there is an answer.
use crate::is_lawful;
use apex_base::{Bytes, Scale};
use row_check::open_rows;
use row_map::Rows;
use std::test::*;

/// One boot, at moment 0.
const ONE_BOOT: [u8; 13] = [0, 0, 0, 1, 1, 0, 0, 0, 0, 0, 0, 0, 0];

/// Whether the world that the rows open to is lawful at this scale.
fn opens_lawful(rt: &HostRuntime, rows: &Rows, scale: Scale) -> Result<bool, Fail> {
    if rows.has(&[]) {
        return Err(Fail::new("a row has the empty key"));
    }
    let Ok(opened) = open_rows(rt.alloc(), rows) else {
        return Err(Fail::new("they are the rows of their world"));
    };
    match is_lawful(rt.alloc(), rows, &opened, scale) {
        Ok(lawful) => Ok(lawful),
        Err(_) => Err(Fail::new("there is memory")),
    }
}

#[test]
fn the_world_before_the_first_boot_is_lawful(rt: HostRuntime) -> Result<(), Fail> {
    let rows = Rows::new(rt.alloc());
    assert!(rt; opens_lawful(&rt, &rows, Scale::Small)?);
    assert!(rt; opens_lawful(&rt, &rows, Scale::Standard)?);
    Ok(())
}

#[test]
fn the_world_after_one_boot_is_lawful(rt: HostRuntime) -> Result<(), Fail> {
    let mut rows = Rows::new(rt.alloc());
    let key = Vec::from_slice(rt.alloc(), &[1])?;
    let value = Vec::from_slice(rt.alloc(), &ONE_BOOT)?;
    rows.put(key, Bytes::of(value))?;
    assert!(rt; opens_lawful(&rt, &rows, Scale::Small)?);
    Ok(())
}
