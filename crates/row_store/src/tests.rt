//! What no clause says: that calls succeed, which bytes stand on a device, that both outcomes of a cut are met, and
//! that a real file keeps its rows.
ghost use Rattle.std.specs.Prelude.{◌≡◌, ◌<◌, ◌^◌, ℕ, length, IfOk};
ghost use Rattle.row_codec.specs.Batch.{IsBatch, IsRow};

use crate::{CommitWhy, RowStore, Rows, StoreWhy};
use apex_base::{Bytes, Listed, Scale};
use apex_disk::{Device, Disk, FileDisk, MemDisk};
use row_codec::Row;
use std::alloc::{AllocError, Global};
use std::collections::BTreeMap;
use std::fs;
use std::test::Fail;

const LEN: u64 = 1052672;

/// A row of a short key, put or deleted.
fn row(alloc: Global, key: [u8; 2], value: Option<u32>) -> Result<Row, AllocError>
    ensures key { IfOk result (λ row. row.key ≡ key) }
    ensures row { IfOk result IsRow }
{
    let key = Listed::of(key.to_vec(alloc)?);
    let value = match value {
        Some(value) => Some(Bytes::of(value.to_be_bytes().to_vec(alloc)?)),
        None => None,
    };
    Ok(Row { key, value })
}

/// A batch of three rows, whose keys begin with 1, 2 and 3.
fn three(alloc: Global, keys: [u8; 3], values: [Option<u32>; 3]) -> Result<Vec<Row>, AllocError>
    ensures { IfOk result (λ rows. (seq : ℕ) → seq < 2 ^ 64 → IsBatch (record { seq = seq; rows = rows.items })) }
{
    let mut rows = Vec::new(alloc);
    rows.push(row(alloc, [1, keys[0]], values[0])?)?;
    rows.push(row(alloc, [2, keys[1]], values[1])?)?;
    rows.push(row(alloc, [3, keys[2]], values[2])?)?;
    Ok(rows)
}

/// Commits such a batch; None where memory is short or the numbers have ended.
fn commit<D: Disk>(
    alloc: Global,
    store: &mut RowStore<D>,
    keys: [u8; 3],
    values: [Option<u32>; 3],
) -> Option<Result<(), CommitWhy>> {
    if store.seq() == u64::MAX {
        return None;
    }
    let rows = three(alloc, keys, values).ok()?;
    Some(store.commit(rows))
}

/// A batch of one row, at the key 01.
fn one(alloc: Global, value: Vec<u8>) -> Result<Vec<Row>, AllocError>
    requires { length value.items < 2 ^ 32 }
    ensures { IfOk result (λ rows. (seq : ℕ) → seq < 2 ^ 64 → IsBatch (record { seq = seq; rows = rows.items })) }
{
    let key = Listed::of([1].to_vec(alloc)?);
    let value = Some(Bytes::of(value));
    let mut rows = Vec::new(alloc);
    rows.push(Row { key, value })?;
    Ok(rows)
}

fn commit_one(
    alloc: Global,
    store: &mut RowStore<MemDisk>,
    value: &[u8],
) -> Option<Result<(), CommitWhy>> {
    if store.seq() == u64::MAX || value.len() > 1048576 {
        return None;
    }
    let rows = one(alloc, value.to_vec(alloc).ok()?).ok()?;
    Some(store.commit(rows))
}

fn made(alloc: Global) -> Option<RowStore<MemDisk>> {
    let disk = MemDisk::blank(alloc, LEN, Vec::new(alloc)).ok()?;
    RowStore::open(alloc, disk, Scale::Small).ok()
}

fn opened(
    alloc: Global,
    bytes: &[u8],
    fails: &[u64],
) -> Option<Result<RowStore<MemDisk>, StoreWhy>> {
    let bytes = bytes.to_vec(alloc).ok()?;
    let disk = MemDisk::of(alloc, bytes, fails.to_vec(alloc).ok()?).ok()?;
    match RowStore::open(alloc, disk, Scale::Small) {
        Ok(store) => Some(Ok(store)),
        Err((_, why)) => Some(Err(why)),
    }
}

/// The value of a boot that never was.
const VALUE: [u8; 13] = [0, 0, 0, 1, 1, 0, 0, 0, 0, 0, 0, 0, 0];

#[test]
fn a_committed_row_has_the_bytes_of_the_formats(rt: HostRuntime) -> Result<(), Fail> {
    let alloc = rt.alloc();
    let mut store = made(alloc).ok_or("not made")?;
    assert_eq!(rt; store.seq(), 0);
    assert_eq!(rt; commit_one(alloc, &mut store, &VALUE), Some(Ok(())));
    assert_eq!(rt; store.seq(), 1);
    assert_eq!(rt; store.rows().get(&[1]), Some(VALUE.as_slice()));
    let disk = store.into_device();
    let bytes = disk.bytes();
    assert_eq!(rt; bytes.len(), 1052672);
    assert_eq!(rt; &bytes[..12], b"\x01APEXPLAY\x01\x01\0".as_slice());
    let half = [
        1, 0, 0, 0, 32, 0, 0, 0, 0, 0, 0, 0, 1, 0, 0, 0, 1, 1, 1, 1, 0, 0, 0, 13, 0, 0, 0, 1, 1, 0,
        0, 0, 0, 0, 0, 0, 0, 0,
    ];
    assert_eq!(rt; &bytes[4096..4134], half.as_slice());
    Ok(())
}

/// The bytes of a device on which that row was committed.
fn with_a_row(alloc: Global) -> Option<Vec<u8>> {
    let mut store = made(alloc)?;
    commit_one(alloc, &mut store, &VALUE)?.ok()?;
    store.into_device().bytes().to_vec(alloc).ok()
}

fn changed(mut bytes: Vec<u8>, at: usize, change: &[u8]) -> Option<Vec<u8>> {
    let end = at.checked_add(change.len())?;
    if end > bytes.len() {
        return None;
    }
    bytes[at..end].copy_from_slice(change);
    Some(bytes)
}

/// The number that is found, or the refusal, where these bytes follow the first record and one other byte is changed.
fn found(alloc: Global, second: &[u8], at: usize, byte: u8) -> Option<Result<u64, StoreWhy>> {
    let bytes = changed(with_a_row(alloc)?, 4133, second)?;
    let bytes = changed(bytes, at, &[byte])?;
    match opened(alloc, &bytes, &[])? {
        Ok(store) => Some(Ok(store.seq())),
        Err(why) => Some(Err(why)),
    }
}

#[test]
fn what_is_no_store_is_refused_with_its_place(rt: HostRuntime) -> Result<(), Fail> {
    let alloc = rt.alloc();
    let wrong = StoreWhy::NotAStore { offset: 3, byte: 0 };
    assert_eq!(rt; found(alloc, &[], 3, 0), Some(Err(wrong)));
    let differs = StoreWhy::ScaleDiffers {
        found: 2,
        wanted: 1,
    };
    assert_eq!(rt; found(alloc, &[], 10, 2), Some(Err(differs)));
    assert_eq!(rt; found(alloc, &[], 0, 2), Some(Ok(0)));

    // The first batch may have any number: the byte is the last of the number.
    assert_eq!(rt; found(alloc, &[], 4108, 7), Some(Ok(7)));
    let first = StoreWhy::Damaged { offset: 4096 };
    assert_eq!(rt; found(alloc, &[], 4112, 2), Some(Err(first)));

    // A batch without rows under the number 2, and 3 in its place.
    let empty = [1, 0, 0, 0, 12, 0, 0, 0, 0, 0, 0, 0, 2, 0, 0, 0, 0, 0];
    assert_eq!(rt; found(alloc, &empty, 1, 65), Some(Ok(2)));
    let second = StoreWhy::Damaged { offset: 4133 };
    assert_eq!(rt; found(alloc, &empty, 4145, 3), Some(Err(second)));
    assert_eq!(rt; found(alloc, &empty, 4108, 7), Some(Err(second)));

    // A record that runs past the half, after one that is no batch.
    assert_eq!(rt; found(alloc, &[1, 0xff], 4112, 2), Some(Err(second)));

    let small = MemDisk::blank(alloc, LEN - 1, Vec::new(alloc))?;
    let Err((_, why)) = RowStore::open(alloc, small, Scale::Small) else {
        return Err("opened".into());
    };
    let len = LEN - 1;
    assert_eq!(rt; why, StoreWhy::Small { len, need: LEN });
    Ok(())
}

/// The number at these keys, where each row is as long as one.
fn numbers(rows: &Rows, keys: [[u8; 2]; 4]) -> [Option<u32>; 4] {
    let mut found = [None; 4];
    for i in 0..4 {
        found[i] = match rows.get(&keys[i]) {
            Some([a, b, c, d]) => Some(u32::from_be_bytes([*a, *b, *c, *d])),
            _ => None,
        };
    }
    found
}

const KEYS: [[u8; 2]; 4] = [[1, 1], [2, 2], [3, 3], [3, 9]];

const OLD: [Option<u32>; 4] = [Some(10), Some(20), Some(30), None];

const NEW: [Option<u32>; 4] = [Some(11), None, Some(30), Some(90)];

/// The bytes of a device with the old rows.
fn with_old_rows(alloc: Global) -> Option<Vec<u8>> {
    let mut store = made(alloc)?;
    commit(alloc, &mut store, [1, 2, 3], [Some(10), Some(20), Some(30)])?.ok()?;
    store.into_device().bytes().to_vec(alloc).ok()
}

fn cycled(mut disk: MemDisk) -> Result<MemDisk, AllocError> {
    disk.reserve(1, 0)?;
    disk.cycle();
    Ok(disk)
}

/// A commit that makes the new rows of the old ones and that the device fails: the number that is found then, and the
/// rows before and after the device was opened again.
fn after_a_fault(
    alloc: Global,
    mut store: RowStore<MemDisk>,
) -> Option<(u64, [Option<u32>; 4], [Option<u32>; 4])> {
    let values = [Some(11), None, Some(90)];
    if commit(alloc, &mut store, [1, 2, 9], values)? != Err(CommitWhy::DiskFault) {
        return None;
    }
    if commit(alloc, &mut store, [1, 2, 9], values)? != Err(CommitWhy::Closed) {
        return None;
    }
    let before = numbers(store.rows(), KEYS);
    let disk = cycled(store.into_device()).ok()?;
    let store = RowStore::open(alloc, disk, Scale::Small).ok()?;
    Some((store.seq(), before, numbers(store.rows(), KEYS)))
}

fn after_a_cut(
    alloc: Global,
    writes: u32,
    pick: u32,
) -> Option<(u64, [Option<u32>; 4], [Option<u32>; 4])> {
    let mut store = opened(alloc, &with_old_rows(alloc)?, &[])?.ok()?;
    store.arm(writes, pick).ok()?;
    after_a_fault(alloc, store)
}

#[test]
fn a_cut_leaves_the_old_rows_or_the_new_ones(rt: HostRuntime) -> Result<(), Fail> {
    for pick in 0..5 {
        assert_eq!(rt;
            after_a_cut(rt.alloc(), 1, pick),
            Some((1, OLD, OLD)),
            "pick {pick}"
        );
        // The batch's gate stands at 4149, a multiple of 3: picks 1 and 3 keep its byte, and pick 2 makes it 117.
        let left = if pick == 1 || pick == 3 {
            (2, OLD, NEW)
        } else {
            (1, OLD, OLD)
        };
        assert_eq!(rt; after_a_cut(rt.alloc(), 2, pick), Some(left), "pick {pick}");
    }
    Ok(())
}

#[test]
fn a_failing_call_is_a_fault_wherever_it_comes(rt: HostRuntime) -> Result<(), Fail> {
    let alloc = rt.alloc();
    let bytes = with_old_rows(alloc).ok_or("not made")?;

    // Opening makes a sync and two reads, and of a blank device a sync, a read and two writes, each with a sync.
    let blank = vec![in alloc; 0u8; 1052672]?;
    for call in 1..7 {
        assert_eq!(rt;
            why_failing(alloc, &blank, call),
            Some(StoreWhy::DiskFault),
            "call {call}"
        );
        if call < 4 {
            assert_eq!(rt;
                why_failing(alloc, &bytes, call),
                Some(StoreWhy::DiskFault),
                "call {call}"
            );
        }
    }

    // A commit makes two writes, each with a sync. Only where the last fails the gate stays open.
    for call in 4..8 {
        let Some(Ok(store)) = opened(alloc, &bytes, &[call]) else {
            return Err("not opened".into());
        };
        let left = if call == 7 {
            (2, OLD, NEW)
        } else {
            (1, OLD, OLD)
        };
        assert_eq!(rt; after_a_fault(alloc, store), Some(left), "call {call}");
    }
    Ok(())
}

fn why_failing(alloc: Global, bytes: &[u8], call: u64) -> Option<StoreWhy> {
    opened(alloc, bytes, &[call])?.err()
}

#[test]
fn a_full_half_takes_no_batch_more(rt: HostRuntime) -> Result<(), Fail> {
    let alloc = rt.alloc();
    let mut store = made(alloc).ok_or("not made")?;
    let value = vec![in alloc; 5u8; 524264]?;
    let full = CommitWhy::JournalFull {
        used: 1,
        need: 524288,
        size: 524288,
    };
    assert_eq!(rt; commit_one(alloc, &mut store, &value), Some(Err(full)));
    assert_eq!(rt; store.rows().len(), 0);
    assert_eq!(rt; commit_one(alloc, &mut store, &value[1..]), Some(Ok(())));
    let full = CommitWhy::JournalFull {
        used: 524288,
        need: 24,
        size: 524288,
    };
    assert_eq!(rt; commit_one(alloc, &mut store, &[]), Some(Err(full)));
    assert_eq!(rt; store.seq(), 1);
    Ok(())
}

const FOLDER: &str = "row_store_files";

const PATH: &str = "row_store_files/disk";

#[test]
fn a_file_keeps_its_rows(rt: HostRuntime) -> Result<(), Fail> {
    let alloc = rt.alloc();
    let _ = fs::remove_dir_all(&rt, FOLDER);
    fs::create_dir(&rt, FOLDER)?;
    let disk = FileDisk::open(&rt, alloc, PATH, LEN).map_err(|_| "not made")?;
    let Ok(mut store) = RowStore::open(alloc, disk, Scale::Small) else {
        return Err("not formatted".into());
    };
    let values = [Some(10), Some(20), Some(30)];
    assert_eq!(rt; commit(alloc, &mut store, [1, 2, 3], values), Some(Ok(())));
    let values = [Some(11), None, Some(90)];
    assert_eq!(rt; commit(alloc, &mut store, [1, 2, 9], values), Some(Ok(())));
    drop(store);
    let disk = FileDisk::open(&rt, alloc, PATH, LEN).map_err(|_| "not found")?;
    let Ok(store) = RowStore::open(alloc, disk, Scale::Small) else {
        return Err("not opened".into());
    };
    assert_eq!(rt; store.seq(), 2);
    assert_eq!(rt; numbers(store.rows(), KEYS), NEW);
    drop(store);
    fs::remove_dir_all(&rt, FOLDER)?;
    Ok(())
}

/// The next of a row of numbers without a pattern.
fn next(state: &mut u32) -> u32 {
    *state = state.wrapping_mul(1664525).wrapping_add(1013904223);
    *state >> 8
}

fn next_byte(state: &mut u32) -> u8 {
    (next(state) % 256) as u8
}

/// A value, or with one of four numbers none.
fn value_of(number: u32) -> Option<u32> {
    if number % 4 == 0 { None } else { Some(number) }
}

/// The same change of a map of numbers, whose keys are the two bytes.
fn change(
    map: &mut BTreeMap<u16, u32>,
    keys: [u8; 3],
    values: [Option<u32>; 3],
) -> Result<(), AllocError> {
    for i in 0..3 {
        let key = u16::from_be_bytes([i as u8 + 1, keys[i]]);
        match values[i] {
            Some(value) => {
                map.insert(key, value)?;
            }
            None => {
                map.remove(&key);
            }
        }
    }
    Ok(())
}

fn is_same(rows: &Rows, map: &BTreeMap<u16, u32>) -> bool {
    for (key, value) in map {
        if rows.get(&key.to_be_bytes()) != Some(value.to_be_bytes().as_slice()) {
            return false;
        }
    }
    rows.len() == map.len()
}

/// A hundred batches, of a store and of a map.
fn change_both(
    alloc: Global,
    store: &mut RowStore<MemDisk>,
    map: &mut BTreeMap<u16, u32>,
    state: &mut u32,
) -> Option<()> {
    for _ in 0..100 {
        let keys = [next_byte(state), next_byte(state), next_byte(state)];
        let values = [
            value_of(next(state)),
            value_of(next(state)),
            value_of(next(state)),
        ];
        commit(alloc, store, keys, values)?.ok()?;
        change(map, keys, values).ok()?;
    }
    Some(())
}

#[test]
fn many_batches_make_the_rows_of_a_map(rt: HostRuntime) -> Result<(), Fail> {
    let alloc = rt.alloc();
    let mut disk = MemDisk::blank(alloc, 67112960, Vec::new(alloc))?;
    let mut map = BTreeMap::new(alloc);
    let mut state = 1;
    for _ in 0..30 {
        let Ok(mut store) = RowStore::open(alloc, disk, Scale::Standard) else {
            return Err("not opened".into());
        };
        assert!(rt; is_same(store.rows(), &map));
        assert!(rt; change_both(alloc, &mut store, &mut map, &mut state).is_some());
        disk = store.into_device();
    }
    let Ok(store) = RowStore::open(alloc, disk, Scale::Standard) else {
        return Err("not opened".into());
    };
    assert!(rt; is_same(store.rows(), &map));
    assert_eq!(rt; store.seq(), 3000);
    Ok(())
}
