//! The measures: each prints the rows and the last number to standard output, and its time to standard error.
use crate::fill::fill;
use crate::watch::Watch;
use crate::why::Why;
use apex_base::Scale;
use apex_disk::{Disk, FileDisk, MemDisk};
use row_store::RowStore;
use std::alloc::Global;
use std::fs;
use std::fs::OpenOptions;
use std::os::unix::fs::FileExt;

/// The bytes of a value, but for those that fill a half.
const VALUE: u32 = 100;

/// The bytes of a value of which 20,000 fill a standard half.
const LONG: u32 = 1650;

/// What the journal writes after the gate for a row of such a value: the length of the record, the batch's number and
/// count of rows, the row's tag, its key of four bytes after its length, its value after its length, and a gate.
const PIECE: usize = 4 + 12 + 1 + 5 + 104 + 1;

/// Where the first gate stands.
const START: u64 = 4096;

/// Commits on a new file.
pub fn commits_file(rt: &HostRuntime, count: u32, path: &str) -> Result<(), Why> {
    let mut store = open_store(rt.alloc(), file_disk(rt, path)?, Scale::Standard)?;
    let watch = Watch::start(rt)?;
    fill(rt.alloc(), &mut store, count, VALUE)?;
    watch.report(rt)?;
    print(rt, &store)
}

/// The writes and syncs of as many commits on a new file, with no store.
pub fn bare_file(rt: &HostRuntime, count: u32, path: &str) -> Result<(), Why> {
    let mut how = OpenOptions::new();
    let file = how.read(true).write(true).create(true).open(rt, path)?;
    file.set_len(Scale::Standard.device_len())?;
    file.sync_all()?;
    let piece = [7u8; PIECE];
    let watch = Watch::start(rt)?;
    for k in 0..count {
        let gate = START + u64::from(k) * PIECE as u64;
        file.write_all_at(&piece, gate + 1)?;
        file.sync_data()?;
        file.write_all_at(&[1], gate)?;
        file.sync_data()?;
    }
    watch.report(rt)?;
    Ok(())
}

/// Commits on a new device in memory.
pub fn commits_memory(rt: &HostRuntime, count: u32, scale: Scale) -> Result<(), Why> {
    let mut store = open_store(rt.alloc(), memory(rt.alloc(), scale)?, scale)?;
    let watch = Watch::start(rt)?;
    fill(rt.alloc(), &mut store, count, VALUE)?;
    watch.report(rt)?;
    print(rt, &store)
}

/// Makes a file that is a store of long rows.
pub fn make_half(rt: &HostRuntime, count: u32, path: &str) -> Result<(), Why> {
    let scale = Scale::Standard;
    let mut store = open_store(rt.alloc(), memory(rt.alloc(), scale)?, scale)?;
    fill(rt.alloc(), &mut store, count, LONG)?;
    print(rt, &store)?;
    fs::write(rt, path, store.into_device().bytes())?;
    Ok(())
}

/// Opens a file that is a store.
pub fn open(rt: &HostRuntime, path: &str) -> Result<(), Why> {
    let watch = Watch::start(rt)?;
    let store = open_store(rt.alloc(), file_disk(rt, path)?, Scale::Standard)?;
    watch.report(rt)?;
    print(rt, &store)
}

fn memory(alloc: Global, scale: Scale) -> Result<MemDisk, Why> {
    Ok(MemDisk::blank(alloc, scale.device_len(), Vec::new(alloc))?)
}

fn file_disk(rt: &HostRuntime, path: &str) -> Result<FileDisk, Why> {
    FileDisk::open(rt, rt.alloc(), path, Scale::Standard.device_len()).map_err(Why::NoDisk)
}

fn open_store<D: Disk + Drop>(alloc: Global, disk: D, scale: Scale) -> Result<RowStore<D>, Why> {
    match RowStore::open(alloc, disk, scale) {
        Ok(store) => Ok(store),
        Err((_, why)) => Err(Why::NoStore(why)),
    }
}

fn print<D: Disk>(rt: &HostRuntime, store: &RowStore<D>) -> Result<(), Why> {
    println!(rt; "rows {}, last batch {}", store.rows().len(), store.seq())?;
    Ok(())
}
