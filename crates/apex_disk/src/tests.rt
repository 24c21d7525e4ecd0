//! What no clause says: that calls succeed, which bytes the table of picks gives, and that a real file keeps its bytes.
use crate::{Arm, Device, Disk, Entry, FileDisk, MemDisk, OpenWhy, Step, write_and_sync};
use std::alloc::{AllocError, Global};
use std::cell::Cell;
use std::fs::{Metadata, OpenFile};
use std::io::ErrorKind;
use std::os::unix::fs::FileExt;
use std::test::Fail;
use std::{fs, io};

/// The bytes of a range, or None where the read fails.
fn bytes_at<D: Disk>(
    alloc: Global,
    disk: &mut D,
    at: u64,
    len: usize,
) -> Result<Option<Vec<u8>>, AllocError> {
    let mut bytes = vec![in alloc; 0u8; len]?;
    if at > disk.len() || disk.len() - at < len as u64 {
        return Ok(None);
    }
    match disk.read(at, &mut bytes) {
        Ok(()) => Ok(Some(bytes)),
        Err(_) => Ok(None),
    }
}

/// Writes with room made for it, and says whether that succeeded.
fn wrote<D: Disk>(disk: &mut D, at: u64, bytes: &[u8]) -> Result<bool, AllocError> {
    disk.reserve(1, bytes.len() as u64)?;
    if at > disk.len() || disk.len() - at < bytes.len() as u64 {
        return Ok(false);
    }
    Ok(disk.write(at, bytes).is_ok())
}

fn synced<D: Disk>(disk: &mut D) -> Result<bool, AllocError> {
    disk.reserve(1, 0)?;
    Ok(disk.sync().is_ok())
}

fn stepped<D: Disk>(disk: &mut D, at: u64, bytes: &[u8]) -> Result<bool, AllocError> {
    disk.reserve(2, bytes.len() as u64)?;
    if at > disk.len() || disk.len() - at < bytes.len() as u64 {
        return Ok(false);
    }
    Ok(write_and_sync(disk, at, bytes).is_ok())
}

fn cycled<D: Device>(disk: &mut D) -> Result<(), AllocError> {
    disk.reserve(1, 0)?;
    disk.cycle();
    Ok(())
}

#[test]
fn a_listed_read_fails_once(rt: HostRuntime) -> Result<(), Fail> {
    let bytes = [1, 2, 3, 4].to_vec(rt.alloc())?;
    let fails = [1].to_vec(rt.alloc())?;
    let mut disk = MemDisk::of(rt.alloc(), bytes, fails)?;
    assert!(rt; bytes_at(rt.alloc(), &mut disk, 0, 4)?.is_none());
    assert_eq!(rt; disk.faults(), 1);
    let given = bytes_at(rt.alloc(), &mut disk, 0, 4)?.ok_or("failed")?;
    assert_eq!(rt; given.as_slice(), [1, 2, 3, 4].as_slice());
    assert_eq!(rt; disk.faults(), 1);
    Ok(())
}

#[test]
fn the_power_comes_back_with_the_bytes_of_the_pick(rt: HostRuntime) -> Result<(), Fail> {
    // The disk held 9 everywhere, and 7 was handed over at the offsets 1 to 6 as the power failed.
    let table = [
        (0, [9, 9, 9, 9, 9, 9, 9, 9]),
        (1, [9, 7, 7, 7, 7, 7, 7, 9]),
        // At the offset o: 7 where (o + 2) mod 3 is 0, 9 where it is 1, else (7 o + 2) mod 256.
        (2, [9, 7, 9, 23, 7, 9, 44, 9]),
        (3, [9, 9, 17, 7, 9, 38, 7, 9]),
        (4, [9, 11, 7, 9, 32, 7, 9, 9]),
    ];
    for (pick, want) in table {
        let mut disk = MemDisk::of(rt.alloc(), [9; 8].to_vec(rt.alloc())?, Vec::new(rt.alloc()))?;
        disk.arm(1, pick)?;
        assert!(rt; !wrote(&mut disk, 1, &[7; 6])?);
        assert!(rt; bytes_at(rt.alloc(), &mut disk, 0, 8)?.is_none());
        cycled(&mut disk)?;
        assert_eq!(rt; disk.bytes(), want.as_slice(), "pick {pick}");
        let given = bytes_at(rt.alloc(), &mut disk, 0, 8)?.ok_or("failed")?;
        assert_eq!(rt; given.as_slice(), want.as_slice());
    }
    Ok(())
}

#[test]
fn a_cut_stops_the_write_of_its_number(rt: HostRuntime) -> Result<(), Fail> {
    let fails = [2].to_vec(rt.alloc())?;
    let mut disk = MemDisk::blank(rt.alloc(), 4, fails)?;
    disk.arm(1, 0)?;
    // The second replaces the first. The write that fails by its number isn't counted by it.
    disk.arm(3, 0)?;
    assert!(rt; stepped(&mut disk, 0, &[1])? == false);
    assert!(rt; stepped(&mut disk, 1, &[2])?);
    assert!(rt; !wrote(&mut disk, 2, &[3])?);
    // The power is off: this one joins the log and does nothing else.
    disk.arm(9, 1)?;
    assert!(rt; !synced(&mut disk)?);
    assert_eq!(rt; disk.faults(), 3);
    let done = [
        Step::Wrote { at: 0, len: 1 },
        Step::Wrote { at: 1, len: 1 },
        Step::Synced,
        Step::Wrote { at: 2, len: 1 },
    ];
    assert_eq!(rt; disk.steps(), done.as_slice());
    cycled(&mut disk)?;
    assert_eq!(rt; disk.bytes(), [1, 2, 0, 0].as_slice());
    assert_eq!(rt; disk.steps().len(), 0);
    let log = [
        Entry::Armed { writes: 1, pick: 0 },
        Entry::Armed { writes: 3, pick: 0 },
        Entry::Armed { writes: 9, pick: 1 },
        Entry::Cycled { count: 3 },
    ];
    assert_eq!(rt; disk.log(), log.as_slice());
    assert!(rt; stepped(&mut disk, 2, &[3])?);
    Ok(())
}

#[test]
fn a_cut_that_stopped_nothing_keeps_every_byte(rt: HostRuntime) -> Result<(), Fail> {
    let mut disk = MemDisk::blank(rt.alloc(), 2, Vec::new(rt.alloc()))?;
    disk.arm(5, 0)?;
    assert!(rt; wrote(&mut disk, 0, &[1])?);
    cycled(&mut disk)?;
    assert_eq!(rt; disk.bytes(), [1, 0].as_slice());
    // And it isn't active any more.
    for _ in 0..6 {
        assert!(rt; wrote(&mut disk, 1, &[2])?);
    }
    Ok(())
}

const FOLDER: &str = "apex_disk_files";

const PATH: &str = "apex_disk_files/disk";

#[test]
fn a_file_keeps_its_bytes_for_the_next_disk(rt: HostRuntime) -> Result<(), Fail> {
    let _ = fs::remove_dir_all(&rt, FOLDER);
    assert!(rt;
        matches!(
            FileDisk::open(&rt, rt.alloc(), PATH, 64),
            Err(OpenWhy::Failed)
        )
    );
    fs::create_dir(&rt, FOLDER)?;
    {
        let mut disk = FileDisk::open(&rt, rt.alloc(), PATH, 64).map_err(|_| "not made")?;
        assert_eq!(rt; disk.len(), 64);
        assert_eq!(rt;
            bytes_at(rt.alloc(), &mut disk, 0, 64)?
                .ok_or("failed")?
                .as_slice(),
            [0; 64].as_slice()
        );
        assert!(rt; stepped(&mut disk, 60, b"abcd")?);
        disk.arm(2, 0)?;
        assert!(rt; stepped(&mut disk, 0, b"x")?);
        assert!(rt; !wrote(&mut disk, 0, b"y")?);
        assert!(rt; bytes_at(rt.alloc(), &mut disk, 0, 1)?.is_none());
        assert!(rt; !synced(&mut disk)?);
        assert_eq!(rt; disk.faults(), 3);
        cycled(&mut disk)?;
        let log = [
            Entry::Armed { writes: 2, pick: 0 },
            Entry::Cycled { count: 3 },
        ];
        assert_eq!(rt; disk.log(), log.as_slice());
    }
    // A file that is there keeps its length.
    let mut disk = FileDisk::open(&rt, rt.alloc(), PATH, 4).map_err(|_| "not opened")?;
    assert_eq!(rt; disk.len(), 64);
    assert_eq!(rt;
        bytes_at(rt.alloc(), &mut disk, 60, 4)?
            .ok_or("failed")?
            .as_slice(),
        b"abcd".as_slice()
    );
    assert_eq!(rt;
        bytes_at(rt.alloc(), &mut disk, 0, 2)?
            .ok_or("failed")?
            .as_slice(),
        b"x\0".as_slice()
    );
    assert_eq!(rt; disk.faults(), 0);
    fs::remove_dir_all(&rt, FOLDER)?;
    Ok(())
}

/// A file whose byte at each offset is that offset, and whose calls move one byte. It fails from 100 on, and at each sync.
#[derive(Drop)]
struct Slow<'a> {
    calls: &'a Cell<u64>,
}

fn moved(calls: &Cell<u64>, offset: u64) -> io::Result<()> {
    calls.set(calls.get().wrapping_add(1));
    if offset < 100 {
        return Ok(());
    }
    Err(io::Error::from(ErrorKind::Other))
}

impl FileExt for Slow<'_> {
    fn read_at(&self, buf: &mut [u8], offset: u64) -> io::Result<usize> {
        moved(self.calls, offset)?;
        if buf.is_empty() {
            return Ok(0);
        }
        buf[0] = (offset % 256) as u8;
        Ok(1)
    }

    fn write_at(&self, buf: &[u8], offset: u64) -> io::Result<usize> {
        moved(self.calls, offset)?;
        if buf.is_empty() {
            return Ok(0);
        }
        Ok(1)
    }
}

impl OpenFile for Slow<'_> {
    fn metadata(&self) -> io::Result<Metadata> {
        Err(io::Error::from(ErrorKind::Other))
    }

    fn set_len(&self, _size: u64) -> io::Result<()> {
        Ok(())
    }

    fn sync_all(&self) -> io::Result<()> {
        Err(io::Error::from(ErrorKind::Other))
    }

    fn sync_data(&self) -> io::Result<()> {
        Err(io::Error::from(ErrorKind::Other))
    }
}

#[test]
fn a_slow_file_is_read_and_written_whole(rt: HostRuntime) -> Result<(), Fail> {
    let calls = Cell::new(0);
    let mut disk = FileDisk::over(rt.alloc(), Slow { calls: &calls }, 200);
    let given = bytes_at(rt.alloc(), &mut disk, 5, 4)?.ok_or("failed")?;
    assert_eq!(rt; given.as_slice(), [5, 6, 7, 8].as_slice());
    assert!(rt; wrote(&mut disk, 5, &[0; 3])?);
    assert_eq!(rt; calls.get(), 7);
    // The third byte can't be moved, and the error is counted and not answered as an end.
    assert!(rt; bytes_at(rt.alloc(), &mut disk, 98, 4)?.is_none());
    assert!(rt; !wrote(&mut disk, 98, &[0; 4])?);
    assert_eq!(rt; disk.faults(), 2);
    assert!(rt; wrote(&mut disk, 98, &[0; 2])?);
    // After a failed sync nothing is known of the file.
    assert!(rt; !synced(&mut disk)?);
    cycled(&mut disk)?;
    assert!(rt; !wrote(&mut disk, 0, &[0])?);
    assert!(rt; bytes_at(rt.alloc(), &mut disk, 0, 1)?.is_none());
    assert_eq!(rt; disk.faults(), 5);
    Ok(())
}
