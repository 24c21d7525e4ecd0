//! What no clause says: that calls succeed, which bytes stand on a device, and that a real file keeps its records.
use crate::{AppendWhy, Journal, JournalWhy};
use apex_base::{Bytes, Scale};
use apex_disk::{Device, Disk, FileDisk, MemDisk, Step};
use std::alloc::{AllocError, Global};
use std::fs;
use std::test::Fail;

/// A store without records, or nothing where memory is short or the device isn't a blank one.
fn made<D: Disk + Drop>(alloc: Global, disk: D) -> Option<Journal<D>> {
    let Err((disk, JournalWhy::Blank)) = Journal::open(alloc, disk, Scale::Small) else {
        return None;
    };
    Journal::format(alloc, disk, Scale::Small).ok()
}

fn made_in_memory(alloc: Global) -> Option<Journal<MemDisk>> {
    let disk = MemDisk::blank(alloc, 1052672, Vec::new(alloc)).ok()?;
    made(alloc, disk)
}

/// Opens a device that stays of no further use.
fn opened<D: Disk + Drop>(alloc: Global, disk: D, scale: Scale) -> Result<Vec<Bytes>, JournalWhy> {
    match Journal::open(alloc, disk, scale) {
        Ok((_, records)) => Ok(records),
        Err((_, why)) => Err(why),
    }
}

fn cycled(mut disk: MemDisk) -> Result<MemDisk, AllocError> {
    disk.reserve(1, 0)?;
    disk.cycle();
    Ok(disk)
}

/// How many records there are, where they are the first of these.
fn count_of(records: &[Bytes], wanted: [&[u8]; 2]) -> Option<usize> {
    for (record, wanted) in records.iter().zip(wanted) {
        if record.as_slice() != wanted {
            return None;
        }
    }
    Some(records.len())
}

#[test]
fn a_formatted_device_has_the_bytes_of_its_record(rt: HostRuntime) -> Result<(), Fail> {
    let mut journal = made_in_memory(rt.alloc()).ok_or("not made")?;
    assert_eq!(rt; journal.append(&[0xaa]), Ok(()));
    assert_eq!(rt; journal.start(), 4096);
    let disk = journal.into_disk();
    let bytes = disk.bytes();
    assert_eq!(rt; bytes.len(), 1052672);
    assert_eq!(rt; &bytes[..12], b"\x01APEXPLAY\x01\x01\0".as_slice());
    assert_eq!(rt; &bytes[4096..4103], [1, 0, 0, 0, 1, 0xaa, 0].as_slice());
    let steps = [
        Step::Synced,
        Step::Wrote { at: 1, len: 4096 },
        Step::Synced,
        Step::Wrote { at: 0, len: 1 },
        Step::Synced,
        Step::Wrote { at: 4097, len: 6 },
        Step::Synced,
        Step::Wrote { at: 4096, len: 1 },
        Step::Synced,
    ];
    assert_eq!(rt; disk.steps(), steps.as_slice());
    let records = opened(rt.alloc(), disk, Scale::Small).map_err(|_| "not opened")?;
    assert_eq!(rt; count_of(&records, [&[0xaa], &[]]), Some(1));
    Ok(())
}

/// What is found after an append of a second record that the device failed: one record or two.
fn found_after_a_fault(alloc: Global, mut journal: Journal<MemDisk>) -> Option<usize> {
    if journal.append(&[7, 8]) != Err(AppendWhy::DiskFault) {
        return None;
    }
    let disk = cycled(journal.into_disk()).ok()?;
    let records = opened(alloc, disk, Scale::Small).ok()?;
    count_of(&records, [&[1, 2, 3], &[7, 8]])
}

fn one_record(alloc: Global) -> Option<MemDisk> {
    let mut journal = made_in_memory(alloc)?;
    journal.append(&[1, 2, 3]).ok()?;
    Some(journal.into_disk())
}

fn found_after_a_cut(alloc: Global, writes: u32, pick: u32) -> Option<usize> {
    let mut disk = one_record(alloc)?;
    disk.arm(writes, pick).ok()?;
    let (journal, _) = Journal::open(alloc, disk, Scale::Small).ok()?;
    found_after_a_fault(alloc, journal)
}

#[test]
fn a_cut_leaves_the_old_records_or_the_new_one_too(rt: HostRuntime) -> Result<(), Fail> {
    for pick in 0..5 {
        assert_eq!(rt;
            found_after_a_cut(rt.alloc(), 1, pick),
            Some(1),
            "pick {pick}"
        );
        // The gate stands at 4104. Pick 1 keeps its byte, and so does pick 3, since 4107 is a multiple of 3; pick 2
        // makes it 58.
        let found = if pick == 1 || pick == 3 { 2 } else { 1 };
        assert_eq!(rt;
            found_after_a_cut(rt.alloc(), 2, pick),
            Some(found),
            "pick {pick}"
        );
    }
    Ok(())
}

/// The same device, whose call of that number fails.
fn failing(alloc: Global, call: u64) -> Option<MemDisk> {
    let disk = one_record(alloc)?;
    let bytes = disk.bytes().to_vec(alloc).ok()?;
    let fails = [call].to_vec(alloc).ok()?;
    MemDisk::of(alloc, bytes, fails).ok()
}

/// Why a blank device isn't formatted, and how often it has failed.
fn why_unformatted(alloc: Global, disk: MemDisk) -> Option<(JournalWhy, u64)> {
    let Err((disk, JournalWhy::Blank)) = Journal::open(alloc, disk, Scale::Small) else {
        return None;
    };
    let (disk, why) = Journal::format(alloc, disk, Scale::Small).err()?;
    Some((why, disk.faults()))
}

#[test]
fn a_failing_call_is_a_fault_wherever_it_comes(rt: HostRuntime) -> Result<(), Fail> {
    // Opening makes a sync and two reads.
    for call in 1..4 {
        let disk = failing(rt.alloc(), call).ok_or("not made")?;
        let Err((disk, why)) = Journal::open(rt.alloc(), disk, Scale::Small) else {
            return Err("opened".into());
        };
        assert_eq!(rt; why, JournalWhy::DiskFault);
        assert_eq!(rt; disk.faults(), 1);
    }
    // A format makes two writes, each with a sync; the opening before it a sync and a read.
    for call in 3..7 {
        let disk = MemDisk::blank(rt.alloc(), 1052672, [call].to_vec(rt.alloc())?)?;
        assert_eq!(rt;
            why_unformatted(rt.alloc(), disk),
            Some((JournalWhy::DiskFault, 1))
        );
    }
    // An append makes two writes, each with a sync. Only the last failure leaves the gate open.
    for (call, want) in [(4, 1), (5, 1), (6, 1), (7, 2)] {
        let disk = failing(rt.alloc(), call).ok_or("not made")?;
        let (journal, _) = Journal::open(rt.alloc(), disk, Scale::Small)
            .ok()
            .ok_or("not opened")?;
        assert_eq!(rt;
            found_after_a_fault(rt.alloc(), journal),
            Some(want),
            "call {call}"
        );
    }
    Ok(())
}

/// Why a store of no records isn't opened whose bytes were changed from that offset on.
fn why_changed(alloc: Global, at: usize, change: &[u8]) -> Option<JournalWhy> {
    let disk = made_in_memory(alloc)?.into_disk();
    let mut bytes = disk.bytes().to_vec(alloc).ok()?;
    let end = at.checked_add(change.len())?;
    if end > bytes.len() {
        return None;
    }
    bytes[at..end].copy_from_slice(change);
    let disk = MemDisk::of(alloc, bytes, Vec::new(alloc)).ok()?;
    opened(alloc, disk, Scale::Small).err()
}

#[test]
fn what_is_no_store_is_refused_with_its_place(rt: HostRuntime) -> Result<(), Fail> {
    for offset in 1..11 {
        let why = JournalWhy::NotAStore {
            offset: offset as u64,
            byte: 0,
        };
        assert_eq!(rt; why_changed(rt.alloc(), offset, &[0]), Some(why));
    }
    assert_eq!(rt; why_changed(rt.alloc(), 0, &[2]), Some(JournalWhy::Blank));
    let differs = JournalWhy::ScaleDiffers {
        found: 2,
        wanted: 1,
    };
    assert_eq!(rt; why_changed(rt.alloc(), 10, &[2]), Some(differs));
    // The record would end at the half's last byte, where its closed gate has to be.
    let damaged = JournalWhy::Damaged { offset: 4096 };
    assert_eq!(rt;
        why_changed(rt.alloc(), 4096, &[1, 0, 7, 0xff, 0xfb]),
        Some(damaged)
    );
    assert_eq!(rt; why_changed(rt.alloc(), 4096, &[1, 0, 7, 0xff, 0xfa]), None);
    let damaged = JournalWhy::Damaged { offset: 4102 };
    assert_eq!(rt;
        why_changed(rt.alloc(), 4096, &[1, 0, 0, 0, 1, 9, 1, 0xff]),
        Some(damaged)
    );
    let disk = MemDisk::blank(rt.alloc(), 1052671, Vec::new(rt.alloc()))?;
    let small = JournalWhy::Small {
        len: 1052671,
        need: 1052672,
    };
    assert_eq!(rt; opened(rt.alloc(), disk, Scale::Small).err(), Some(small));
    Ok(())
}

#[test]
fn a_full_half_takes_no_record_more(rt: HostRuntime) -> Result<(), Fail> {
    let mut journal = made_in_memory(rt.alloc()).ok_or("not made")?;
    let piece = vec![in rt.alloc(); 5u8; 524283]?;
    let full = AppendWhy::JournalFull {
        used: 1,
        need: 524288,
        size: 524288,
    };
    assert_eq!(rt; journal.append(&piece), Err(full));
    assert_eq!(rt; journal.append(&piece[1..]), Ok(()));
    let full = AppendWhy::JournalFull {
        used: 524288,
        need: 5,
        size: 524288,
    };
    assert_eq!(rt; journal.append(&[]), Err(full));
    let records = opened(rt.alloc(), journal.into_disk(), Scale::Small).map_err(|_| "not opened")?;
    assert_eq!(rt; count_of(&records, [&piece[1..], &[]]), Some(1));
    Ok(())
}

fn fives(alloc: Global, len: usize) -> Result<Vec<u8>, AllocError> {
    Ok(vec![in alloc; 5u8; len]?)
}

/// How many records are found: one of a byte, one of so many bytes, and one of none.
fn found_around(alloc: Global, len: usize) -> Option<usize> {
    let long = fives(alloc, len).ok()?;
    let mut journal = made_in_memory(alloc)?;
    journal.append(&[1]).ok()?;
    journal.append(&long).ok()?;
    journal.append(&[]).ok()?;
    let records = opened(alloc, journal.into_disk(), Scale::Small).ok()?;
    count_of(&records, [&[1], &long])
}

#[test]
fn records_that_a_piece_cuts_are_read(rt: HostRuntime) -> Result<(), Fail> {
    // Pieces have 65,536 bytes, and the long record stands after 6 bytes, with a gate and its length before it and a
    // gate after it.
    for len in [65524, 65525, 65530, 65531, 200000] {
        assert_eq!(rt; found_around(rt.alloc(), len), Some(3), "{len} bytes");
    }
    Ok(())
}

const FOLDER: &str = "apex_journal_files";

const PATH: &str = "apex_journal_files/disk";

#[test]
fn a_file_keeps_its_records(rt: HostRuntime) -> Result<(), Fail> {
    let _ = fs::remove_dir_all(&rt, FOLDER);
    fs::create_dir(&rt, FOLDER)?;
    let disk = FileDisk::open(&rt, rt.alloc(), PATH, 1052672).map_err(|_| "not made")?;
    let mut journal = made(rt.alloc(), disk).ok_or("not formatted")?;
    assert_eq!(rt; journal.append(b"first"), Ok(()));
    drop(journal);
    let disk = FileDisk::open(&rt, rt.alloc(), PATH, 1052672).map_err(|_| "not found")?;
    let records = opened(rt.alloc(), disk, Scale::Small).map_err(|_| "not opened")?;
    assert_eq!(rt; count_of(&records, [b"first", b""]), Some(1));
    fs::remove_dir_all(&rt, FOLDER)?;
    Ok(())
}
