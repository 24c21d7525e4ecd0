//! A half is read in pieces, so that beside its records no more of it is in memory than a piece.
ghost use Rattle.std.specs.Prelude.{◌≡◌, ◌≤◌, ◌<◌, ◌+◌, ◌*◌, ◌^◌, ℕ, List, [], length, take, drop, false, MatchResult, IfOk, IfErr, IfSome, OnOk};
ghost use Rattle.apex_disk.specs.Disk.{SameImages, CountsFaults, StaysGone};
ghost use Rattle.apex_disk.specs.Moments.{LeavesOnly};
ghost use Rattle.apex_journal.specs.Records.{blocks};
ghost use Rattle.apex_journal.specs.Pieces.{IsInHalf, IsNext, IsOffsetIn, IsPieceTaken, IsReadTo, left_of};
ghost use Rattle.apex_journal.specs.Journal.{half_len, half_of, Told};
ghost use Rattle.apex_journal.specs.Heads.{IsHalfWhy};
ghost use Rattle.apex_journal.specs.Refusals.{CountsFault};

use crate::half::{PieceEnd, read_piece};
use crate::scale::{START, half_len};
use crate::why::JournalWhy;
use apex_base::{Bytes, Failed, Scale};
use apex_disk::Disk;
use std::alloc::{AllocError, Global};

/// How many bytes are read at a time, while no record needs more.
const PIECE: u64 = 65536;

/// How far a half was read: the records before the gate at that offset, and room for the piece that begins there.
#[derive(Drop)]
pub(crate) struct Reading {
    pub(crate) records: Vec<Bytes>,
    pub(crate) at: u64,
    pub(crate) piece: Vec<u8>,
}

/// Why a half can't be read: an open gate at an offset in it without a whole record, or memory.
#[derive(Clone, Copy, Debug, PartialEq, Eq)]
pub enum HalfWhy {
    RunsOver { at: u64 },
    OutOfMemory,
}

/// Nothing was read yet of a half of that length.
pub(crate) fn nothing_read(alloc: Global, size: u64) -> Result<Reading, AllocError>
    requires { 1 ≤ size }
    ensures none { IfOk result (λ reading. reading.records.items ≡ []) }
    ensures at { IfOk result (λ reading. reading.at ≡ 0) }
    ensures piece { IfOk result (λ reading. IsInHalf size reading) }
{
    let piece = zeros(alloc, size.min(PIECE) as usize)?;
    Ok(Reading {
        records: Vec::new(alloc),
        at: 0,
        piece,
    })
}

/// Reads the next piece, and says whether a closed gate ends its records.
pub(crate) fn read_on<D: Disk>(
    alloc: Global,
    disk: &mut D,
    scale: Scale,
    reading: &mut Reading,
) -> Result<bool, JournalWhy>
    requires long { 4096 + 2 * half_len scale ≤ D.length_of disk.old }
    requires inside { IsInHalf (half_len scale) reading.old }
    requires begins { Told (D.reads disk.old) (λ file. IsReadTo false (half_of scale file) reading.old) }
    ensures read { IfOk result (λ closed. Told (D.reads disk.old) (λ file. IsReadTo closed (half_of scale file) reading.new)) }
    ensures counts { OnOk result (reading.new.at ≡ length (blocks reading.new.records.items)) }
    ensures within { OnOk result (reading.new.at + 1 ≤ half_len scale) }
    ensures inside { IfOk result (λ closed. closed ≡ false → IsInHalf (half_len scale) reading.new) }
    ensures less { IfOk result (λ closed. closed ≡ false → left_of (half_len scale) reading.new < left_of (half_len scale) reading.old) }
    ensures refused { IfErr result (λ why. IsHalfWhy scale (D.reads disk.old) why) }
    ensures cause { MatchResult result (λ _. D.faults disk.old ≡ D.faults disk.new) (λ why. CountsFault (D.faults disk.old) (D.faults disk.new) why) }
    ensures gone { StaysGone (D.gone disk.old) (D.gone disk.new) result }
    ensures reads { D.reads disk.new ≡ D.reads disk.old }
    ensures images { SameImages (D.images disk.old) (D.images disk.new) }
    ensures any_moment { LeavesOnly D.moment D.images_since disk.old disk.new (D.images disk.old) }
    ensures log { D.log disk.new ≡ D.log disk.old }
    ensures len { D.length_of disk.new ≡ D.length_of disk.old }
{
    match read_at(disk, START + reading.at, &mut reading.piece) {
        Err(_) => return Err(JournalWhy::DiskFault),
        Ok(()) => {}
    }
    match take_piece(alloc, half_len(scale), reading) {
        Ok(closed) => Ok(closed),
        Err(HalfWhy::RunsOver { at }) => Err(JournalWhy::Damaged { offset: START + at }),
        Err(HalfWhy::OutOfMemory) => Err(JournalWhy::NoMemory),
    }
}

/// Reads, and leaves the device as it is.
fn read_at<D: Disk>(disk: &mut D, at: u64, into: &mut [u8]) -> Result<(), Failed>
    requires { at + length into.old ≤ D.length_of disk.old }
    ensures bytes { OnOk result (IfSome (D.reads disk.old) (λ file. into.new ≡ take (length into.old) (drop at file))) }
    ensures cause { CountsFaults (D.faults disk.old) (D.faults disk.new) result }
    ensures gone { StaysGone (D.gone disk.old) (D.gone disk.new) result }
    ensures reads { D.reads disk.new ≡ D.reads disk.old }
    ensures images { SameImages (D.images disk.old) (D.images disk.new) }
    ensures any_moment { LeavesOnly D.moment D.images_since disk.old disk.new (D.images disk.old) }
    ensures log { D.log disk.new ≡ D.log disk.old }
    ensures len { D.length_of disk.new ≡ D.length_of disk.old }
{
    disk.read(at, into)
}

/// Takes the records of a piece of a half of that length, and makes room for the next piece.
fn take_piece(alloc: Global, size: u64, reading: &mut Reading) -> Result<bool, HalfWhy>
    requires small { size < 2 ^ 32 }
    requires inside { IsInHalf size reading.old }
    ensures taken { (half : List ℕ) → length half ≡ size → IsNext half reading.old → IsReadTo false half reading.old → IsPieceTaken half reading.new result }
    ensures offset { IfErr result (λ why. IsOffsetIn size why) }
    ensures counts { OnOk result (reading.new.at ≡ length (blocks reading.new.records.items)) }
    ensures within { OnOk result (reading.new.at + 1 ≤ size) }
    ensures inside { IfOk result (λ closed. closed ≡ false → IsInHalf size reading.new) }
    ensures less { IfOk result (λ closed. closed ≡ false → left_of size reading.new < left_of size reading.old) }
{
    let Ok(end) = read_piece(alloc, &reading.piece, &mut reading.records) else {
        return Err(HalfWhy::OutOfMemory);
    };
    match end {
        PieceEnd::Closed { at } => {
            reading.at += at as u64;
            Ok(true)
        }
        PieceEnd::Cut { at, need } => {
            reading.at += at as u64;
            let left = size - reading.at;
            if left < need as u64 {
                return Err(HalfWhy::RunsOver { at: reading.at });
            }
            match make_room(&mut reading.piece, need, left as usize) {
                Err(_) => Err(HalfWhy::OutOfMemory),
                Ok(()) => Ok(false),
            }
        }
    }
}

/// Makes the piece as long as is needed at least, and no longer than what is left.
fn make_room(piece: &mut Vec<u8>, need: usize, left: usize) -> Result<(), AllocError>
    requires { need ≤ left }
    ensures need { OnOk result (need ≤ length piece.new.items) }
    ensures left { OnOk result (length piece.new.items ≤ left) }
{
    if piece.len() < need {
        piece.resize(need, 0)?;
    }
    piece.truncate(left);
    Ok(())
}

fn zeros(alloc: Global, len: usize) -> Result<Vec<u8>, AllocError>
    ensures { IfOk result (λ bytes. length bytes.items ≡ len) }
{
    Ok(vec![in alloc; 0u8; len]?)
}
