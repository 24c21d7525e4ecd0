//! The records of a piece of a half.
ghost use Rattle.std.specs.Prelude.{◌≡◌, ◌≤◌, ◌-◌, length, take, ◌++◌, ◌∷◌, [], OnOk, IfOk};
ghost use Rattle.std.specs.Int.{to_be_bytes, w32};
ghost use Rattle.apex_journal.specs.Pieces.{IsPieceRead, IsNeed};

use apex_base::Bytes;
use std::alloc::{AllocError, Global};

/// The records of a half, in order, and how many of its bytes they and the closed gate after them use.
#[derive(Drop)]
pub struct HalfRead {
    pub records: Vec<Bytes>,
    pub used: u64,
}

/// How the records of a piece end: at a gate at that offset.
#[derive(Clone, Copy, Debug, PartialEq, Eq)]
pub enum PieceEnd {
    Closed { at: usize },

    /// The gate is open, and from it on the record and the gate after it need so many bytes, which are more than are
    /// left of the piece.
    Cut { at: usize, need: usize },
}

/// Adds the records of a piece that begins with a gate.
pub(crate) fn read_piece(
    alloc: Global,
    piece: &[u8],
    records: &mut Vec<Bytes>,
) -> Result<PieceEnd, AllocError>
    requires { 1 ≤ length piece.now }
    ensures { IfOk result (IsPieceRead piece.now records.old.items records.new.items) }
{
    let mut at = 0;
    while piece[at] == 1 {
        let rest = &piece[at + 1..];
        let need = need_of(rest);
        if rest.len() + 1 < need {
            return Ok(PieceEnd::Cut { at, need });
        }
        let len = need - 6;
        push_copy(alloc, records, &rest[4..4 + len])?;
        at += 5 + len;
    }
    Ok(PieceEnd::Closed { at })
}

/// How many bytes a record needs with the gates around it, by its length, which follows its gate; where that isn't
/// whole either, how many the least record needs.
fn need_of(rest: &[u8]) -> usize
    ensures need { IsNeed rest.now result }
    ensures len { 4 ≤ length rest.now → to_be_bytes w32 (result - 6) ≡ take 4 rest.now }
    ensures small { result ≤ 4294967301 }
    ensures some { 6 ≤ result }
{
    if rest.len() < 4 {
        return 6;
    }
    let n = u32::from_be_bytes([rest[0], rest[1], rest[2], rest[3]]);
    6 + n as usize
}

fn push_copy(alloc: Global, records: &mut Vec<Bytes>, piece: &[u8]) -> Result<(), AllocError>
    ensures { OnOk result (records.new.items ≡ records.old.items ++ piece.now ∷ []) }
{
    records.reserve(1)?;
    let copy = Vec::from_slice(alloc, piece)?;
    records.push_reserved(Bytes::of(copy));
    Ok(())
}
