//! Makes an empty store of a blank device: the bytes after the closed gate first, and then the gate.
ghost use Rattle.std.specs.Prelude.{◌≡◌, ◌≤◌, ◌+◌, ◌*◌, [], List, ℕ, length, MatchResult, IfOk, IfErr, OnOk};
ghost use Rattle.apex_disk.specs.Disk.{IsSettled, StaysGone};
ghost use Rattle.apex_disk.specs.Moments.{LeavesOnly};
ghost use Rattle.apex_journal.specs.Journal.{half_len, IsBlank, BlankOrEmpty, Opens, Stands, Told};
ghost use Rattle.apex_journal.specs.Header.{IsHeader};
ghost use Rattle.apex_journal.specs.Refusals.{WhyUnformatted, CountsFault};

use crate::gate::write_behind_gate;
use crate::head::MARK;
use crate::journal::Journal;
use crate::scale::half_len;
use crate::why::JournalWhy;
use apex_base::Scale;
use apex_disk::Disk;
use std::alloc::{AllocError, Global};

impl<D: Disk> Journal<D> {
    /// Makes an empty store of that scale on a blank device, as `open` has found it.
    pub fn format(alloc: Global, disk: D, scale: Scale) -> Result<Journal<D>, (D, JournalWhy)>
        requires blank { (c : List ℕ) → D.images disk c → IsBlank c }
        ensures stands { IfOk result (λ journal. Stands D.reads D.images journal []) }
        ensures scale { IfOk result (λ journal. journal.scale ≡ scale) }
        ensures any_moment { MatchResult result (λ journal. LeavesOnly D.moment D.images_since disk journal.device (BlankOrEmpty scale)) (λ refused. LeavesOnly D.moment D.images_since disk refused.0 (BlankOrEmpty scale)) }

        // A refusal.
        ensures refused { IfErr result (λ refused. WhyUnformatted scale (D.length_of disk) refused.1) }
        ensures cause { MatchResult result (λ journal. D.faults disk ≡ D.faults journal.device) (λ refused. CountsFault (D.faults disk) (D.faults refused.0) refused.1) }
        ensures gone { D.gone disk → OnOk result ⊥ }

        // What stays.
        ensures log { MatchResult result (λ journal. D.log journal.device ≡ D.log disk) (λ refused. D.log refused.0 ≡ D.log disk) }
        ensures len { MatchResult result (λ journal. D.length_of journal.device ≡ D.length_of disk) (λ refused. D.length_of refused.0 ≡ D.length_of disk) }
    {
        let mut disk = disk;
        match write_header(alloc, &mut disk, scale) {
            Err(why) => Err((disk, why)),
            Ok(()) => Ok(Journal::of(alloc, disk, scale, 1)),
        }
    }
}

fn write_header<D: Disk>(alloc: Global, disk: &mut D, scale: Scale) -> Result<(), JournalWhy>
    requires blank { (c : List ℕ) → D.images disk.old c → IsBlank c }
    ensures opens { OnOk result (Told (D.reads disk.new) (λ file. Opens scale file [])) }
    ensures settled { OnOk result (IsSettled (D.images disk.new) (D.reads disk.new)) }
    ensures long { OnOk result (4096 + 2 * half_len scale ≤ D.length_of disk.new) }
    ensures any_moment { LeavesOnly D.moment D.images_since disk.old disk.new (BlankOrEmpty scale) }
    ensures refused { IfErr result (λ why. WhyUnformatted scale (D.length_of disk.old) why) }
    ensures cause { MatchResult result (λ _. D.faults disk.old ≡ D.faults disk.new) (λ why. CountsFault (D.faults disk.old) (D.faults disk.new) why) }
    ensures gone { StaysGone (D.gone disk.old) (D.gone disk.new) result }
    ensures log { D.log disk.new ≡ D.log disk.old }
    ensures len { D.length_of disk.new ≡ D.length_of disk.old }
{
    let len = disk.len();
    let need = scale.device_len();
    if len < need {
        return Err(JournalWhy::Small { len, need });
    }
    let Ok(bytes) = header(alloc, scale) else {
        return Err(JournalWhy::NoMemory);
    };
    if disk.reserve(4, 4097).is_err() {
        return Err(JournalWhy::NoMemory);
    }
    match write_behind_gate(disk, 0, &bytes) {
        Err(_) => Err(JournalWhy::DiskFault),
        Ok(()) => Ok(()),
    }
}

/// What stands after the store's gate: the rest of the heading, zeros, and the closed gate of the first half.
#[tactic(auto, using(crate::proofs::Fresh::header_of))]
fn header(alloc: Global, scale: Scale) -> Result<Vec<u8>, AllocError>
    ensures { IfOk result (λ bytes. IsHeader scale bytes.items) }
{
    let between = vec![in alloc; 0u8; 4085]?;
    let mut bytes = Vec::with_capacity(alloc, 4096)?;
    bytes.extend_from_slice(&MARK[1..])?;
    bytes.push(scale.number())?;
    bytes.extend_from_slice(&between)?;
    bytes.push(0)?;
    Ok(bytes)
}
