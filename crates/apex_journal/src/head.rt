//! What the first bytes of a device say.
ghost use Rattle.std.specs.Prelude.{◌≡◌, length, MatchOption, MatchResult, take};
ghost use Rattle.apex_journal.specs.Journal.{mark, heading};
ghost use Rattle.apex_journal.specs.Heads.{IsFirstWrong, IsHeadWhy};

use crate::why::JournalWhy;
use apex_base::Scale;

/// An open gate, `APEXPLAY` and the format.
pub(crate) const MARK: [u8; 10] = [1, 65, 80, 69, 88, 80, 76, 65, 89, 1];

/// How many bytes are read of a device before anything else.
pub(crate) const HEAD: usize = 12;

/// Nothing, where they are those of a store of that scale; else the first refusal.
pub(crate) fn judge(head: &[u8], scale: Scale) -> Result<(), JournalWhy>
    requires { length head.now ≡ 12 }
    ensures { MatchResult result (λ _. take 11 head.now ≡ heading scale) (λ why. IsHeadWhy scale head.now why) }
{
    match first_wrong(&head[..10]) {
        Some((0, _)) => return Err(JournalWhy::Blank),
        Some((offset, byte)) => return Err(JournalWhy::NotAStore { offset, byte }),
        None => {}
    }
    let found = head[10];
    let wanted = scale.number();
    if found == wanted {
        return Ok(());
    }
    match Scale::of_number(found) {
        None => Err(JournalWhy::NotAStore {
            offset: 10,
            byte: found,
        }),
        Some(_) => Err(JournalWhy::ScaleDiffers { found, wanted }),
    }
}

/// The first byte that isn't the mark's, with its offset.
fn first_wrong(head: &[u8]) -> Option<(u64, u8)>
    requires { length head.now ≡ 10 }
    ensures { MatchOption result (head.now ≡ mark) (λ wrong. IsFirstWrong head.now wrong.0 wrong.1) }
{
    for (i, b) in MARK.iter().enumerate() {
        if head[i] != *b {
            return Some((i as u64, head[i]));
        }
    }
    None
}
