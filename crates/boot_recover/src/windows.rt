//! The moments of boots, and when a device boots too often: `docs/watchdog.md`, "Windows".
ghost use Rattle.std.specs.Prelude.{◌≡◌, ◌≤◌, ◌++◌, ◌∷◌, [], ◌&&◌, nat_le, length, IfOk, OnOk};
ghost use Rattle.std.specs.List.{list_all};
ghost use Rattle.apex_base.specs.Windows.{is_looping, is_since, last_five};
ghost use Rattle.world_facts.specs.Plain.{moments_left, plain_loop};
ghost use Rattle.apex_world.specs.Rows.{boots_text, moments_text};

use apex_base::{Listed, Millis, Name};
use apex_world::IdList;
use std::alloc::{AllocError, Global};

/// How long a boot counts, in milliseconds: ten minutes.
const WINDOW: u64 = 600000;

/// Notes the moment of a boot, and answers the boot loop where there is one: nobody acts, and the moments are
/// forgotten.
pub(crate) fn note_boot(
    alloc: Global,
    moments: &mut Vec<Millis>,
    time: Millis,
) -> Result<Option<(Option<Name>, IdList)>, AllocError>
    ensures told { IfOk result (λ told. told ≡ plain_loop time (moments.old.items ++ time ∷ [])) }
    ensures moments { OnOk result (moments.new.items ≡ moments_left time (moments.old.items ++ time ∷ [])) }
{
    moments.push(time)?;
    if !is_looping(time, moments) {
        return Ok(None);
    }
    moments.clear();
    Ok(Some((None, Listed::new(alloc))))
}

/// Whether there are five boots within ten minutes before a moment, none of which is yet to come.
fn is_looping(now: Millis, boots: &[Millis]) -> bool
    ensures { result ≡ is_looping now boots.now }
{
    boots.len() >= 5 && are_recent(now, last_five(boots))
}

fn last_five(moments: &[Millis]) -> &[Millis]
    ensures last { result.now ≡ last_five moments.now }
    ensures few { length result.now ≤ 5 }
{
    &moments[moments.len().saturating_sub(5)..]
}

fn are_recent(now: Millis, boots: &[Millis]) -> bool
    ensures { result ≡ list_all (λ m. nat_le m now && is_since now 600000 m) boots.now }
{
    boots.iter().all(|m| m.number() <= now.number() && is_since(now, WINDOW, *m))
}

/// Whether a moment is at most so many milliseconds before another.
fn is_since(now: Millis, span: u64, moment: Millis) -> bool
    ensures { result ≡ is_since now span moment }
{
    now.number().saturating_sub(span) <= moment.number()
}

/// The value of the row of boots: how many there were, and the last five moments.
pub(crate) fn boots_value(
    alloc: Global,
    number: u32,
    moments: &[Millis],
) -> Result<Vec<u8>, AllocError>
    ensures { IfOk result (λ bytes. bytes.items ≡ boots_text number (last_five moments.now)) }
{
    let last = last_five(moments);
    let mut bytes = Vec::with_capacity(alloc, 45)?;
    bytes.extend_from_slice(&number.to_be_bytes())?;
    bytes.push(last.len() as u8)?;
    push_moments(last, &mut bytes)?;
    Ok(bytes)
}

/// Adds moments, of eight bytes each.
fn push_moments(moments: &[Millis], into: &mut Vec<u8>) -> Result<(), AllocError>
    ensures { OnOk result (into.new.items ≡ into.old.items ++ moments_text moments.now) }
{
    let [m, rest @ ..] = moments else {
        return Ok(());
    };
    into.extend_from_slice(&m.number().to_be_bytes())?;
    push_moments(rest, into)
}
