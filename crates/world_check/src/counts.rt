//! How many units and names a world has, and that there is no moment before the first boot.
ghost use Rattle.std.specs.Prelude.{◌≡◌, Decides, [], length};
ghost use Rattle.apex_world.specs.Bounds.{is_ready_rollback};
ghost use Rattle.apex_world.specs.Limits.{kind_units};
ghost use Rattle.apex_world.specs.World.{World};
ghost use Rattle.world_check.specs.Counted.{AreFew, amount, most, names_if};
ghost use Rattle.world_check.specs.LawfulParts.{HasLawfulCounts};

use apex_base::{Kind, Record, RollbackState, Scale};
use row_check::Boots;

/// What is counted of sessions: their units, and the names of those that can be undone, that can be rolled back, and
/// that are to take others back at the next boot.
#[derive(Clone, Copy)]
pub(crate) enum Counted {
    Units,
    Undoable,
    Available,
    Waiting,
}

/// Whether units and names are within the scale, and there is no moment before the first boot.
pub(crate) fn are_lawful_counts(sessions: &[Record], boots: &Boots, scale: Scale) -> bool
    // It is so of each world of these sessions, so many boots and these moments.
    ensures { (w : World) → w.scale ≡ scale → w.sessions ≡ sessions.now → length w.eras ≡ boots.now.count
        → w.moments ≡ boots.now.moments.items → Decides result (HasLawfulCounts w) }
{
    if !has_begun(boots) {
        return false;
    }
    if !are_few(sessions, Counted::Units, scale) {
        return false;
    }
    if !are_few(sessions, Counted::Undoable, scale) {
        return false;
    }
    if !are_few(sessions, Counted::Available, scale) {
        return false;
    }
    are_few(sessions, Counted::Waiting, scale)
}

/// There was a boot, or there is no moment.
fn has_begun(boots: &Boots) -> bool
    ensures { Decides result (boots.now.count ≡ 0 → boots.now.moments.items ≡ []) }
{
    boots.count != 0 || boots.moments.is_empty()
}

/// Whether sessions have at most as much of it together as the scale allows.
fn are_few(sessions: &[Record], counted: Counted, scale: Scale) -> bool
    ensures { Decides result (AreFew counted scale sessions.now) }
{
    let mut left = most(counted, scale) as usize;
    for r in sessions {
        let amount = amount(counted, r);
        if amount > left {
            return false;
        }
        left -= amount;
    }
    true
}

/// How much of it sessions may have together.
fn most(counted: Counted, scale: Scale) -> u32
    ensures { result ≡ most counted scale }
{
    match counted {
        Counted::Units => scale.units(),
        Counted::Undoable | Counted::Available | Counted::Waiting => scale.modules(),
    }
}

/// How much of it a session has.
fn amount(counted: Counted, r: &Record) -> usize
    ensures { result ≡ amount counted r.now }
{
    match counted {
        Counted::Units => units(r.kind),
        Counted::Undoable => names_if(r.state.is_undoable(), r),
        Counted::Available => names_if(RollbackState::is_available(r.rollback), r),
        Counted::Waiting => names_if(is_ready_rollback(r), r),
    }
}

/// The units of a session of this kind.
fn units(kind: Kind) -> usize
    ensures { result ≡ kind_units kind }
{
    match kind {
        Kind::Plain => 1,
        Kind::WithRollback => 2,
        Kind::RollbackOf(_) => 0,
    }
}

/// How many names a session has, if it counts.
fn names_if(counts: bool, r: &Record) -> usize
    ensures { result ≡ names_if counts r.now }
{
    if counts { r.parts.as_slice().len() } else { 0 }
}

/// The next boot lets the session take another back.
fn is_ready_rollback(r: &Record) -> bool
    ensures { result ≡ is_ready_rollback r.now }
{
    r.kind.undoes() && r.state.is_staged()
}
