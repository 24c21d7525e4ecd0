//! What names hold, all of them at once.
ghost use Rattle.std.specs.Prelude.{◌≡◌, ℕ, List, IfOk, OnOk, true};
ghost use Rattle.std.specs.BTreeMap as tree;
ghost use Rattle.std.specs.Cmp.Lexicographic.{slice_cmp};
ghost use Rattle.std.specs.Ordering.{nat_cmp};
ghost use Rattle.apex_base.specs.Held.{candidate, later, target_of};
ghost use Rattle.package_store.specs.Latest.{AreHeld, with_part};

use apex_base::{Name, Part, Record, Target};
use std::alloc::{AllocError, Global};
use std::collections::BTreeMap;

/// By each name that a session that stands has: the latest boot that activated one, and its target.
pub type HeldByName = BTreeMap<Name, (u32, Target)>;

/// What all names hold. It goes over the records once.
pub fn held_by_name(alloc: Global, records: &[Record]) -> Result<HeldByName, AllocError>
    ensures { IfOk result (AreHeld records.now) }
{
    let mut held = BTreeMap::new(alloc);
    for r in records {
        if r.state.is_standing() {
            add_session(&mut held, r)?;
        }
    }
    Ok(held)
}

/// The target that a name holds, by what all names hold.
pub fn target_of_name(held: &HeldByName, name: &Name) -> Target
    ensures { result ≡ target_of (tree.get (slice_cmp nat_cmp) held.now name.now) }
{
    match held.get(name) {
        Some(best) => best.1,
        None => Target::Preinstalled,
    }
}

fn add_session(held: &mut HeldByName, r: &Record) -> Result<(), AllocError>
    ensures { OnOk result ((name : List ℕ) → tree.get (slice_cmp nat_cmp) held.new name
        ≡ later (tree.get (slice_cmp nat_cmp) held.old name) (candidate true name r.now)) }
{
    for p in r.parts.as_slice() {
        add_part(held, r.activation, p)?;
    }
    Ok(())
}

fn add_part(held: &mut HeldByName, activation: u32, p: &Part) -> Result<(), AllocError>
    ensures { OnOk result ((name : List ℕ) → tree.get (slice_cmp nat_cmp) held.new name
        ≡ with_part activation name (tree.get (slice_cmp nat_cmp) held.old name) p.now) }
{
    let found = (activation, p.target);
    if let Some(best) = held.get_mut(&p.name) {
        if best.0 < activation {
            *best = found;
        }
        return Ok(());
    }
    held.insert(p.name, found)?;
    Ok(())
}
