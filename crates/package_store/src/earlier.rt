//! What names held before each boot. The sessions are walked over once, and each question is then a look-up.
ghost use Rattle.std.specs.Prelude.{◌≡◌, ◌||◌, ℕ, List, Option, IfOk, OnOk, nat_lt};
ghost use Rattle.std.specs.List.{list_any};
ghost use Rattle.apex_base.specs.declared.records.Record.{Record as Session};
ghost use Rattle.apex_base.specs.Held.{before, candidate, later};
ghost use Rattle.package_store.specs.Earlier.{AreEarlier, AreEnough, IsFirst, IsLast, looks_back, with_earlier};
ghost use Rattle.package_store.specs.Latest.{Best};

use apex_base::{Name, Part, Record, RollbackState, Target};
use std::alloc::{AllocError, Global};
use std::collections::BTreeMap;

/// The targets of the sessions that succeeded, by name and then by the boot that activated them.
#[derive(Drop)]
pub(crate) struct EarlierTargets {
    by_name: BTreeMap<Name, BTreeMap<u32, Target>>,
}

/// Whether it is asked what the names of a session held before it: if it can be undone or rolled back.
pub(crate) fn looks_back(r: &Record) -> bool
    ensures { result ≡ looks_back r.now }
{
    r.state.is_undoable() || RollbackState::is_available(r.rollback)
}

impl EarlierTargets {
    /// Those of these sessions, if one of them looks back; else none, since nobody asks. Fails only if memory runs out.
    pub(crate) fn of(alloc: Global, records: &[Record]) -> Result<Self, AllocError>
        ensures { IfOk result (AreEnough records.now) }
    {
        if records.iter().any(looks_back) {
            EarlierTargets::of_all(alloc, records)
        } else {
            Ok(EarlierTargets {
                by_name: BTreeMap::new(alloc),
            })
        }
    }

    /// Those of all these sessions. It goes over them once.
    fn of_all(alloc: Global, records: &[Record]) -> Result<Self, AllocError>
        ensures { IfOk result (AreEarlier records.now) }
    {
        let mut earlier = EarlierTargets {
            by_name: BTreeMap::new(alloc),
        };
        for r in records {
            if r.state.is_success() {
                earlier.add_session(alloc, r)?;
            }
        }
        Ok(earlier)
    }

    /// The target that a name held before a session was activated, whichever records these are the targets of.
    pub(crate) fn before(&self, x: &Record, name: &Name) -> Target
        ensures { (records : List Session) → AreEarlier records self.now
            → result ≡ before records x.now name.now }
    {
        let Some(targets) = self.by_name.get(name) else {
            return Target::Preinstalled;
        };
        match targets.range(..x.activation).next_back() {
            Some((_, target)) => *target,
            None => Target::Preinstalled,
        }
    }

    fn add_session(&mut self, alloc: Global, r: &Record) -> Result<(), AllocError>
        ensures { OnOk result ((limit : ℕ) (name : List ℕ) (best : Option Best) → IsLast self.old limit name best
            → IsLast self.new limit name (later best (candidate (nat_lt r.now.activation limit) name r.now))) }
    {
        for p in r.parts.as_slice() {
            self.add(alloc, r.activation, p)?;
        }
        Ok(())
    }

    fn add(&mut self, alloc: Global, boot: u32, p: &Part) -> Result<(), AllocError>
        ensures { OnOk result ((limit : ℕ) (name : List ℕ) (best : Option Best) → IsLast self.old limit name best
            → IsLast self.new limit name (with_earlier boot limit name best p.now)) }
    {
        if let Some(targets) = self.by_name.get_mut(&p.name) {
            return put_first(targets, boot, p.target);
        }
        let mut targets = BTreeMap::new(alloc);
        targets.insert(boot, p.target)?;
        self.by_name.insert(p.name, targets)?;
        Ok(())
    }
}

/// Of two sessions of a name that one boot activated the first counts.
fn put_first(
    targets: &mut BTreeMap<u32, Target>,
    boot: u32,
    target: Target,
) -> Result<(), AllocError>
    ensures { OnOk result (IsFirst targets.old targets.new boot target) }
{
    if !targets.contains_key(&boot) {
        targets.insert(boot, target)?;
    }
    Ok(())
}
