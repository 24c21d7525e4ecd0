//! Which modules are kept.
ghost use Rattle.std.specs.Prelude.{◌≡◌, ◌||◌, true, ℕ, List, IfOk, OnOk, fold};
ghost use Rattle.std.specs.BTreeMap.{IsOrdered};
ghost use Rattle.std.specs.Cmp.Lexicographic.{slice_cmp};
ghost use Rattle.std.specs.Ordering.{nat_cmp};
ghost use Rattle.apex_base.specs.declared.numbers.SessionId.{SessionId as Id};
ghost use Rattle.apex_base.specs.declared.records.Record.{Record as Session};
ghost use Rattle.apex_base.specs.Held.{is_module, is_target, kept};
ghost use Rattle.package_store.specs.Earlier.{AreEarlier, AreEnough, looks_back};
ghost use Rattle.package_store.specs.Latest.{AreHeld};
ghost use Rattle.package_store.specs.Keeping.{has_part, keep_held, keep_for};

use crate::earlier::{EarlierTargets, looks_back};
use crate::held::HeldByName;
use apex_base::{Part, Record, SessionId, Target};
use std::alloc::{AllocError, Global};
use std::collections::BTreeSet;

/// The modules that are kept, by the session that submitted one, and its part.
#[derive(Drop)]
pub struct KeptParts {
    parts: BTreeSet<(u32, u32)>,
}

impl KeptParts {
    /// The modules that the sessions keep, by what all names hold. It goes over the sessions twice, and looks up what
    /// a name held for each part of a session that can be undone or rolled back. Fails only if memory runs out.
    pub fn of(alloc: Global, records: &[Record], held: &HeldByName) -> Result<Self, AllocError>
        requires { AreHeld records.now held.now }
        ensures { IfOk result (λ parts. (session : Id) (part : ℕ)
            → has_part parts session part ≡ is_target (kept records.now) session part) }
    {
        let earlier = EarlierTargets::of(alloc, records)?;
        KeptParts::by_targets(alloc, records, held, &earlier)
    }

    /// The same, by what names held before each boot too. It goes over the sessions once.
    pub(crate) fn by_targets(
        alloc: Global,
        records: &[Record],
        held: &HeldByName,
        earlier: &EarlierTargets,
    ) -> Result<Self, AllocError>
        requires held { AreHeld records.now held.now }
        requires earlier { AreEnough records.now earlier.now }
        ensures { IfOk result (λ parts. (session : Id) (part : ℕ)
            → has_part parts session part ≡ is_target (kept records.now) session part) }
    {
        let mut parts = KeptParts {
            parts: BTreeSet::new(alloc),
        };
        parts.add_held(held)?;
        for r in records {
            parts.add_session(earlier, r)?;
        }
        Ok(parts)
    }

    /// Whether the module that this part of a session submitted is kept.
    pub fn has(&self, session: SessionId, part: u32) -> bool
        ensures { result ≡ has_part self.now session part }
    {
        self.parts.contains(&(session.0, part))
    }

    fn add_held(&mut self, held: &HeldByName) -> Result<(), AllocError>
        ensures kept { OnOk result ((session : Id) (part : ℕ) → has_part self.new session part
            ≡ fold (keep_held session part) (has_part self.old session part) held.now.entries) }
        ensures ordered { IsOrdered (slice_cmp nat_cmp) held.now }
    {
        for (_, best) in held {
            self.add(best.1)?;
        }
        Ok(())
    }

    /// What a session keeps beside what its names hold.
    fn add_session(&mut self, earlier: &EarlierTargets, r: &Record) -> Result<(), AllocError>
        ensures { OnOk result ((records : List Session)
            → (looks_back r.now ≡ true → AreEarlier records earlier.now) → (session : Id) (part : ℕ)
            → has_part self.new session part
            ≡ fold (keep_for records r.now session part) (has_part self.old session part) r.now.parts) }
    {
        for p in r.parts.as_slice() {
            self.add_for(earlier, r, p)?;
        }
        Ok(())
    }

    fn add_for(&mut self, earlier: &EarlierTargets, r: &Record, p: &Part) -> Result<(), AllocError>
        ensures { OnOk result ((records : List Session)
            → (looks_back r.now ≡ true → AreEarlier records earlier.now) → (session : Id) (part : ℕ)
            → has_part self.new session part
            ≡ keep_for records r.now session part (has_part self.old session part) p.now) }
    {
        if r.state.is_unfinished() {
            self.add(p.target)?;
        }
        if looks_back(r) {
            self.add(earlier.before(r, &p.name))?;
        }
        Ok(())
    }

    fn add(&mut self, target: Target) -> Result<(), AllocError>
        ensures { OnOk result ((session : Id) (part : ℕ) → has_part self.new session part
            ≡ (is_module session part target || has_part self.old session part)) }
    {
        if let Target::Module { session, part, .. } = target {
            self.parts.insert((session.0, part))?;
        }
        Ok(())
    }
}
