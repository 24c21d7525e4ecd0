//! Why a part doesn't work, and what a boot chooses, by rows: `docs/rows.md`, "After a boot". A module that is kept is
//! looked at by its key alone.
ghost use Rattle.std.specs.Prelude.{◌≡◌, ◌≤◌, ◌<◌, List, IfOk, OnOk, insert, length};
ghost use Rattle.std.specs.BTreeMap as tree;
ghost use Rattle.std.specs.List.{AllByRecursion};
ghost use Rattle.std.specs.Option.{option_copied};
ghost use Rattle.std.specs.Ordering.{is_lt, nat_cmp};
ghost use Rattle.std.specs.Cmp.Lexicographic.{slice_cmp};
ghost use Rattle.apex_base.specs.declared.records.Record.{Record};
ghost use Rattle.apex_base.specs.Held.{target_of};
ghost use Rattle.package_store.specs.Latest.{AreHeld};
ghost use Rattle.session_record.specs.Room.{HasPartNumber};
ghost use Rattle.package_store.specs.Settled.{HaveParts};
ghost use Rattle.world_laws.specs.BootByRows.{key_in, kept_case, target_case_in, case_in, cause_in, choice_in, pick_in};
ghost use Rattle.world_laws.specs.BootByRows.{chosen_in};
ghost use Rattle.apex_world.specs.Selection.{preinstalled, preinstalled_case, fallback, with_pick};

use crate::key_files::has_key_of;
use apex_base::{
    Case, Cause, Mounter, Name, Part, Pick, Place, Record, SessionId, Target, Version,
};
use apex_world::{BootOrder, Image, Package};
use package_store::{HeldByName, target_of_name};
use row_map::Rows;
use std::alloc::{AllocError, Global};

/// What a boot goes by: which modules mount, the rows before it, its order and its number.
#[derive(Drop)]
pub(crate) struct Selection<'a, M: Mounter> {
    pub(crate) mounter: &'a M,
    pub(crate) rows: &'a Rows,
    pub(crate) order: &'a BootOrder,
    pub(crate) number: u32,
}

impl<'a, M: Mounter> Selection<'a, M> {
    /// The image that boots.
    pub(crate) fn image(&self) -> &Image
        ensures { result.now ≡ self.now.order.now.image }
    {
        self.order.image.get()
    }

    fn preinstalled_case(&self, alloc: Global, m: &Package) -> Result<Option<Case>, AllocError>
        ensures { IfOk result (λ case. case ≡ preinstalled_case (M.mounting self.now.mounter.now) m.now) }
    {
        if !m.content.is_sound(alloc)? {
            return Ok(Some(Case::Unsound));
        }
        if self.mounter.mounts(&m.name, m.version, Place::Pre) {
            Ok(None)
        } else {
            Ok(Some(Case::NoMount))
        }
    }

    fn kept_case(
        &self,
        alloc: Global,
        session: SessionId,
        part: u32,
        version: Version,
        m: &Package,
    ) -> Result<Option<Case>, AllocError>
        requires { part < 256 }
        ensures { IfOk result (λ case. case ≡ kept_case (M.mounting self.now.mounter.now)
            (key_in self.now.rows.now session part) version m.now) }
    {
        if version < m.version {
            return Ok(Some(Case::BelowPreinstalled));
        }
        if !has_key_of(alloc, self.rows, session, part, m)? {
            return Ok(Some(Case::KeyDiffers));
        }
        if self.mounter.mounts(&m.name, version, Place::Data) {
            Ok(None)
        } else {
            Ok(Some(Case::NoMount))
        }
    }

    fn target_case(
        &self,
        alloc: Global,
        target: &Target,
        m: &Package,
    ) -> Result<Option<Case>, AllocError>
        requires { HasPartNumber target.now }
        ensures { IfOk result
            (λ case. case ≡ target_case_in (M.mounting self.now.mounter.now) self.now.rows.now target.now m.now) }
    {
        match target {
            Target::Preinstalled => self.preinstalled_case(alloc, m),
            Target::Module {
                session,
                part,
                version,
            } => self.kept_case(alloc, *session, *part, *version, m),
        }
    }

    fn case_of(&self, alloc: Global, p: &Part) -> Result<Option<Case>, AllocError>
        requires { HasPartNumber p.now.target }
        ensures { IfOk result (λ case. case ≡ case_in (M.mounting self.now.mounter.now) self.now.rows.now
            p.now.target (preinstalled self.now.order.now.image.modules p.now.name)) }
    {
        match preinstalled(self.image().modules.as_slice(), &p.name) {
            None => Ok(Some(Case::NotInImage)),
            Some(m) => self.target_case(alloc, &p.target, m),
        }
    }

    /// Why a session with these parts doesn't work; None where it does.
    pub(crate) fn cause_of(
        &self,
        alloc: Global,
        parts: &[Part],
    ) -> Result<Option<Cause>, AllocError>
        requires { AllByRecursion (λ p. HasPartNumber p.target) parts.now }
        ensures { IfOk result (λ cause. cause ≡ cause_in (M.mounting self.now.mounter.now) self.now.rows.now
            self.now.order.now.image.modules parts.now) }
    {
        let [p, rest @ ..] = parts else {
            return Ok(None);
        };
        match self.case_of(alloc, p)? {
            Some(case) => Ok(Some(Cause::Part { name: p.name, case })),
            None => self.cause_of(alloc, rest),
        }
    }

    fn fallback(&self, alloc: Global, m: &Package) -> Result<Option<(Version, Place)>, AllocError>
        ensures { IfOk result (λ chosen. chosen ≡ fallback (M.mounting self.now.mounter.now) m.now) }
    {
        match self.preinstalled_case(alloc, m)? {
            None => Ok(Some((m.version, Place::Pre))),
            Some(_) => Ok(None),
        }
    }

    fn choice(
        &self,
        alloc: Global,
        target: &Target,
        m: &Package,
    ) -> Result<Option<(Version, Place)>, AllocError>
        requires { HasPartNumber target.now }
        ensures { IfOk result
            (λ chosen. chosen ≡ choice_in (M.mounting self.now.mounter.now) self.now.rows.now target.now m.now) }
    {
        let Target::Module { version, .. } = target else {
            return self.fallback(alloc, m);
        };
        match self.target_case(alloc, target, m)? {
            None => Ok(Some((*version, Place::Data))),
            Some(_) => self.fallback(alloc, m),
        }
    }

    fn pick(&self, alloc: Global, held: &HeldByName, m: &Package) -> Result<Pick, AllocError>
        requires { HasPartNumber (target_of (tree.get (slice_cmp nat_cmp) held.now m.now.name)) }
        ensures { (sessions : List Record) → AreHeld sessions held.now → IfOk result
            (λ pick. pick ≡ pick_in (M.mounting self.now.mounter.now) self.now.rows.now sessions m.now) }
    {
        let target = target_of_name(held, &m.name);
        let chosen = self.choice(alloc, &target, m)?;
        Ok(Pick {
            name: m.name,
            chosen,
        })
    }

    /// What is chosen for each name of the image, ascending by name.
    pub(crate) fn choose(&self, alloc: Global, held: &HeldByName) -> Result<Vec<Pick>, AllocError>
        requires { (sessions : List Record) × (HaveParts sessions × AreHeld sessions held.now) }
        ensures { (sessions : List Record) → AreHeld sessions held.now → IfOk result (λ picks. picks.items
            ≡ chosen_in (M.mounting self.now.mounter.now) self.now.rows.now sessions self.now.order.now.image.modules) }
    {
        let mut picks = Vec::new(alloc);
        for m in self.image().modules.as_slice() {
            let pick = self.pick(alloc, held, m)?;
            put_pick(&mut picks, pick)?;
        }
        Ok(picks)
    }
}

/// The module of a name among those of an image.
pub(crate) fn preinstalled<'a>(modules: &'a [Package], name: &Name) -> Option<&'a Package>
    ensures { option_copied result ≡ preinstalled modules.now name.now }
{
    modules.iter().find(|m| m.name.is_same(name))
}

fn put_pick(picks: &mut Vec<Pick>, p: Pick) -> Result<(), AllocError>
    ensures { OnOk result (picks.new.items ≡ with_pick p picks.old.items) }
{
    let at = place_for(picks, &p);
    picks.insert(at, p)?;
    Ok(())
}

fn place_for(picks: &[Pick], p: &Pick) -> usize
    ensures within { result ≤ length picks.now }
    ensures splits { with_pick p.now picks.now ≡ insert picks.now result p.now }
{
    let mut at = 0;
    while at < picks.len() && is_before(&picks[at], p) {
        at += 1;
    }
    at
}

fn is_before(a: &Pick, b: &Pick) -> bool
    ensures { result ≡ is_lt (slice_cmp nat_cmp a.now.name b.now.name) }
{
    a.name.cmp(&b.name).is_lt()
}
