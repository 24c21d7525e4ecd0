//! Why a part is refused beside what runs: `docs/calls.md`, "Submit".
ghost use Rattle.std.specs.Prelude.{◌≡◌, List, Some, find};
ghost use Rattle.std.specs.Option.{option_copied};
ghost use Rattle.std.specs.Str.{bytes_eq};
ghost use Rattle.apex_base.specs.declared.records.Record.{Record};
ghost use Rattle.apex_world.specs.Selection.{preinstalled};
ghost use Rattle.apex_world.specs.Submit.{in_running, key_differs, overlap, active_version, downgrade, below};
ghost use Rattle.apex_world.specs.Submit.{preinstalled_version};
ghost use Rattle.call_judge.specs.Submitting.{part_refusal};
ghost use Rattle.call_judge.specs.Unfinished.{AreUnfinished};

use crate::unfinished::{UnfinishedByName, unfinished_with};
use apex_base::{Name, Pick, Refusal, Version};
use apex_world::{Image, Package};

/// Why the module of the one part of a submit is refused beside what runs.
pub(crate) fn part_refusal(
    image: &Image,
    unfinished: &UnfinishedByName,
    active: &[Pick],
    p: &Package,
) -> Option<Refusal>
    ensures { (sessions : List Record) → AreUnfinished unfinished.now sessions
        → result ≡ part_refusal (Some image.now) sessions active.now p.now }
{
    if in_running(image, &p.name).is_none() {
        return Some(Refusal::NotPreinstalled { name: p.name });
    }
    if let Some(refusal) = key_differs(image, p) {
        return Some(refusal);
    }
    if let Some(refusal) = overlap(unfinished, p) {
        return Some(refusal);
    }
    downgrade(active, image, p)
}

/// The running image's module of a name.
fn in_running<'a>(image: &'a Image, name: &Name) -> Option<&'a Package>
    ensures { option_copied result ≡ in_running (Some image.now) name.now }
{
    image
        .modules
        .as_slice()
        .iter()
        .find(|m| m.name.is_same(name))
}

fn key_differs(image: &Image, p: &Package) -> Option<Refusal>
    ensures { result ≡ key_differs (Some image.now) p.now }
{
    let m = in_running(image, &p.name)?;
    if p.content.has_key_of(&m.content) {
        None
    } else {
        Some(Refusal::KeyDiffers { name: p.name })
    }
}

fn overlap(unfinished: &UnfinishedByName, p: &Package) -> Option<Refusal>
    ensures { (sessions : List Record) → AreUnfinished unfinished.now sessions → result ≡ overlap sessions p.now }
{
    let id = unfinished_with(unfinished, &p.name)?;
    Some(Refusal::Overlap { name: p.name, id })
}

fn downgrade(active: &[Pick], image: &Image, p: &Package) -> Option<Refusal>
    ensures { result ≡ downgrade active.now (Some image.now) p.now }
{
    match active_version(active, &p.name) {
        Some(version) => below(p, Some(version)),
        None => below(p, preinstalled_version(image, &p.name)),
    }
}

fn below(p: &Package, version: Option<Version>) -> Option<Refusal>
    ensures { result ≡ below p.now version }
{
    let active = version?;
    if p.version < active {
        Some(Refusal::Downgrade {
            name: p.name,
            active,
            given: p.version,
        })
    } else {
        None
    }
}

fn active_version(active: &[Pick], name: &Name) -> Option<Version>
    ensures { result ≡ active_version active.now name.now }
{
    let chosen = pick_of(active, name)?.chosen?;
    Some(chosen.0)
}

fn pick_of<'a>(active: &'a [Pick], name: &Name) -> Option<&'a Pick>
    ensures { option_copied result ≡ find (λ p. bytes_eq p.name name.now) active.now }
{
    active.iter().find(|p| p.name.is_same(name))
}

fn preinstalled_version(image: &Image, name: &Name) -> Option<Version>
    ensures { result ≡ preinstalled_version (Some image.now) name.now }
{
    let m = in_running(image, name)?;
    Some(m.version)
}
