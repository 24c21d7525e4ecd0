//! The choice for each name. Candidates are gone over once, and what is best so far stands under its name.
ghost use Rattle.std.specs.Prelude.{◌≡◌, ◌↔◌, List, [], ◌∷◌, ◌++◌, map, IfOk, IsTrue};
ghost use Rattle.std.specs.Cmp.Lexicographic.{slice_cmp};
ghost use Rattle.std.specs.List.Sorted.{IsStrictlySortedBy};
ghost use Rattle.std.specs.Map.{keys_of};
ghost use Rattle.std.specs.Ordering.{nat_cmp};
ghost use Rattle.version_select.specs.declared.candidate.Candidate.{Candidate};
ghost use Rattle.version_select.specs.Kept.{kept_at, KeepsChoices, flat, Improves, pick_of};
ghost use Rattle.version_select.specs.Selecting.{IsChoice, ArePicks};

use crate::Candidate;
use crate::candidate::is_better;
use apex_base::{Name, Pick, Place, Version};
use std::alloc::{AllocError, Global};
use std::collections::BTreeMap;

/// What is best so far, by name.
type Choices = BTreeMap<Name, Option<(Version, Place)>>;

/// The names of the candidates, ascending, each with the version and place of its best usable candidate. Fails only if
/// memory runs out.
pub fn select(alloc: Global, candidates: &[Candidate]) -> Result<Vec<Pick>, AllocError>
    ensures { IfOk result (λ picks. ArePicks candidates.now picks.items) }
{
    let choices = choices_of(alloc, candidates)?;
    picks_of(alloc, &choices)
}

fn choices_of(alloc: Global, candidates: &[Candidate]) -> Result<Choices, AllocError>
    ensures { IfOk result (λ choices. KeepsChoices candidates.now choices.entries) }
{
    let mut choices = BTreeMap::new(alloc);
    for candidate in candidates {
        let before = choice_at(&choices, &candidate.name);
        let after = better_choice(before, candidate);
        choices.insert(candidate.name, after)?;
    }
    Ok(choices)
}

fn choice_at(choices: &Choices, name: &Name) -> Option<(Version, Place)>
    ensures { result ≡ flat (kept_at choices.now.entries name.now) }
{
    match choices.get(name) {
        Some(chosen) => *chosen,
        None => None,
    }
}

/// The choice after one candidate more of this name.
fn better_choice(
    before: Option<(Version, Place)>,
    candidate: &Candidate,
) -> Option<(Version, Place)>
    ensures { (seen : List Candidate) → IsChoice seen candidate.now.name before
        → IsChoice (seen ++ candidate.now ∷ []) candidate.now.name result }
{
    if improves(candidate, &before) {
        Some((candidate.version, candidate.place))
    } else {
        before
    }
}

/// Whether the candidate is usable and better than what is best so far.
fn improves(candidate: &Candidate, before: &Option<(Version, Place)>) -> bool
    ensures { IsTrue result ↔ Improves candidate.now before.now }
{
    match before {
        None => candidate.usable,
        Some((version, place)) => {
            candidate.usable && is_better(candidate.version, candidate.place, *version, *place)
        }
    }
}

fn picks_of(alloc: Global, choices: &Choices) -> Result<Vec<Pick>, AllocError>
    ensures picks { IfOk result (λ picks. picks.items ≡ map pick_of choices.now.entries) }
    ensures ascending { IsStrictlySortedBy (slice_cmp nat_cmp) (keys_of choices.now.entries) }
{
    let mut picks = Vec::with_capacity(alloc, choices.len())?;
    for (name, chosen) in choices {
        picks.push(Pick {
            name: *name,
            chosen: *chosen,
        })?;
    }
    Ok(picks)
}
