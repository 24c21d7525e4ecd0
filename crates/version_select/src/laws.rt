//! Laws of the selection, over all candidates.
ghost use Rattle.std.specs.Prelude.{◌≡◌, ℕ, List, Option, None};
ghost use Rattle.apex_base.specs.declared.records.Pick.{Pick};
ghost use Rattle.apex_base.specs.declared.records.Place.{Place};
ghost use Rattle.version_select.specs.declared.candidate.Candidate.{Candidate};
ghost use Rattle.version_select.specs.Selecting.{NoneUsable, IsChoice, ArePicks};

/// Candidates have one list of picks.
pub fn picks_are_one()
    ensures { (candidates : List Candidate) (a b : List Pick) → ArePicks candidates a → ArePicks candidates b → a ≡ b }
{}

/// Where no candidate of a name is usable, nothing is chosen for it.
pub fn nothing_usable_nothing_chosen()
    ensures { (candidates : List Candidate) (name : List ℕ) (chosen : Option (ℕ × Place))
        → IsChoice candidates name chosen → NoneUsable candidates name → chosen ≡ None }
{}
