//! What names held before a session was activated, and which session was activated last.
ghost use Rattle.std.specs.Prelude.{◌≡◌, not};
ghost use Rattle.std.specs.List.{list_all, list_any};
ghost use Rattle.std.specs.List.Sorted.{IsSorted};
ghost use Rattle.std.specs.Option.{option_copied};
ghost use Rattle.apex_base.specs.Held.{before, is_undoable};
ghost use Rattle.session_check.specs.declared.marks.Which.TheVariants.{Succeeded};
ghost use Rattle.session_check.specs.Before.{AreDated, target_of_part, target_in, is_above};
ghost use Rattle.session_check.specs.Marks.{mark_cmp, has_later, AreMarks};

use crate::marks::Mark;
use crate::search::{has_later, last_before};
use apex_base::{Name, Part, Record, Target, part_of, session_of};

/// The target that a name held before a session was activated, by the marks of those that succeeded.
pub(crate) fn before(sessions: &[Record], marks: &[Mark], x: &Record, name: &Name) -> Target
    requires dated { AreDated sessions.now }
    requires marks { AreMarks Succeeded sessions.now marks.now }
    ensures { result ≡ before sessions.now x.now name.now }
{
    match last_before(marks, name, x.activation) {
        None => Target::Preinstalled,
        Some(m) => target_in(session_of(sessions, u64::from(m.session)), name),
    }
}

fn target_in(r: Option<&Record>, name: &Name) -> Target
    ensures { result ≡ target_in (option_copied r.entry) name.now }
{
    match r {
        None => Target::Preinstalled,
        Some(r) => target_of(part_of(r.parts.as_slice(), name)),
    }
}

fn target_of(p: Option<&Part>) -> Target
    ensures { result ≡ target_of_part (option_copied p.entry) }
{
    match p {
        None => Target::Preinstalled,
        Some(p) => p.target,
    }
}

/// Whether a session can be undone.
pub(crate) fn any_undoable(sessions: &[Record]) -> bool
    ensures { result ≡ list_any (λ r. is_undoable r.state) sessions.now }
{
    sessions.iter().any(|r| r.state.is_undoable())
}

/// Whether each session that can be undone was activated last of those that stand for its names, by their marks.
pub(crate) fn are_above(sessions: &[Record], marks: &[Mark]) -> bool
    requires { IsSorted mark_cmp marks.now }
    ensures { result ≡ list_all (is_above marks.now) sessions.now }
{
    for r in sessions {
        if r.state.is_undoable() && !are_last(r.parts.as_slice(), marks, r.activation) {
            return false;
        }
    }
    true
}

fn are_last(parts: &[Part], marks: &[Mark], boot: u32) -> bool
    requires { IsSorted mark_cmp marks.now }
    ensures { result ≡ list_all (λ p. not (has_later marks.now p.name boot)) parts.now }
{
    match parts {
        [] => true,
        [p, rest @ ..] => !has_later(marks, &p.name, boot) && are_last(rest, marks, boot),
    }
}
