//! Marks of sessions: what two sessions may not have in common, for each name.
ghost use Rattle.std.specs.Prelude.{◌≡◌, ◌++◌, IfOk, OnOk, flat_map, map};
ghost use Rattle.session_check.specs.Marks.{counts, mark_of, marks_of, mark_cmp, id_numbers, AreMarks};

use apex_base::{Name, Part, Record, RollbackState, SessionId};
use std::alloc::{AllocError, Global};
use std::cmp::Ordering;

/// A name, the boot that activated a session of the name, and the session. Names stand last, since numbers are cheaper
/// to compare.
#[derive(Clone, Copy, PartialEq, Eq, PartialOrd, Ord)]
pub(crate) struct Mark {
    pub(crate) boot: u32,
    pub(crate) session: u32,
    pub(crate) name: Name,
}

/// Which sessions are marked.
#[derive(Clone, Copy)]
pub(crate) enum Which {
    Unfinished,
    Available,
    Activated,
    Standing,
    Succeeded,
}

/// The marks of these sessions, by name and then by boot.
pub(crate) fn sorted_marks(
    alloc: Global,
    sessions: &[Record],
    which: Which,
) -> Result<Vec<Mark>, AllocError>
    ensures { IfOk result (λ marks. AreMarks which sessions.now marks.items) }
{
    let mut marks = marks(alloc, sessions, which)?;
    marks.sort_by(mark_cmp)?;
    Ok(marks)
}

fn mark_cmp(m: &Mark, n: &Mark) -> Ordering
    ensures { result ≡ mark_cmp m.now n.now }
{
    m.name
        .cmp(&n.name)
        .then(m.boot.cmp(&n.boot))
        .then(m.session.cmp(&n.session))
}

/// The marks of these sessions.
pub(crate) fn marks(
    alloc: Global,
    sessions: &[Record],
    which: Which,
) -> Result<Vec<Mark>, AllocError>
    ensures { IfOk result (λ marks. marks.items ≡ flat_map (marks_of which) sessions.now) }
{
    let mut marks = Vec::new(alloc);
    for r in sessions {
        if counts(which, r) {
            mark_parts(&mut marks, which, r)?;
        }
    }
    Ok(marks)
}

fn mark_parts(marks: &mut Vec<Mark>, which: Which, r: &Record) -> Result<(), AllocError>
    ensures { OnOk result (marks.new.items ≡ marks.old.items ++ map (mark_of which r.now) r.now.parts) }
{
    for p in r.parts.as_slice() {
        marks.push(mark_of(which, r, p))?;
    }
    Ok(())
}

fn counts(which: Which, r: &Record) -> bool
    ensures { result ≡ counts which r.now }
{
    match which {
        Which::Unfinished => r.state.is_unfinished(),
        Which::Available => RollbackState::is_available(r.rollback),
        Which::Activated => r.activation != 0,
        Which::Standing => r.state.is_standing(),
        Which::Succeeded => r.state.is_success(),
    }
}

fn mark_of(which: Which, r: &Record, p: &Part) -> Mark
    ensures { result ≡ mark_of which r.now p.now }
{
    match which {
        Which::Unfinished | Which::Available => Mark {
            name: p.name,
            boot: 0,
            session: 0,
        },
        Which::Activated | Which::Standing => Mark {
            name: p.name,
            boot: r.activation,
            session: 0,
        },
        Which::Succeeded => Mark {
            name: p.name,
            boot: r.activation,
            session: r.id.0,
        },
    }
}

/// The numbers of all ids that these sessions have.
pub(crate) fn id_numbers(alloc: Global, sessions: &[Record]) -> Result<Vec<u32>, AllocError>
    ensures { IfOk result (λ numbers. numbers.items ≡ flat_map id_numbers sessions.now) }
{
    let mut numbers = Vec::new(alloc);
    for r in sessions {
        numbers.push(r.id.0)?;
        add_numbers(&mut numbers, r.children.as_slice())?;
    }
    Ok(numbers)
}

fn add_numbers(numbers: &mut Vec<u32>, ids: &[SessionId]) -> Result<(), AllocError>
    ensures { OnOk result (numbers.new.items ≡ numbers.old.items ++ map (λ id. id.0) ids.now) }
{
    for id in ids {
        numbers.push(id.0)?;
    }
    Ok(())
}
