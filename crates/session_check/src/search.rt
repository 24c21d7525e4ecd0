//! Marks of a name before a boot, and after one, by halves.
ghost use Rattle.std.specs.Prelude.{◌≡◌, MatchOption};
ghost use Rattle.std.specs.List.Sorted.{IsSorted};
ghost use Rattle.session_check.specs.Marks.{mark_cmp, is_below, has_later, IsPlace, NoneBefore, IsLastBefore};

use crate::marks::Mark;
use apex_base::Name;
use std::cmp::Ordering;

/// The mark of the name that is of the last boot before this one.
pub(crate) fn last_before(marks: &[Mark], name: &Name, boot: u32) -> Option<Mark>
    requires { IsSorted mark_cmp marks.now }
    ensures { MatchOption result (NoneBefore marks.now name.now boot) (IsLastBefore marks.now name.now boot) }
{
    let next = place(marks, name, u64::from(boot));
    if next == 0 {
        return None;
    }
    let m = marks[next - 1];
    if m.name.is_same(name) { Some(m) } else { None }
}

/// Whether a mark of the name is of a later boot.
pub(crate) fn has_later(marks: &[Mark], name: &Name, boot: u32) -> bool
    requires { IsSorted mark_cmp marks.now }
    ensures { result ≡ has_later marks.now name.now boot }
{
    let next = place(marks, name, u64::from(boot) + 1);
    next < marks.len() && marks[next].name.is_same(name)
}

/// How many marks come before those of a name and a boot.
fn place(marks: &[Mark], name: &Name, boot: u64) -> usize
    requires { IsSorted mark_cmp marks.now }
    ensures { IsPlace marks.now name.now boot result }
{
    marks.partition_point(|m| is_below(m, name, boot))
}

fn is_below(m: &Mark, name: &Name, boot: u64) -> bool
    ensures { result ≡ is_below name.now boot m.now }
{
    match m.name.cmp(name) {
        Ordering::Less => true,
        Ordering::Equal => u64::from(m.boot) < boot,
        Ordering::Greater => false,
    }
}
