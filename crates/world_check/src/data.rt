//! Rows of data and of what sessions keep of it: what each name's weighs, and how many names there are.
ghost use Rattle.std.specs.Prelude.{◌≡◌, ◌≤◌, ◌+◌, ◌-◌, ◌<◌, ◌^◌, nat_le, None, Some, [], Decides, IfOk, length, ℕ};
ghost use Rattle.std.specs.Prelude.{if◌then◌else◌};
ghost use Rattle.std.specs.FinMap as fin;
ghost use Rattle.std.specs.Option.{option_map};
ghost use Rattle.std.specs.Str.{bytes_eq};
ghost use Rattle.apex_base.specs.Sessions.{Ascend};
ghost use Rattle.apex_world.specs.Opened.{opened, opened_boots, opened_sessions};
ghost use Rattle.row_check.specs.BadRows.{opened_rows};
ghost use Rattle.session_check.specs.LawfulSessions.{AreLawfulSessions};
ghost use Rattle.world_check.specs.DataRows.{weights_in, weighed, next_run, boots_in, counted, same_boot, Adds};
ghost use Rattle.world_check.specs.LawfulParts.{HasLawfulData};
ghost use Rattle.world_check.specs.Runs.{are_light, key_weight, run_weight};

use crate::fronts::boot_of;
use apex_base::{Record, Scale};
use row_key::front_of;
use row_map::Rows;
use std::alloc::{AllocError, Global};

/// Whether the data of each name, now and just before each boot, is within the scale.
pub(crate) fn is_lawful_data(
    alloc: Global,
    rows: &Rows,
    sessions: &[Record],
    scale: Scale,
) -> Result<bool, AllocError>
    requires right { opened_rows rows.now scale ≡ rows.now }
    requires sessions { sessions.now ≡ opened_sessions rows.now }
    requires lawful { AreLawfulSessions (opened_boots rows.now).0 sessions.now }
    ensures { IfOk result (λ lawful. Decides lawful (HasLawfulData (opened rows.now scale))) }
{
    if !are_light(rows, scale.data_weight()) {
        return Ok(false);
    }
    let boots = boots_in(alloc, rows, sessions)?;
    Ok(are_few(boots, scale.modules()))
}

/// The rows of a name, so far: the front of their keys, and what their values weigh.
#[derive(Clone, Copy)]
struct Run<'a> {
    front: &'a [u8],
    weight: u64,
}

/// Whether the values under each front weigh at most so much.
fn are_light(rows: &Rows, most: u64) -> bool
    ensures { result ≡ are_light bytes_eq most [] 0 (weights_in (fin.entries rows.now)) }
{
    let mut run = Run {
        front: &[],
        weight: 0,
    };
    for (key, value) in rows.by_key() {
        match next_run(run, key.as_slice(), value.as_slice(), most) {
            Some(next) => run = next,
            None => return false,
        }
    }
    true
}

/// The run that goes on or begins with a row, if it doesn't weigh too much.
fn next_run<'a>(run: Run<'a>, key: &'a [u8], value: &[u8], most: u64) -> Option<Run<'a>>
    ensures { option_map (λ next. (next.front.now, next.weight)) result
        ≡ next_run most (run.entry.front.now, run.entry.weight) (weighed (key.now, value.now)) }
{
    let Some(front) = front_of(key) else {
        return Some(run);
    };
    let before = weight_before(run, front);
    let weight = with_value(before, key.len() - front.len(), value.len(), most)?;
    Some(Run { front, weight })
}

/// What a run weighs before a row of this front.
fn weight_before(run: Run, front: &[u8]) -> u64
    ensures { result ≡ if bytes_eq run.entry.front.now front.now then run.entry.weight else 0 }
{
    if run.front == front { run.weight } else { 0 }
}

/// A weight with that of one more value, if it is at most so much.
fn with_value(weight: u64, key: usize, value: usize, most: u64) -> Option<u64>
    ensures { result ≡ if nat_le (weight + (key + value + 128)) most then Some (weight + (key + value + 128)) else None }
{
    let sum = weight
        .checked_add(key as u64)?
        .checked_add(value as u64)?
        .checked_add(128)?;
    if sum <= most { Some(sum) } else { None }
}

/// The boot of each front, in the order of the rows.
fn boots_in(alloc: Global, rows: &Rows, sessions: &[Record]) -> Result<Vec<u32>, AllocError>
    requires { Ascend sessions.now }
    ensures { IfOk result (λ boots. boots.items ≡ boots_in sessions.now (fin.entries rows.now)) }
{
    let mut boots = Vec::new(alloc);
    let mut last: &[u8] = &[];
    for (key, _) in rows.by_key() {
        last = add_boot(&mut boots, sessions, last, key.as_slice())?;
    }
    Ok(boots)
}

/// Adds the boot of a key's front, where that is another than the last. The last front, from then on.
fn add_boot<'a>(
    boots: &mut Vec<u32>,
    sessions: &[Record],
    last: &'a [u8],
    key: &'a [u8],
) -> Result<&'a [u8], AllocError>
    requires { Ascend sessions.now }
    ensures { IfOk result (λ next. Adds sessions.now last.now key.now boots.old.items next.now boots.new.items) }
{
    let Some(front) = front_of(key) else {
        return Ok(last);
    };
    if last == front {
        return Ok(last);
    }
    boots.push(boot_of(sessions, front))?;
    Ok(front)
}

/// Whether no boot stands in the list more often than that.
fn are_few(mut boots: Vec<u32>, most: u32) -> bool
    ensures { Decides result ((boot : ℕ) → key_weight same_boot boot (counted boots.items) ≤ most) }
{
    boots.sort_unstable();
    are_few_sorted(boots.as_slice(), most)
}

/// The same, where boots are in order.
fn are_few_sorted(boots: &[u32], most: u32) -> bool
    ensures { result ≡ are_light same_boot most 0 0 (counted boots.now) }
{
    let mut boot = 0;
    let mut count = 0;
    for b in boots {
        count = run_count(boot, count, *b);
        boot = *b;
        if count > u64::from(most) {
            return false;
        }
    }
    true
}

/// How often a boot stands in a row, with one more.
fn run_count(boot: u32, count: u64, next: u32) -> u64
    requires { count < 2 ^ 32 }
    ensures { result ≡ run_weight same_boot boot count (next, 1) }
{
    if boot == next { count + 1 } else { 1 }
}
