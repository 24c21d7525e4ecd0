//! How long a record's spelling is, so that its memory is taken once.
ghost use Rattle.std.specs.Prelude.{◌≡◌, ◌≤◌, ◌+◌, [], length};
ghost use Rattle.apex_base.specs.Spelling.{cause_text, target_text, part_text, parts_text, record_text};
ghost use Rattle.session_record.specs.Room.{HasRoom};

use apex_base::{Cause, Name, Part, Print, Record, Target};

/// The length of the record's spelling.
pub fn record_len(value: &Record) -> usize
    requires { HasRoom value.now }
    ensures { result ≡ length (record_text value.now) }
{
    let front = 22 + print_len(&value.print) + cause_len(&value.cause);
    front + parts_len(value.parts.as_slice())
}

fn cause_len(cause: &Option<Cause>) -> usize
    ensures value { result ≡ length (cause_text cause.now []) }
    ensures small { result ≤ 67 }
{
    match cause {
        None | Some(Cause::Reverted | Cause::OtherBuild) => 1,
        Some(Cause::Superseded(_)) => 5,
        Some(Cause::Part { name, .. }) => 3 + name_len(name),
    }
}

fn parts_len(parts: &[Part]) -> usize
    requires { length parts.now ≤ 255 }
    ensures value { result ≡ length (parts_text [] parts.now []) }
    ensures small { result ≤ 23205 }
{
    let mut len = 0;
    for part in parts {
        len += 4 + part_len(part);
    }
    len
}

fn part_len(part: &Part) -> usize
    ensures value { result ≡ length (part_text part.now []) }
    ensures small { result ≤ 87 }
{
    9 + name_len(&part.name) + target_len(&part.target)
}

fn target_len(target: &Target) -> usize
    ensures value { result ≡ length (target_text target.now []) }
    ensures small { result ≤ 14 }
{
    match target {
        Target::Preinstalled => 1,
        Target::Module { .. } => 14,
    }
}

#[tactic(auto, using(crate::proofs::Texts::name_short))]
fn name_len(name: &Name) -> usize
    ensures value { result ≡ length name.now }
    ensures small { result ≤ 64 }
{
    name.as_bytes().len()
}

#[tactic(auto, using(crate::proofs::Texts::print_short))]
fn print_len(print: &Print) -> usize
    ensures value { result ≡ length print.now }
    ensures small { result ≤ 64 }
{
    print.as_bytes().len()
}
