//! Sessions by their ids, in lists that ascend by id, and parts by their names: `docs/sessions.md`. A look for a session
//! takes as many steps as the list's length has binary digits.
ghost use Rattle.std.specs.Prelude.{◌≡◌, ◌≤◌, ◌<◌, None, Some, IfOk, MatchResult, find, insert, length};
ghost use Rattle.std.specs.Prelude.{slice_get, slice_set};
ghost use Rattle.std.specs.Option.{option_copied};
ghost use Rattle.std.specs.List.Sorted.{IsBinarySearchResult, IsSearchInRange};
ghost use Rattle.std.specs.Ordering.{nat_cmp};
ghost use Rattle.std.specs.Str.{bytes_eq};
ghost use Rattle.apex_base.specs.declared.records.Record.{Record};
ghost use Rattle.apex_base.specs.Sessions.{Ascend, session_of, with_session};

use crate::numbers::SessionId;
use crate::records::{Part, Record};
use crate::text::Name;

/// The place of the session of an id, or the place where one would stand. It takes no memory.
pub fn place_of(sessions: &[Record], id: SessionId) -> Result<usize, usize>
    requires { Ascend sessions.now }
    ensures found { MatchResult result
        (λ i. (i < length sessions.now) × (session_of sessions.now id ≡ slice_get sessions.now i))
        (λ i. (i ≤ length sessions.now) × (session_of sessions.now id ≡ None)) }
    ensures id { IfOk result (λ i. (r : Record) → slice_get sessions.now i ≡ Some r → r.id ≡ id) }
    ensures place { (s : Record) → s.id ≡ id → MatchResult result
        (λ i. with_session s sessions.now ≡ slice_set sessions.now i s)
        (λ i. with_session s sessions.now ≡ insert sessions.now i s) }
{
    search(sessions, u64::from(id.0))
}

/// The session of an id, by its number; None if there is none. It takes no memory.
pub fn session_of<'a>(sessions: &'a [Record], number: u64) -> Option<&'a Record>
    requires { Ascend sessions.now }
    ensures { option_copied result ≡ session_of sessions.now (record { 0 = number }) }
{
    match search(sessions, number) {
        Ok(place) => Some(&sessions[place]),
        Err(_) => None,
    }
}

/// The first part of a name; None if there is none. It takes no memory.
pub fn part_of<'a>(parts: &'a [Part], name: &Name) -> Option<&'a Part>
    ensures { option_copied result ≡ find (λ p. bytes_eq p.name name.now) parts.now }
{
    parts.iter().find(|p| p.name.is_same(name))
}

fn search(sessions: &[Record], number: u64) -> Result<usize, usize>
    ensures range { IsSearchInRange result (length sessions.now) }
    ensures found { IsBinarySearchResult (λ r. nat_cmp r.id.0 number) sessions.now result }
{
    sessions.binary_search_by_key(&number, |r| u64::from(r.id.0))
}
