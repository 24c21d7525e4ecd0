//! The lines of a listing, read once into entries.
ghost use Rattle.std.specs.Prelude.{◌≡◌, ◌≤◌, ◌<◌, length, IfSome, MatchResult};
ghost use Rattle.std.specs.Ordering.{is_lt, nat_cmp};
ghost use Rattle.std.specs.Cmp.Lexicographic.{slice_cmp};
ghost use Rattle.module_digest.specs.Listing.{is_own_path};
ghost use Rattle.hex.specs.Hex.{decode_sized};
ghost use Rattle.apex_base.specs.Answers.{Answers};
ghost use Rattle.module_digest.specs.Lines.{entry, entry_of, entry_after, entries_read};

use crate::checks::CheckWhy;
use crate::digits::{all_lower_digits, digest_of_digits};
use apex_base::{FilePath, Listed, ModuleFault, cut_first};
use std::alloc::Global;

/// What a line says of a file: its path, and the SHA-256 digest of its content.
#[derive(Clone, Copy)]
pub struct Entry {
    pub path: FilePath,
    pub digest: [u8; 32],
}

/// The entries of a listing, in order; or `BadListing` with its first bad line, counted from 1.
pub fn read_entries(alloc: Global, text: &[u8]) -> Result<Listed<Entry>, CheckWhy>
    requires { length text.now ≤ 1048576 }
    ensures { Answers result (entries_read text.now) }
{
    let mut entries = Vec::new(alloc);
    let mut before = b"".as_slice();
    let mut rest = text;
    let mut line = 1;
    while let Some((front, after)) = cut_first(rest, b'\n') {
        match entry_after(before, front) {
            Some(entry) => {
                if entries.push(entry).is_err() {
                    return Err(CheckWhy::NoMemory);
                }
            }
            None => return Err(CheckWhy::Fault(ModuleFault::BadListing { line })),
        }
        before = &front[65..];
        rest = after;
        line += 1;
    }
    if rest.is_empty() {
        Ok(Listed::of(entries))
    } else {
        Err(CheckWhy::Fault(ModuleFault::BadListing { line }))
    }
}

/// What a line says that comes after a line with the path `before`; None if it isn't good there.
#[tactic(auto, unfolding(crate::specs::Lines::is_good))]
fn entry_after(before: &[u8], line: &[u8]) -> Option<Entry>
    ensures entry { result ≡ entry_after before.now line.now }
    ensures long { IfSome result (λ entry. 65 < length line.now) }
{
    let entry = entry_of(line)?;
    let path = entry.path.as_bytes();
    if is_below(before, path) && !is_own_path(path) {
        Some(entry)
    } else {
        None
    }
}

fn is_own_path(path: &[u8]) -> bool
    ensures { result ≡ is_own_path path.now }
{
    path == b"apex_digests".as_slice()
}

fn is_below(before: &[u8], path: &[u8]) -> bool
    ensures { result ≡ is_lt (slice_cmp nat_cmp before.now path.now) }
{
    before.cmp(path).is_lt()
}

/// What a line of the right form says; None for any other line.
#[tactic(auto, unfolding(crate::specs::Lines::is_line))]
fn entry_of(line: &[u8]) -> Option<Entry>
    ensures entry { result ≡ entry_of line.now }
    ensures long { IfSome result (λ entry. 65 < length line.now) }
{
    if line.len() <= 65 {
        return None;
    }
    let digits = &line[..64];
    if !all_lower_digits(digits) {
        return None;
    }
    if line[64] != b' ' {
        return None;
    }
    let path = FilePath::read(&line[65..])?;
    entry_with(path, digits)
}

fn entry_with(path: FilePath, digits: &[u8]) -> Option<Entry>
    ensures { MatchResult (decode_sized digits.now 32)
        (λ digest. result ≡ Some (entry path digest))
        (λ e. result ≡ None) }
{
    let digest = digest_of_digits(digits)?;
    Some(Entry { path, digest })
}
