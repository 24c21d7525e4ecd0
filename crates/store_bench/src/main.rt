//! Runs one measure of the row store: `bench/run store` gives the words, and reads what is printed.
#![tactic(auto)]

mod fill;
mod measures;
mod watch;
mod why;

use crate::measures::{bare_file, commits_file, commits_memory, make_half, open};
use crate::why::Why;
use apex_base::Scale;
use std::env;

fn main(rt: HostRuntime) -> Result<(), Why> {
    let mut words = Vec::new(rt.alloc());
    for word in env::args(&rt)?.skip(1) {
        words.push(word).map_err(|_| Why::NoMemory)?;
    }
    match words.as_slice() {
        [measure, path] if measure.as_str() == "open" => open(&rt, path.as_str()),
        [measure, count, place] => run(
            &rt,
            measure.as_str(),
            number(count.as_str())?,
            place.as_str(),
        ),
        _ => Err(Why::Usage),
    }
}

fn run(rt: &HostRuntime, measure: &str, count: u32, place: &str) -> Result<(), Why> {
    match measure {
        "commits-file" => commits_file(rt, count, place),
        "bare-file" => bare_file(rt, count, place),
        "commits-memory" => commits_memory(rt, count, scale(place)?),
        "make-half" => make_half(rt, count, place),
        _ => Err(Why::Usage),
    }
}

fn number(word: &str) -> Result<u32, Why> {
    word.parse().map_err(|_| Why::Usage)
}

fn scale(word: &str) -> Result<Scale, Why> {
    match word {
        "small" => Ok(Scale::Small),
        "standard" => Ok(Scale::Standard),
        _ => Err(Why::Usage),
    }
}
