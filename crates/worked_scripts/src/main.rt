//! Plays the worked scripts of the files that its arguments name, and prints how many each file has. A script that
//! doesn't give what is written below it is printed with what it gave. How such a file is written: `README.md`.
#![tactic(auto)]

mod notes;
mod outcome;

use crate::notes::{Worked, read_notes};
use crate::outcome::outcome;
use std::alloc::Global;
use std::{env, fs, io};

/// What a script gave in place of what is written.
fn difference(alloc: Global, worked: &Worked, given: &[u8]) -> io::Result<String> {
    let wanted = String::from_utf8_lossy(alloc, &worked.wanted)?;
    let given = String::from_utf8_lossy(alloc, given)?;
    Ok(format!(in alloc; "line {}: wanted\n{wanted}but got\n{given}", worked.line)?)
}

fn main(rt: HostRuntime) -> io::Result<()> {
    for file in env::args(&rt)?.skip(1) {
        let notes = read_notes(rt.alloc(), &fs::read(&rt, file.as_str())?)?;
        for worked in &notes {
            let given = outcome(rt.alloc(), &worked.script)?;
            if given.as_slice() != worked.wanted.as_slice() {
                println!(rt; "{file} {}", difference(rt.alloc(), worked, &given)?)?;
            }
        }
        println!(rt; "{file}: {} scripts", notes.len())?;
    }
    Ok(())
}
