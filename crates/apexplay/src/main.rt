//! Plays a device script from standard input, and writes its text to standard output.
#![tactic(auto)]

ghost use Rattle.std.specs.Prelude.{◌≡◌, ◌⊎◌, IfErr};

mod play;
mod run;
mod streams;
#[cfg(test)]
mod tests;

use crate::run::run;
use device_play::Status;
use std::process::ExitCode;
use std::rt::Env;
use std::{env, io};

/// The words after the program's name, or the status at which the program ends without them.
fn words(rt: &(impl Env + AllocGlobal)) -> Result<Vec<String>, Status>
    ensures { IfErr result (λ status. (status ≡ Status.Usage) ⊎ (status ≡ Status.Memory)) }
{
    let Ok(args) = env::args(rt) else {
        return Err(Status::Usage);
    };
    let mut words = Vec::new(rt.alloc());
    for word in args.skip(1) {
        if words.push(word).is_err() {
            return Err(Status::Memory);
        }
    }
    Ok(words)
}

fn main(rt: HostRuntime) -> ExitCode {
    let words = words(&rt);
    let (input, output) = (rt.reader(), io::writer(&rt));
    ExitCode::from(run(rt.alloc(), words, input, output, &mut rt.stderr()).number)
}
