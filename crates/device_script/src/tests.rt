//! What a script makes, worked out by hand from `docs/formats/script.md`, and the printed words of its faults. Bad lines
//! are worked scripts of the crate `worked_scripts`.
use crate::{LineFault, ScriptBoot, ScriptWhy, read_script};
use apex_base::{Boxed, ModuleFault, Name, Scale, Version};
use apex_manifest::ManifestWhy;
use apex_world::{CallRef, Placed, SharedModule};
use std::alloc::{AllocError, Global};
use std::test::Fail;

/// The example of the format's page.
const EXAMPLE: &str =
    "# A module of three files, updated once by one of the short form.\nscale small\nmodule m\ntext apex_manifest.json {\"name\":\"a\",\"version\":5}\nfile bin/run 7f454c46\nseal\ndone\n\nimage S1B2\npre $m\nboot 0 1\nsubmit 7 plain a@6\nready 7\nboot 1000 4\nsuccess 2000 7\n";

fn module_text(alloc: Global, name: &Name, version: Version) -> Result<String, Fail> {
    let name = str::from_utf8(name.as_bytes())?;
    Ok(format!(in alloc; "{name}@{}", version.number())?)
}

/// The name, the version and the weight of a module, or why its manifest doesn't read.
fn content_text(alloc: Global, content: &SharedModule) -> Result<String, Fail> {
    match content.manifest(alloc) {
        Err(ManifestWhy::NoMemory) => Err(AllocError.into()),
        Err(ManifestWhy::Fault(fault)) => Ok(format!(in alloc; "{fault}")?),
        Ok(m) => {
            let text = module_text(alloc, &m.name, m.version)?;
            Ok(format!(in alloc; "{text}/{}", content.weight())?)
        }
    }
}

fn call_text(alloc: Global, call: &CallRef) -> Result<String, Fail> {
    match call {
        CallRef::Submit {
            id,
            children,
            rollback,
            parts,
        } => {
            let children = children.len();
            let mut text = format!(in alloc; "submit {} {rollback} {children}", id.0)?;
            for part in *parts {
                text.push_str(" ")?;
                text.push_str(&content_text(alloc, part)?)?;
            }
            Ok(text)
        }
        CallRef::Ready { id } => Ok(format!(in alloc; "ready {}", id.0)?),
        CallRef::Abort { id } => Ok(format!(in alloc; "abort {}", id.0)?),
        CallRef::Success { time, id } => {
            Ok(format!(in alloc; "success {} {}", time.number(), id.0)?)
        }
        CallRef::StateOf { id } => Ok(format!(in alloc; "state {}", id.0)?),
        _ => Ok(format!(in alloc; "no line makes this call")?),
    }
}

/// A boot in words: its moment, workers, fingerprint and modules, and its calls, each after its lane.
pub fn boot_text(alloc: Global, boot: &ScriptBoot) -> Result<String, Fail> {
    let image = boot.order.image.get();
    let print = str::from_utf8(image.print.as_bytes())?;
    let mut text = format!(in alloc; "{} {} {print}", boot.order.time.number(), boot.workers)?;
    for part in image.modules.as_slice() {
        text.push_str(" ")?;
        text.push_str(&module_text(alloc, &part.name, part.version)?)?;
    }
    for step in boot.segments.forms() {
        let call = match step.placed() {
            Placed::Plain(call) => call_text(alloc, &call)?,
            Placed::Lanes(_) => format!(in alloc; "no line makes lanes")?,
        };
        text.push_str("; 0 ")?;
        text.push_str(&call)?;
    }
    Ok(text)
}

#[test]
fn the_example_of_the_page_is_read(rt: HostRuntime) -> Result<(), Fail> {
    let script = read_script(rt.alloc(), EXAMPLE.as_bytes())?;
    assert_eq!(rt; script.scale, Scale::Small);
    let boots = script.boots.as_slice();
    assert_eq!(rt; boots.len(), 2);
    // {"name":"a","version":6} has 24 bytes, its line in the listing 84, and each file weighs 256 more.
    assert_eq!(rt;
        boot_text(rt.alloc(), &boots[0])?.as_str(),
        "0 1 S1B2 a@5; 0 submit 7 false 0 a@6/620; 0 ready 7"
    );
    assert_eq!(rt;
        boot_text(rt.alloc(), &boots[1])?.as_str(),
        "1000 4 S1B2 a@5; 0 success 2000 7"
    );
    Ok(())
}

#[test]
fn a_script_is_read_past_comments_spaces_and_returns(rt: HostRuntime) -> Result<(), Fail> {
    let bytes = b"# any byte: \xff\t\r\n\r\n   \n scale  small \r\n#\nimage P:1\npre a.B_2@7\n\
        pre c@9223372036854775807\nboot 0 1\npre d@1\n submit 4294967295   plain a.B_2@8\n\
        ready 4294967295\n  #\nboot 5 64\nsuccess 9007199254740991 0";
    let script = read_script(rt.alloc(), bytes)?;
    assert_eq!(rt; script.scale, Scale::Small);
    let boots = script.boots.as_slice();
    assert_eq!(rt; boots.len(), 2);
    assert_eq!(rt;
        boot_text(rt.alloc(), &boots[0])?.as_str(),
        "0 1 P:1 a.B_2@7 c@9223372036854775807; 0 submit 4294967295 false 0 a.B_2@8/624; 0 ready 4294967295"
    );
    assert_eq!(rt;
        boot_text(rt.alloc(), &boots[1])?.as_str(),
        "5 64 P:1 a.B_2@7 c@9223372036854775807 d@1; 0 success 9007199254740991 0"
    );
    Ok(())
}

#[test]
fn a_fault_prints_its_word(rt: HostRuntime) -> Result<(), Fail> {
    let no_listing = LineFault::BadModule {
        fault: Boxed::new(rt.alloc(), ModuleFault::BadListing { line: 7 })?,
    };
    let table = [
        (LineFault::TooLong, "too-long"),
        (LineFault::BadByte, "bad-byte"),
        (LineFault::UnknownWord, "unknown-word"),
        (LineFault::NotYet, "not-yet"),
        (LineFault::BadPlace, "bad-place"),
        (LineFault::Words, "words"),
        (LineFault::BadWord { word: 3 }, "bad-word 3"),
        (LineFault::NoLabel { word: 4 }, "no-label 4"),
        (no_listing, "bad-module bad-listing 7"),
        (LineFault::Twice, "twice"),
        (LineFault::Full, "full"),
        (LineFault::Unended, "unended"),
    ];
    for (fault, word) in table {
        assert_eq!(rt; fault.to_string(rt.alloc())?.as_str(), word);
    }
    let told = ScriptWhy::Bad {
        line: 7,
        why: LineFault::BadWord { word: 2 },
    };
    assert_eq!(rt;
        told.to_string(rt.alloc())?.as_str(),
        "script line 7 bad-word 2"
    );
    assert_eq!(rt;
        ScriptWhy::NoMemory.to_string(rt.alloc())?.as_str(),
        "no memory"
    );
    Ok(())
}
