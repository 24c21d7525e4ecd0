//! What the lines of module blocks make, worked out by hand from `docs/formats/script.md`.
use crate::fault::LineError;
use crate::keyword::Keyword;
use crate::line::{file_words, text_said};
use crate::read_script;
use crate::tests::boot_text;
use crate::words::cut_word;
use std::alloc::Global;
use std::test::Fail;

/// The path and the content of the file that a line says, or its fault.
fn file_text(alloc: Global, keyword: Keyword, line: &str) -> Result<String, Fail> {
    let (_, rest) = cut_word(line.as_bytes()).ok_or("a word")?;
    let said = match keyword {
        Keyword::Text => text_said(alloc, rest),
        _ => file_words(alloc, rest),
    };
    match said {
        Ok((path, content)) => {
            let path = str::from_utf8(path.as_bytes())?;
            Ok(format!(in alloc; "{path} {:?}", content.as_slice())?)
        }
        Err(LineError::Fault(fault)) => Ok(format!(in alloc; "{fault}")?),
        Err(LineError::NoMemory) => Ok(format!(in alloc; "no memory")?),
    }
}

#[test]
fn a_text_line_keeps_what_stands_after_its_path(rt: HostRuntime) -> Result<(), Fail> {
    let table = [
        ("text a x", "a [120]"),
        ("text a  x y ", "a [32, 120, 32, 121, 32]"),
        (" text   a/b x", "a/b [120]"),
        ("text a", "a []"),
        ("text a ", "a []"),
        ("text a  ", "a [32]"),
        ("text a #", "a [35]"),
        ("text", "words"),
        ("text   ", "words"),
        ("text /a x", "bad-word 2"),
    ];
    for (line, told) in table {
        assert_eq!(rt;
            file_text(rt.alloc(), Keyword::Text, line)?.as_str(),
            told,
            "at {line:?}"
        );
    }
    Ok(())
}

#[test]
fn a_file_line_has_its_content_in_hexadecimal(rt: HostRuntime) -> Result<(), Fail> {
    let table = [
        ("file a 00fF7a", "a [0, 255, 122]"),
        ("  file  a/b   0A ", "a/b [10]"),
        ("file a -", "a []"),
        ("file a", "words"),
        ("file a 00 00", "words"),
        ("file a 0", "bad-word 3"),
        ("file a 0g", "bad-word 3"),
        ("file a --", "bad-word 3"),
        ("file a -0", "bad-word 3"),
        ("file . 0", "bad-word 2"),
    ];
    for (line, told) in table {
        assert_eq!(rt;
            file_text(rt.alloc(), Keyword::File, line)?.as_str(),
            told,
            "at {line:?}"
        );
    }
    Ok(())
}

/// A block that gives the label m a module of the name a and that version.
fn module_block(alloc: Global, version: u32) -> Result<String, Fail> {
    let manifest = format!(in alloc; "{{\"name\":\"a\",\"version\":{version}}}")?;
    Ok(format!(in alloc; "module m\ntext apex_manifest.json {manifest}\ndone\n")?)
}

#[test]
fn a_label_stands_for_the_last_block_above(rt: HostRuntime) -> Result<(), Fail> {
    let first = module_block(rt.alloc(), 3)?;
    let second = module_block(rt.alloc(), 44)?;
    let script = format!(in rt.alloc();
        "scale small\n{first}image P\npre $m\nboot 0 1\nsubmit 1 plain $m\nsubmit 2 plain $m\nstate 1\n\
         {second}submit 3 plain $m\nabort 2\n"
    )?;
    let script = read_script(rt.alloc(), script.as_bytes())?;
    let boots = script.boots.as_slice();
    assert_eq!(rt; boots.len(), 1);
    // {"name":"a","version":3} has 24 bytes, and a file weighs 256 more.
    assert_eq!(rt;
        boot_text(rt.alloc(), &boots[0])?.as_str(),
        "0 1 P a@3; 0 submit 1 false 0 a@3/280; 0 submit 2 false 0 a@3/280; 0 state 1; \
         0 submit 3 false 0 a@44/281; 0 abort 2"
    );
    Ok(())
}

#[test]
fn files_are_replaced_and_removed(rt: HostRuntime) -> Result<(), Fail> {
    let table = [
        // 24 + 256, and 3 + 256 for the file b
        ("file b 001122\n", "a@3/539"),
        ("file b 001122\ntext b x\n", "a@3/537"),
        ("remove b\n", "a@3/280"),
        ("file b 00\nremove b\n", "a@3/280"),
        ("remove apex_manifest.json\n", "no-manifest"),
        ("text apex_manifest.json  {}\n", "no-name"),
        // the listing has a line of 64 digits, a space, a path of 18 bytes and a line feed: 84 bytes
        ("seal\n", "a@3/620"),
        ("seal\nseal\n", "a@3/620"),
        ("text apex_digests x\nseal\n", "a@3/620"),
    ];
    for (lines, told) in table {
        let manifest = "{\"name\":\"a\",\"version\":3}";
        let block = format!(in rt.alloc();
            "module m\ntext apex_manifest.json {manifest}\n{lines}done\n"
        )?;
        let script = format!(in rt.alloc();
            "scale small\nimage P\npre a@1\nboot 0 1\n{block}submit 1 plain $m\n"
        )?;
        let script = read_script(rt.alloc(), script.as_bytes())?;
        let wanted = format!(in rt.alloc(); "0 1 P a@1; 0 submit 1 false 0 {told}")?;
        let boots = script.boots.as_slice();
        assert_eq!(rt; boots.len(), 1);
        assert_eq!(rt;
            boot_text(rt.alloc(), &boots[0])?.as_str(),
            wanted.as_str(),
            "at {lines:?}"
        );
    }
    Ok(())
}
