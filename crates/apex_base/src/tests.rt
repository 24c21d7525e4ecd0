//! What no clause says: that a call with memory succeeds, what counts as a name, and which call fails.
use crate::{
    Bytes, Failed, FilePath, Listed, MemSink, MemSource, Module, ModuleFault, Name, Print, PutWhy,
    SessionId, Shared, Sink, Source,
};
use std::alloc::Global;
use std::test::Fail;

#[test]
fn lists_and_shared_values_are_made(rt: HostRuntime) -> Result<(), Fail> {
    let mut ids = Listed::one(rt.alloc(), SessionId(1))?;
    ids.push(SessionId(2))?;
    assert_eq!(rt; ids.as_slice(), [SessionId(1), SessionId(2)].as_slice());

    let first = Shared::new(rt.alloc(), SessionId(7))?;
    let second = first.share()?;
    let Err(first) = first.into_inner() else {
        return Err(Fail::new("one of two owners took the value"));
    };
    assert_eq!(rt; *first.get(), SessionId(7));
    drop(second);
    let Ok(value) = first.into_inner() else {
        return Err(Fail::new("the only owner got no value"));
    };
    assert_eq!(rt; value, SessionId(7));
    Ok(())
}

#[test]
fn names_and_fingerprints_are_told_apart(rt: HostRuntime) {
    // Of 64 bytes, and of 65.
    let full = "com.example.0123456789.0123456789.0123456789.0123456789.01234567";
    let too_long = "com.example.0123456789.0123456789.0123456789.0123456789.012345678";
    // A phone's build.
    let build = "google/raven/raven:12/SD1A.210817.023/7725764:user/release-keys";
    for (text, name, print) in [
        ("com.android.adbd", true, true),
        ("A_z.09", true, true),
        ("", false, false),
        ("a-b", false, true),
        ("a b", false, false),
        ("a\u{7f}", false, false),
        ("\u{e4}", false, false),
        (build, false, true),
        (full, true, true),
        (too_long, false, false),
    ] {
        assert_eq!(rt;
            Name::read(text.as_bytes()).is_some(),
            name,
            "the name {text:?}"
        );
        assert_eq!(rt;
            Print::read(text.as_bytes()).is_some(),
            print,
            "the fingerprint {text:?}"
        );
    }
}

fn path(text: &str) -> Result<FilePath, Fail> {
    Ok(FilePath::read(text.as_bytes()).ok_or("a path")?)
}

#[test]
fn paths_are_segments_joined_by_slashes(rt: HostRuntime) {
    // Of 128 bytes, and of 129.
    let full =
        "apex/0123456789/0123456789/0123456789/0123456789/0123456789/0123456789/0123456789/0123456789/0123456789/0123456789/0123456789/01";
    let too_long =
        "apex/0123456789/0123456789/0123456789/0123456789/0123456789/0123456789/0123456789/0123456789/0123456789/0123456789/0123456789/012";
    for (text, is_path) in [
        ("apex_manifest.json", true),
        ("etc/classpaths/...", true),
        ("~", true),
        ("a/.b/c..", true),
        ("", false),
        ("/a", false),
        ("a/", false),
        ("a//b", false),
        (".", false),
        ("a/..", false),
        ("./a", false),
        ("a b", false),
        ("a\u{7f}", false),
        (full, true),
        (too_long, false),
    ] {
        assert_eq!(rt;
            FilePath::read(text.as_bytes()).is_some(),
            is_path,
            "the path {text:?}"
        );
    }
}

fn zeros(alloc: Global, len: usize) -> Result<Bytes, Fail> {
    Ok(Bytes::shared(alloc, vec![in alloc; 0; len]?)?)
}

#[test]
fn bytes_are_the_same_for_each_owner(rt: HostRuntime) -> Result<(), Fail> {
    for len in [0, 1, 255, 256, 1048576] {
        let bytes = zeros(rt.alloc(), len)?;
        let other = bytes.share(rt.alloc())?;
        assert_eq!(rt; other.as_slice().len(), len);
        assert_eq!(rt; bytes.as_slice().len(), len);
    }
    assert!(rt; Bytes::new(rt.alloc()).as_slice().is_empty());
    Ok(())
}

#[test]
fn a_module_has_64_files_of_a_mebibyte_at_most(rt: HostRuntime) -> Result<(), Fail> {
    let mut directory = Module::new(rt.alloc());
    for number in 0..64u32 {
        let name = format!(in rt.alloc(); "f{number}")?;
        let put = directory.put(path(name.as_str())?, zeros(rt.alloc(), 1)?);
        assert_eq!(rt; put, Ok(()));
    }
    assert_eq!(rt; directory.weight(), 64 * 257);
    let other = path("other")?;
    assert_eq!(rt;
        directory.put(other, zeros(rt.alloc(), 1)?),
        Err(PutWhy::Files)
    );
    let first = path("f0")?;
    let large = Err(PutWhy::Large { len: 1048577 });
    assert_eq!(rt; directory.put(first, zeros(rt.alloc(), 1048577)?), large);
    assert_eq!(rt; directory.put(first, zeros(rt.alloc(), 1048576)?), Ok(()));
    assert_eq!(rt; directory.weight(), 63 * 257 + 1048832);
    assert!(rt; directory.remove(&first));
    assert!(rt; !directory.remove(&first));
    assert!(rt; directory.get(&first).is_none());
    assert_eq!(rt; directory.put(other, zeros(rt.alloc(), 0)?), Ok(()));
    assert_eq!(rt; directory.get(&other), Some(b"".as_slice()));
    Ok(())
}

#[test]
fn faults_are_printed(rt: HostRuntime) -> Result<(), Fail> {
    let a = path("lib/a.so")?;
    let differs = ModuleFault::Differs {
        path: a,
        listed: [10; 32],
        actual: [255; 32],
    };
    let cases = [
        (ModuleFault::NoManifest, "no-manifest"),
        (ModuleFault::NotJson, "not-json"),
        (ModuleFault::NoName, "no-name"),
        (ModuleFault::BadName, "bad-name"),
        (ModuleFault::NoVersion, "no-version"),
        (ModuleFault::BadVersion, "bad-version"),
        (ModuleFault::NoListing, "no-listing"),
        (ModuleFault::BadListing { line: 3 }, "bad-listing 3"),
        (ModuleFault::Unlisted { path: a }, "unlisted lib/a.so"),
        (ModuleFault::Absent { path: a }, "absent lib/a.so"),
        (
            differs,
            "differs lib/a.so 0a0a0a0a0a0a0a0a0a0a0a0a0a0a0a0a0a0a0a0a0a0a0a0a0a0a0a0a0a0a0a0a ffffffffffffffffffffffffffffffffffffffffffffffffffffffffffffffff",
        ),
    ];
    for (fault, words) in cases {
        assert_eq!(rt; fault.to_string(rt.alloc())?.as_str(), words);
    }
    Ok(())
}

#[test]
fn a_source_gives_its_bytes_after_a_failed_read(rt: HostRuntime) -> Result<(), Fail> {
    let mut source = MemSource::of(b"abc".to_vec(rt.alloc())?, [1].to_vec(rt.alloc())?);
    let mut into = *b"--";
    for (answer, holds) in [
        (Err(Failed), b"--"),
        (Ok(2), b"ab"),
        (Ok(1), b"cb"),
        (Ok(0), b"cb"),
    ] {
        assert_eq!(rt; source.read(&mut into), answer);
        assert_eq!(rt; into.as_slice(), holds.as_slice());
    }
    Ok(())
}

#[test]
fn a_failed_put_leaves_what_was_put(rt: HostRuntime) -> Result<(), Fail> {
    let mut sink = MemSink::with_room(rt.alloc(), 2, [2].to_vec(rt.alloc())?)?;
    for (piece, answer, holds) in [
        (b"ab", Ok(()), b"ab".as_slice()),
        (b"cd", Err(Failed), b"ab".as_slice()),
        (b"ef", Ok(()), b"abef".as_slice()),
    ] {
        assert_eq!(rt; sink.put(piece.as_slice()), answer);
        assert_eq!(rt; sink.bytes(), holds);
    }
    Ok(())
}
