//! What no clause says: that calls with memory succeed, and what the definitions say of worked examples. The
//! digests were got by `printf '' | sha256sum`, `printf abc | sha256sum` and the like.
use crate::{CheckWhy, check_listing, listing, seal};
use apex_base::{Bytes, FilePath, Module, ModuleFault};
use std::alloc::Global;
use std::test::Fail;

const OF_NOTHING: [u8; 32] = [
    0xe3, 0xb0, 0xc4, 0x42, 0x98, 0xfc, 0x1c, 0x14, 0x9a, 0xfb, 0xf4, 0xc8, 0x99, 0x6f, 0xb9, 0x24,
    0x27, 0xae, 0x41, 0xe4, 0x64, 0x9b, 0x93, 0x4c, 0xa4, 0x95, 0x99, 0x1b, 0x78, 0x52, 0xb8, 0x55,
];

const OF_ABC: [u8; 32] = [
    0xba, 0x78, 0x16, 0xbf, 0x8f, 0x01, 0xcf, 0xea, 0x41, 0x41, 0x40, 0xde, 0x5d, 0xae, 0x22, 0x23,
    0xb0, 0x03, 0x61, 0xa3, 0x96, 0x17, 0x7a, 0x9c, 0xb4, 0x10, 0xff, 0x61, 0xf2, 0x00, 0x15, 0xad,
];

const NOTHING: &str = "e3b0c44298fc1c149afbf4c8996fb92427ae41e4649b934ca495991b7852b855";

const ABC: &str = "ba7816bf8f01cfea414140de5dae2223b00361a396177a9cb410ff61f20015ad";

const UPPER: &str = "BA7816BF8F01CFEA414140DE5DAE2223B00361A396177A9CB410FF61F20015AD";

const MANIFEST: &str = "717c0d8e9bd2adf166d58b3c5ef143718973b7952dd28dfa318b34aca71c5d21";

fn path(name: &str) -> FilePath {
    FilePath::read(name.as_bytes()).unwrap_or(FilePath::listing())
}

fn joined(alloc: Global, pieces: &[&str]) -> Result<Vec<u8>, Fail> {
    let mut bytes = Vec::new(alloc);
    for piece in pieces {
        bytes.extend_from_slice(piece.as_bytes())?;
    }
    Ok(bytes)
}

fn put(alloc: Global, directory: &mut Module, name: &str, pieces: &[&str]) -> Result<(), Fail> {
    let bytes = joined(alloc, pieces)?;
    if directory.put(path(name), Bytes::of(bytes)).is_err() {
        return Err(Fail::new("a file was refused"));
    }
    Ok(())
}

// What a check is to answer.
#[derive(Clone, Copy)]
enum Told {
    Sound,
    Bad(u32),
    Unlisted(&'static str),
    Absent(&'static str),
    Differs(&'static str, [u8; 32], [u8; 32]),
    NoListing,
}

fn fault_of(told: Told) -> ModuleFault {
    match told {
        // No check answers that.
        Told::Sound => ModuleFault::NoManifest,
        Told::Bad(line) => ModuleFault::BadListing { line },
        Told::Unlisted(name) => ModuleFault::Unlisted { path: path(name) },
        Told::Absent(name) => ModuleFault::Absent { path: path(name) },
        Told::Differs(name, listed, actual) => ModuleFault::Differs {
            path: path(name),
            listed,
            actual,
        },
        Told::NoListing => ModuleFault::NoListing,
    }
}

fn is_checked(alloc: Global, directory: &Module, told: Told) -> bool {
    match check_listing(alloc, directory) {
        Ok(()) => matches!(told, Told::Sound),
        Err(why) => why == CheckWhy::Fault(fault_of(told)),
    }
}

// A module of two files, with that listing.
fn is_answered(alloc: Global, pieces: [&str; 6], told: Told) -> Result<bool, Fail> {
    let mut directory = Module::new(alloc);
    put(alloc, &mut directory, "a", &["abc"])?;
    put(alloc, &mut directory, "c", &[])?;
    put(alloc, &mut directory, "apex_digests", &pieces)?;
    Ok(is_checked(alloc, &directory, told))
}

#[test]
fn a_sealed_module_is_sound_until_a_file_changes(rt: HostRuntime) -> Result<(), Fail> {
    let mut directory = Module::new(rt.alloc());
    put(
        rt.alloc(),
        &mut directory,
        "apex_manifest.json",
        &[r#"{"name":"x","version":2}"#],
    )?;
    put(rt.alloc(), &mut directory, "a", &["abc"])?;
    assert!(rt; is_checked(rt.alloc(), &directory, Told::NoListing));
    assert!(rt; seal(rt.alloc(), &mut directory).is_ok());
    let text = joined(
        rt.alloc(),
        &[ABC, " a\n", MANIFEST, " apex_manifest.json\n"],
    )?;
    assert_eq!(rt; directory.get(&FilePath::listing()), Some(text.as_slice()));
    assert!(rt; is_checked(rt.alloc(), &directory, Told::Sound));

    put(rt.alloc(), &mut directory, "a", &[])?;
    assert!(rt;
        is_checked(
            rt.alloc(),
            &directory,
            Told::Differs("a", OF_ABC, OF_NOTHING)
        )
    );
    put(rt.alloc(), &mut directory, "a", &["abc"])?;
    put(rt.alloc(), &mut directory, "b", &["abc"])?;
    assert!(rt; is_checked(rt.alloc(), &directory, Told::Unlisted("b")));
    directory.remove(&path("b"));
    directory.remove(&path("a"));
    assert!(rt; is_checked(rt.alloc(), &directory, Told::Absent("a")));
    Ok(())
}

#[test]
fn a_listing_of_nothing_is_sound(rt: HostRuntime) -> Result<(), Fail> {
    let mut directory = Module::new(rt.alloc());
    put(rt.alloc(), &mut directory, "apex_digests", &[])?;
    assert!(rt; is_checked(rt.alloc(), &directory, Told::Sound));
    assert!(rt; listing(rt.alloc(), &directory)?.is_empty());
    Ok(())
}

// The files are `a`, which is `abc`, and `c`, which is empty.
#[test]
fn listings_have_the_faults_that_were_meant(rt: HostRuntime) -> Result<(), Fail> {
    for (pieces, told) in [
        ([ABC, " a\n", NOTHING, " c\n", "", ""], Told::Sound),
        (["", "", "", "", "", ""], Told::Unlisted("a")),
        (["x\n", "", "", "", "", ""], Told::Bad(1)),
        (["\n", "", "", "", "", ""], Told::Bad(1)),
        ([ABC, " a", "", "", "", ""], Told::Bad(1)),
        ([ABC, " a\n", NOTHING, " c", "", ""], Told::Bad(2)),
        ([ABC, " a\n", NOTHING, " c\n", "\n", ""], Told::Bad(3)),
        ([UPPER, " a\n", NOTHING, " c\n", "", ""], Told::Bad(1)),
        ([ABC, "\ta\n", NOTHING, " c\n", "", ""], Told::Bad(1)),
        ([ABC, "  a\n", NOTHING, " c\n", "", ""], Told::Bad(1)),
        ([ABC, " \n", NOTHING, " c\n", "", ""], Told::Bad(1)),
        ([ABC, "0 a\n", NOTHING, " c\n", "", ""], Told::Bad(1)),
        ([ABC, " a\r\n", NOTHING, " c\n", "", ""], Told::Bad(1)),
        // Equal paths, descending paths, and the listing itself.
        ([ABC, " a\n", ABC, " a\n", NOTHING, " c\n"], Told::Bad(2)),
        ([NOTHING, " c\n", ABC, " a\n", "", ""], Told::Bad(2)),
        (
            [ABC, " a\n", NOTHING, " apex_digests\n", NOTHING, " c\n"],
            Told::Bad(2),
        ),
        // The least unlisted file comes before a listed one that is absent, and that before another digest.
        ([ABC, " a\n", "", "", "", ""], Told::Unlisted("c")),
        ([ABC, " a\n", ABC, " b\n", "", ""], Told::Unlisted("c")),
        (
            [NOTHING, " a\n", ABC, " b\n", NOTHING, " c\n"],
            Told::Absent("b"),
        ),
        (
            [NOTHING, " a\n", ABC, " c\n", "", ""],
            Told::Differs("a", OF_NOTHING, OF_ABC),
        ),
    ] {
        assert!(rt; is_answered(rt.alloc(), pieces, told)?, "{pieces:?}");
    }
    Ok(())
}
