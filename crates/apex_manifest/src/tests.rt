//! What no clause says: that bytes are read where there is memory, and which bytes `serde_json` takes for what.
use crate::{ManifestWhy, read_manifest, short_manifest};
use apex_base::{ModuleFault, Name, Version};
use std::alloc::Global;
use std::test::Fail;

// What bytes are to be read as.
#[derive(Clone, Copy)]
enum Told {
    Is(&'static str, u64),
    NotJson,
    NoName,
    BadName,
    NoVersion,
    BadVersion,
}

fn is_told(alloc: Global, bytes: &[u8], told: Told) -> bool {
    match (read_manifest(alloc, bytes), told) {
        (Ok(read), Told::Is(name, version)) => {
            read.name.as_bytes() == name.as_bytes() && read.version.number() == version
        }
        (Err(ManifestWhy::Fault(ModuleFault::NotJson)), Told::NotJson) => true,
        (Err(ManifestWhy::Fault(ModuleFault::NoName)), Told::NoName) => true,
        (Err(ManifestWhy::Fault(ModuleFault::BadName)), Told::BadName) => true,
        (Err(ManifestWhy::Fault(ModuleFault::NoVersion)), Told::NoVersion) => true,
        (Err(ManifestWhy::Fault(ModuleFault::BadVersion)), Told::BadVersion) => true,
        _ => false,
    }
}

#[test]
fn manifests_are_read_and_their_faults_are_told(rt: HostRuntime) -> Result<(), Fail> {
    for (bytes, told) in [
        (
            br#"{"name":"a","version":9223372036854775807}"#.as_slice(),
            Told::Is("a", 9223372036854775807),
        ),
        (
            br#" { "version" : 1 , "name" : "com.android.adbd" } "#.as_slice(),
            Told::Is("com.android.adbd", 1),
        ),
        // A name of 64 bytes, and one of 65.
        (
            br#"{"name":"com.example.0123456789.0123456789.0123456789.0123456789.01234567","version":2}"#.as_slice(),
            Told::Is(
                "com.example.0123456789.0123456789.0123456789.0123456789.01234567",
                2,
            ),
        ),
        (
            br#"{"name":"com.example.0123456789.0123456789.0123456789.0123456789.012345678","version":2}"#.as_slice(),
            Told::BadName,
        ),
        // An escape is what it spells, the last of repeated members counts, and other members are passed over.
        (
            br#"{"name":"\u0061","version":2}"#.as_slice(),
            Told::Is("a", 2),
        ),
        (
            br#"{"n\u0061me":"a","version":2}"#.as_slice(),
            Told::Is("a", 2),
        ),
        (
            br#"{"name":1,"version":0,"name":"b","version":3}"#.as_slice(),
            Told::Is("b", 3),
        ),
        (
            br#"{"name":"b","version":3,"version":0}"#.as_slice(),
            Told::BadVersion,
        ),
        (
            br#"{"code":{"name":"c"},"name":"a","list":[null,-1.5],"version":2}"#.as_slice(),
            Told::Is("a", 2),
        ),
        (b"".as_slice(), Told::NotJson),
        (b"{".as_slice(), Told::NotJson),
        (b"[]".as_slice(), Told::NotJson),
        (br#""name""#.as_slice(), Told::NotJson),
        (br#"{"name":"a","version":2}}"#.as_slice(), Told::NotJson),
        (br#"{"name":"a","version":02}"#.as_slice(), Told::NotJson),
        (
            b"{\"name\":\"a\",\"version\":2,\"code\":\"\xff\"}".as_slice(),
            Told::NotJson,
        ),
        // Too large for a float, which `serde_json` refuses.
        (br#"{"name":"a","version":1e400}"#.as_slice(), Told::NotJson),
        (b"{}".as_slice(), Told::NoName),
        (br#"{"Name":"a","version":0}"#.as_slice(), Told::NoName),
        (br#"{"name":1}"#.as_slice(), Told::BadName),
        (br#"{"name":null,"version":2}"#.as_slice(), Told::BadName),
        (br#"{"name":"","version":2}"#.as_slice(), Told::BadName),
        (br#"{"name":"a b","version":2}"#.as_slice(), Told::BadName),
        (br#"{"name":"a"}"#.as_slice(), Told::NoVersion),
        (
            br#"{"name":"a","version":9223372036854775808}"#.as_slice(),
            Told::BadVersion,
        ),
        (
            br#"{"name":"a","version":18446744073709551616}"#.as_slice(),
            Told::BadVersion,
        ),
        (br#"{"name":"a","version":0}"#.as_slice(), Told::BadVersion),
        (br#"{"name":"a","version":-0}"#.as_slice(), Told::BadVersion),
        (br#"{"name":"a","version":-1}"#.as_slice(), Told::BadVersion),
        (
            br#"{"name":"a","version":2.0}"#.as_slice(),
            Told::BadVersion,
        ),
        (
            br#"{"name":"a","version":2e0}"#.as_slice(),
            Told::BadVersion,
        ),
        (
            br#"{"name":"a","version":1e3}"#.as_slice(),
            Told::BadVersion,
        ),
        (
            br#"{"name":"a","version":"2"}"#.as_slice(),
            Told::BadVersion,
        ),
        (
            br#"{"name":"a","version":null}"#.as_slice(),
            Told::BadVersion,
        ),
    ] {
        assert!(rt;
            is_told(rt.alloc(), bytes, told),
            "{:?}",
            std::str::from_utf8(bytes)
        );
    }
    Ok(())
}

#[test]
fn a_short_manifest_is_written(rt: HostRuntime) -> Result<(), Fail> {
    let (Some(name), Some(version)) = (
        Name::read(b"com.android.adbd".as_slice()),
        Version::new(310000000),
    ) else {
        return Err(Fail::new("no name or no version"));
    };
    let text = short_manifest(rt.alloc(), &name, version)?;
    assert_eq!(rt;
        text.as_slice(),
        br#"{"name":"com.android.adbd","version":310000000}"#.as_slice()
    );
    Ok(())
}
