//! Why a module isn't sound: `docs/formats/module.md`.
use crate::FilePath;
use std::fmt;

/// The faults of a module, in the order of the checks. Lines are counted from 1.
#[derive(Clone, Copy, Debug, PartialEq, Eq)]
pub enum ModuleFault {
    /// There is no file `apex_manifest.json`.
    NoManifest,
    /// It isn't JSON, or the JSON isn't an object.
    NotJson,
    /// It has no member `name`.
    NoName,
    /// That member isn't a string, or the string isn't a name.
    BadName,
    /// It has no member `version`.
    NoVersion,
    /// That member isn't a number written with digits alone, or isn't in the range of versions.
    BadVersion,
    /// There is no file `apex_digests`.
    NoListing,
    /// The first line of the listing that isn't of its form, is out of order, or names the listing itself.
    BadListing {
        line: u32,
    },
    /// The least file, other than the listing, that the listing lacks.
    Unlisted {
        path: FilePath,
    },
    /// The first listed path that isn't a file.
    Absent {
        path: FilePath,
    },
    /// The first listed path whose content has another SHA-256 digest.
    Differs {
        path: FilePath,
        listed: [u8; 32],
        actual: [u8; 32],
    },
}

impl fmt::Display for ModuleFault {
    fn fmt<W: fmt::Write>(&self, f: &mut fmt::Formatter<W>) -> fmt::Result {
        match self {
            ModuleFault::NoManifest => f.write_str("no-manifest"),
            ModuleFault::NotJson => f.write_str("not-json"),
            ModuleFault::NoName => f.write_str("no-name"),
            ModuleFault::BadName => f.write_str("bad-name"),
            ModuleFault::NoVersion => f.write_str("no-version"),
            ModuleFault::BadVersion => f.write_str("bad-version"),
            ModuleFault::NoListing => f.write_str("no-listing"),
            ModuleFault::BadListing { line } => write!(f, "bad-listing {line}"),
            ModuleFault::Unlisted { path } => write!(f, "unlisted {path}"),
            ModuleFault::Absent { path } => write!(f, "absent {path}"),
            ModuleFault::Differs {
                path,
                listed,
                actual,
            } => {
                write!(f, "differs {path} ")?;
                write_digest(f, listed)?;
                f.write_str(" ")?;
                write_digest(f, actual)
            }
        }
    }
}

fn write_digest<W: fmt::Write>(f: &mut fmt::Formatter<W>, digest: &[u8; 32]) -> fmt::Result {
    for byte in digest {
        write!(f, "{byte:02x}")?;
    }
    Ok(())
}
