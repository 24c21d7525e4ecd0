//! Candidates, and which of two is better.
ghost use Rattle.std.specs.Prelude.{◌↔◌, IsTrue};
ghost use Rattle.version_select.specs.Selecting.{offered, IsBetter};

use apex_base::{Name, Place, Version};

/// A module that may be chosen for its name. It is usable where a boot could activate it.
#[derive(Clone, Copy)]
pub struct Candidate {
    pub name: Name,
    pub version: Version,
    pub place: Place,
    pub usable: bool,
}

/// Whether `a` is better than `b`: its version is greater, or they are equal and `a` alone is on data.
pub fn better(a: &Candidate, b: &Candidate) -> bool
    ensures { IsTrue result ↔ IsBetter (offered a.now) (offered b.now) }
{
    is_better(a.version, a.place, b.version, b.place)
}

/// The same of a version at a place.
pub(crate) fn is_better(version: Version, place: Place, than: Version, than_place: Place) -> bool
    ensures { IsTrue result ↔ IsBetter (version, place) (than, than_place) }
{
    version > than || (version == than && place == Place::Data && than_place != Place::Data)
}
