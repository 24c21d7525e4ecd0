//! The modules that don't mount at a boot, as its script lists them.
ghost use Rattle.std.specs.Prelude.{◌≡◌, ◌&&◌, ◌==◌, not};
ghost use Rattle.std.specs.Str.{bytes_eq};
ghost use Rattle.apex_world.specs.Selection.{is_same_place, all_mount_but};

use apex_base::{Mounter, Name, Place, Version};

/// Every module mounts but those of a list.
#[derive(Clone, Copy)]
pub struct AllBut<'a> {
    pub modules: &'a [(Place, Name, Version)],
}

fn is_same_place(a: Place, b: Place) -> bool
    ensures { result ≡ is_same_place a b }
{
    match (a, b) {
        (Place::Data, Place::Data) | (Place::Pre, Place::Pre) => true,
        (Place::Data, Place::Pre) | (Place::Pre, Place::Data) => false,
    }
}

fn is_listed(listed: &(Place, Name, Version), name: &Name, version: Version, place: Place) -> bool
    ensures { result ≡ (is_same_place listed.now.0 place && bytes_eq listed.now.1 name.now && (listed.now.2 == version)) }
{
    is_same_place(listed.0, place) && listed.1.is_same(name) && listed.2 == version
}

fn is_among(modules: &[(Place, Name, Version)], name: &Name, version: Version, place: Place) -> bool
    ensures { result ≡ not (all_mount_but modules.now name.now version place) }
{
    for listed in modules {
        if is_listed(listed, name, version, place) {
            return true;
        }
    }
    false
}

impl Mounter for AllBut<'_> {
    ghost mounting = { λ all name version place. all_mount_but all.modules.now name version place };

    fn mounts(&self, name: &Name, version: Version, place: Place) -> bool {
        !is_among(self.modules, name, version, place)
    }
}
