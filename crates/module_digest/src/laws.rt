//! What the definitions say together.
ghost use Rattle.std.specs.Prelude.{◌≡◌, ◌↔◌, Some, None, codes};
ghost use Rattle.std.specs.FinMap as fin;
ghost use Rattle.module_digest.specs.Faults.{listing_fault};
ghost use Rattle.module_digest.specs.Listing.{listing};

use crate::known::known;
use apex_base::Module;

/// A law: a module has no fault of its listing if and only if its listing is the one that it should have.
pub fn sound_listing_is_the_listing(directory: &Module)
    ensures { (listing_fault directory.now ≡ None)
        ↔ (fin.get directory.now (codes "apex_digests") ≡ Some (listing directory.now)) }
{
    known(directory);
}
