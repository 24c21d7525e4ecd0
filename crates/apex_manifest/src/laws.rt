//! A law of manifests.
ghost use Rattle.std.specs.Prelude.{◌≡◌, ℕ, List, IsTrue, Ok};
ghost use Rattle.apex_base.specs.Ranges.{IsVersion};
ghost use Rattle.apex_base.specs.Text.{is_name};
ghost use Rattle.apex_manifest.specs.declared.manifest.Manifest.{Manifest};
ghost use Rattle.apex_manifest.specs.Manifest.{manifest_of};

/// A law, for the proofs of callers: the name that a manifest says is a name, and its version is in the range of
/// versions.
pub fn manifests_are_in_range()
    ensures range { (bytes : List ℕ) (manifest : Manifest) → manifest_of bytes ≡ Ok manifest
        → IsTrue (is_name manifest.name) × IsVersion manifest.version }
{}
