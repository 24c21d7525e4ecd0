//! A module with what its check gave, so that no call checks it again: `docs/formats/module.md`.
ghost use Rattle.std.specs.Prelude.{◌≡◌, IfOk};
ghost use Rattle.apex_world.specs.Soundness.{checked};

use apex_base::{Boxed, ModuleFault};
use apex_manifest::{Manifest, ManifestWhy};
use apex_world::SharedModule;
use std::alloc::{AllocError, Global};
use std::marker::Model;

/// A module, and what its manifest says where it is sound, or else its first fault. A contract sees its files.
#[derive(Drop)]
pub struct CheckedModule {
    content: SharedModule,
    said: Result<Manifest, Boxed<ModuleFault>>,
}

impl Model for CheckedModule {
    ghost use Rattle.std.specs.Prelude.{◌≡◌, ℕ, List};
    ghost use Rattle.std.specs.Ordering.{nat_cmp};
    ghost use Rattle.std.specs.Cmp.Lexicographic.{slice_cmp};
    ghost use Rattle.std.specs.Coded.{coded_list, coded_ℕ};
    ghost use Rattle.std.specs.FinMap as fin;
    ghost use Rattle.apex_world.specs.Soundness.{checked};

    ghost Value = { fin.FinMap (slice_cmp nat_cmp) (List ℕ) };

    ghost coded = { fin.code (coded_list coded_ℕ) (coded_list coded_ℕ) };

    ghost view = { λ part. part.content };

    ghost invariant = { λ part. part.said ≡ checked part.content };
}

impl CheckedModule {
    /// Checks a module: each of its files is hashed once. Fails only if memory runs out.
    pub(crate) fn of(alloc: Global, content: SharedModule) -> Result<Self, AllocError>
        ensures { IfOk result (λ part. part ≡ content) }
    {
        let said = check(alloc, &content)?;
        Ok(CheckedModule { content, said })
    }

    /// The module.
    pub(crate) fn content(&self) -> &SharedModule
        ensures { result.now ≡ self.now }
    {
        &self.content
    }

    /// What the manifest says of a sound module, or the module's first fault.
    pub(crate) fn said(&self) -> &Result<Manifest, Boxed<ModuleFault>>
        ensures { result.now ≡ checked self.now }
    {
        &self.said
    }
}

fn check(
    alloc: Global,
    content: &SharedModule,
) -> Result<Result<Manifest, Boxed<ModuleFault>>, AllocError>
    ensures { IfOk result (λ said. said ≡ checked content.now) }
{
    match content.check(alloc) {
        Ok(manifest) => Ok(Ok(manifest)),
        Err(ManifestWhy::Fault(fault)) => Ok(Err(Boxed::new(alloc, fault)?)),
        Err(ManifestWhy::NoMemory) => Err(AllocError),
    }
}
