//! Modules as the world holds them: each is in memory once, however many owners it has.
ghost use Rattle.std.specs.Prelude.{◌≡◌, ◌≤◌, ◌↔◌, codes, IsTrue, IsOk, IfOk, Ok, Some, option_map};
ghost use Rattle.std.specs.FinMap as fin;
ghost use Rattle.apex_base.specs.Answers.{Answers};
ghost use Rattle.apex_base.specs.Modules.{IsModule, module_weight};
ghost use Rattle.module_digest.specs.Listing.{listing};
ghost use Rattle.apex_world.specs.Soundness.{manifest_in, checked, is_sound, key_of, is_same_key, short_form};

use apex_base::{Bytes, FilePath, Listed, Module, ModuleFault, Name, Shared, Version};
use apex_manifest::{Manifest, ManifestWhy, read_manifest, short_manifest};
use itoa::Buffer;
use module_digest::{check_listing, seal, sound_listing_is_the_listing};
use std::alloc::{AllocError, Global};
use std::marker::Model;

/// What the manifest of a module says. The fault is `NoManifest` if it has none, otherwise that of `read_manifest`.
pub fn manifest_in(alloc: Global, directory: &Module) -> Result<Manifest, ManifestWhy>
    ensures { Answers result (manifest_in directory.now) }
{
    match directory.get(&FilePath::manifest()) {
        None => Err(ManifestWhy::Fault(ModuleFault::NoManifest)),
        Some(bytes) => read_manifest(alloc, bytes),
    }
}

/// What the manifest of a sound module says, or the module's first fault: `docs/formats/module.md`.
pub fn check_module(alloc: Global, directory: &Module) -> Result<Manifest, ManifestWhy>
    ensures { Answers result (checked directory.now) }
{
    let manifest = manifest_in(alloc, directory)?;
    check_listing(alloc, directory)?;
    Ok(manifest)
}

/// A law: a module is sound if and only if its manifest reads and its listing is the one that it should have.
pub fn sound_modules_are_sealed(directory: &Module)
    ensures { IsTrue (is_sound directory.now)
        ↔ (IsOk (manifest_in directory.now) × (fin.get directory.now (codes "apex_digests") ≡ Some (listing directory.now))) }
{
    sound_listing_is_the_listing(directory);
}

/// A module that several owners may hold: its files are in memory once, and those of the short form not at all. A
/// contract sees its files.
#[derive(Drop)]
pub struct SharedModule {
    form: Form,
}

impl Model for SharedModule {
    ghost use Rattle.std.specs.Prelude.{ℕ, List};
    ghost use Rattle.std.specs.Ordering.{nat_cmp};
    ghost use Rattle.std.specs.Cmp.Lexicographic.{slice_cmp};
    ghost use Rattle.std.specs.Coded.{coded_list, coded_ℕ};
    ghost use Rattle.std.specs.FinMap as fin;
    ghost use Rattle.apex_world.specs.Forms.{files_of};

    ghost Value = { fin.FinMap (slice_cmp nat_cmp) (List ℕ) };

    ghost coded = { fin.code (coded_list coded_ℕ) (coded_list coded_ℕ) };

    ghost view = { λ shared. files_of shared.form };
}

impl SharedModule {
    /// Moves the module to where it can be shared. Fails only if memory runs out.
    pub fn of(alloc: Global, directory: Module) -> Result<Self, AllocError>
        ensures { IfOk result (λ shared. shared ≡ directory) }
    {
        let files = Shared::new(alloc, directory)?;
        Ok(SharedModule {
            form: Form::Files(files),
        })
    }

    /// The module of the short form `NAME@VERSION`: a manifest of that name and version, and its listing.
    pub fn short(name: Name, version: Version) -> Self
        ensures { result ≡ short_form name version }
    {
        SharedModule {
            form: Form::Short { name, version },
        }
    }

    /// One more owner. No file is copied. Fails only if memory runs out.
    pub fn share(&self) -> Result<Self, AllocError>
        ensures { IfOk result (λ shared. shared ≡ self.now) }
    {
        match &self.form {
            Form::Short { name, version } => Ok(SharedModule::short(*name, *version)),
            Form::Files(files) => {
                let files = files.share()?;
                Ok(SharedModule {
                    form: Form::Files(files),
                })
            }
        }
    }

    /// The module with its files. They are made anew for the short form, and else shared. Fails only if memory runs out.
    pub fn directory(&self, alloc: Global) -> Result<Shared<Module>, AllocError>
        ensures { IfOk result (λ directory. directory ≡ self.now) }
    {
        match &self.form {
            Form::Short { name, version } => {
                let directory = short_directory(alloc, name, *version)?;
                Shared::new(alloc, directory)
            }
            Form::Files(files) => files.share(),
        }
    }

    /// What the module's manifest says, or its first fault.
    pub fn manifest(&self, alloc: Global) -> Result<Manifest, ManifestWhy>
        ensures { Answers result (manifest_in self.now) }
    {
        match &self.form {
            Form::Short { name, version } => Ok(short_says(name, *version)),
            Form::Files(files) => manifest_in(alloc, files.get()),
        }
    }

    /// What the manifest says of a sound module, or the module's first fault.
    pub fn check(&self, alloc: Global) -> Result<Manifest, ManifestWhy>
        ensures { Answers result (checked self.now) }
    {
        match &self.form {
            Form::Short { name, version } => Ok(short_says(name, *version)),
            Form::Files(files) => check_module(alloc, files.get()),
        }
    }

    /// Whether the module is sound. Fails only if memory runs out.
    pub fn is_sound(&self, alloc: Global) -> Result<bool, AllocError>
        ensures { IfOk result (λ sound. sound ≡ is_sound self.now) }
    {
        match self.check(alloc) {
            Ok(_) => Ok(true),
            Err(ManifestWhy::Fault(_)) => Ok(false),
            Err(ManifestWhy::NoMemory) => Err(AllocError),
        }
    }

    fn key(&self) -> Option<&[u8]>
        ensures { option_map (λ key. key.now) result ≡ key_of self.now }
    {
        match &self.form {
            Form::Short { .. } => None,
            Form::Files(files) => files.get().get(&FilePath::key()),
        }
    }

    /// Whether the two modules have the same key, or neither has any.
    pub fn has_key_of(&self, other: &Self) -> bool
        ensures { result ≡ is_same_key self.now other.now }
    {
        self.key() == other.key()
    }

    /// The sum of the files' weights.
    pub fn weight(&self) -> u64
        ensures weight { result ≡ module_weight self.now }
        ensures small { result ≤ 67125248 }
        ensures whole { IsModule self.now }
    {
        match &self.form {
            Form::Short { name, version } => short_weight(name, *version),
            Form::Files(files) => files.get().weight(),
        }
    }
}

/// Modules, seen as a list.
pub type ModuleList = Listed<SharedModule>;

/// A module whose manifest reads, with what it says.
#[derive(Drop)]
pub struct Package {
    pub name: Name,
    pub version: Version,
    pub content: SharedModule,
}

/// Packages, seen as a list.
pub type PackageList = Listed<Package>;

/// How a module is kept in memory.
#[derive(Drop)]
enum Form {
    /// By name and version alone.
    Short { name: Name, version: Version },
    /// In files that several owners share.
    Files(Shared<Module>),
}

/// The files of the short form `NAME@VERSION`.
fn short_directory(alloc: Global, name: &Name, version: Version) -> Result<Module, AllocError>
    ensures { IfOk result (λ directory. directory ≡ short_form name.now version) }
{
    let mut directory = Module::new(alloc);
    let text = short_manifest(alloc, name, version)?;
    match directory.put(FilePath::manifest(), Bytes::of(text)) {
        Ok(()) => {}
        Err(_) => return Err(AllocError),
    }
    match seal(alloc, &mut directory) {
        Ok(()) => Ok(directory),
        Err(_) => Err(AllocError),
    }
}

/// The weight of the short form: two files, of which the listing has 84 bytes, and the manifest 22 bytes beside
/// the name and the version.
fn short_weight(name: &Name, version: Version) -> u64
    ensures weight { result ≡ module_weight (short_form name.now version) }
    ensures small { result ≤ 67125248 }
    ensures whole { IsModule (short_form name.now version) }
{
    let mut buffer = Buffer::new();
    let digits = buffer.format(version.number()).len();
    (name.as_bytes().len() + digits) as u64 + 22 + 84 + 2 * 256
}

/// What the manifest of the short form `NAME@VERSION` says.
fn short_says(name: &Name, version: Version) -> Manifest
    ensures manifest { manifest_in (short_form name.now version) ≡ Ok result }
    ensures checked { checked (short_form name.now version) ≡ Ok result }
{
    let _ = name.as_bytes();
    let _ = version.number();
    Manifest {
        name: *name,
        version,
    }
}
