//! A module: a directory of files, `docs/formats/module.md`.
ghost use Rattle.std.specs.Prelude.{◌≡◌, ◌≢◌, ◌≤◌, not, IsOk, OnOk, OnErr, IfErr, Some, None, option_map};
ghost use Rattle.std.specs.FinMap as fin;
ghost use Rattle.apex_base.specs.Modules.{IsModule, module_weight, put_fault, HoldsModule};
ghost use Rattle.apex_base.specs.declared.module.PutWhy.TheVariants.{NoMemory};

use crate::{Bytes, FilePath};
use std::alloc::Global;
use std::collections::BTreeMap;
use std::marker::Model;

/// How many files a module may have.
const FILES: usize = 64;

/// The greatest length of a file in bytes.
const LENGTH: usize = 1048576;

/// Why a file can't be put into a module.
#[derive(Clone, Copy, Debug, PartialEq, Eq)]
pub enum PutWhy {
    /// 64 other files are there.
    Files,
    /// The content has more than 1048576 bytes.
    Large { len: u64 },
    /// Memory ran out.
    NoMemory,
}

/// Files by their paths: at most 64, each of at most 1048576 bytes. A contract sees a finite map.
#[derive(Drop)]
pub struct Module {
    files: BTreeMap<FilePath, Bytes>,
}

impl Model for Module {
    ghost use Rattle.std.specs.Prelude.{ℕ, List};
    ghost use Rattle.std.specs.Ordering.{nat_cmp};
    ghost use Rattle.std.specs.Cmp.Lexicographic.{slice_cmp};
    ghost use Rattle.std.specs.Coded.{coded_list, coded_ℕ};
    ghost use Rattle.std.specs.FinMap as fin;
    ghost use Rattle.apex_base.specs.Modules.{HoldsModule};

    ghost Value = { fin.FinMap (slice_cmp nat_cmp) (List ℕ) };

    ghost coded = { fin.code (coded_list coded_ℕ) (coded_list coded_ℕ) };

    ghost view = { λ m. fin.from_entries m.files.entries };

    ghost invariant = { λ m. HoldsModule m.files.entries };
}

impl Module {
    /// The module without files.
    pub fn new(alloc: Global) -> Self
        ensures { result ≡ fin.empty }
    {
        Module {
            files: BTreeMap::new(alloc),
        }
    }

    fn len(&self) -> usize
        ensures { result ≡ fin.len self.now }
    {
        self.files().len()
    }

    fn lacks(&self, path: &FilePath) -> bool
        ensures { result ≡ not (fin.contains_key self.now path.now) }
    {
        self.get(path).is_none()
    }

    fn put_fault(&self, path: &FilePath, bytes: &[u8]) -> Option<PutWhy>
        ensures { result ≡ put_fault self.now path.now bytes.now }
    {
        if self.len() >= FILES && self.lacks(path) {
            return Some(PutWhy::Files);
        }
        if bytes.len() > LENGTH {
            let len = bytes.len() as u64;
            return Some(PutWhy::Large { len });
        }
        None
    }

    /// Writes a file, or replaces it. The error is `Files` if 64 other files are there, otherwise `Large` if the content
    /// has more than 1048576 bytes, otherwise `NoMemory`. After an error the module is as before.
    pub fn put(&mut self, path: FilePath, bytes: Bytes) -> Result<(), PutWhy>
        ensures put { OnOk result (self.new ≡ fin.insert self.old path bytes) }
        ensures fits { IsOk result → put_fault self.old path bytes ≡ None }
        ensures refused { IfErr result (λ why. why ≢ NoMemory → put_fault self.old path bytes ≡ Some why) }
        ensures unchanged { OnErr result (self.new ≡ self.old) }
    {
        path.known();
        if let Some(why) = self.put_fault(&path, bytes.as_slice()) {
            return Err(why);
        }
        match self.files.insert(path, bytes) {
            Ok(_) => Ok(()),
            Err(_) => Err(PutWhy::NoMemory),
        }
    }

    /// Removes a file, and says whether there was one.
    pub fn remove(&mut self, path: &FilePath) -> bool
        ensures removed { self.new ≡ fin.remove self.old path.now }
        ensures found { result ≡ fin.contains_key self.old path.now }
    {
        self.files.remove(path).is_some()
    }

    /// The content of a file, or None if there is no such file.
    pub fn get(&self, path: &FilePath) -> Option<&[u8]>
        ensures { option_map (λ b. b.now) result ≡ fin.get self.now path.now }
    {
        self.files.get(path).map(|content| content.as_slice())
    }

    /// The files, ascending by path.
    pub fn files(&self) -> &BTreeMap<FilePath, Bytes>
        ensures files { result.now.entries ≡ fin.entries self.now }
        ensures holds { HoldsModule result.now.entries }
        ensures whole { IsModule self.now }
    {
        &self.files
    }

    /// The sum of the files' weights: for each, the length of its content in bytes and 256 more.
    pub fn weight(&self) -> u64
        ensures weight { result ≡ module_weight self.now }
        ensures small { result ≤ 67125248 }
        ensures whole { IsModule self.now }
    {
        let mut weight = 0;
        for (_, content) in self.files() {
            weight += content.as_slice().len() as u64 + 256;
        }
        weight
    }
}
