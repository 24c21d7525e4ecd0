//! A module block that is being read. `draft` decides where its lines may stand.
ghost use Rattle.std.specs.Prelude.{◌≡◌};
ghost use Rattle.device_script.specs.Blocks.{begun, file_put, file_removed, listing_put};
ghost use Rattle.apex_base.specs.Answers.{Becomes};

use crate::fault::{LineError, LineFault};
use apex_base::{Bytes, FilePath, Module, Name, PutWhy};
use module_digest::seal;
use std::alloc::Global;

/// What the lines of a block have made, and the number of the line that began it.
#[derive(Drop)]
pub struct Block {
    pub label: Name,
    pub line: u32,
    pub content: Module,
}

impl Block {
    /// The block that the line with this number begins.
    pub fn begin(alloc: Global, line: u32, label: Name) -> Self
        ensures { result ≡ begun line label }
    {
        Block {
            label,
            line,
            content: Module::new(alloc),
        }
    }

    /// Writes a file, or replaces it. The fault is `Full` if the module has no room for it.
    pub fn put(&mut self, path: FilePath, content: Bytes) -> Result<(), LineError>
        ensures { Becomes result self.new (file_put self.old path content) }
    {
        match self.content.put(path, content) {
            Ok(()) => Ok(()),
            Err(PutWhy::NoMemory) => Err(LineError::NoMemory),
            Err(_) => Err(LineError::Fault(LineFault::Full)),
        }
    }

    /// Removes a file, if there is one.
    pub fn remove(&mut self, path: &FilePath)
        ensures { self.new ≡ file_removed self.old path.now }
    {
        self.content.remove(path);
    }

    /// Writes or replaces the listing, which is never too long. The fault is `Full` if 64 other files are there.
    pub fn seal(&mut self, alloc: Global) -> Result<(), LineError>
        ensures { Becomes result self.new (listing_put self.old) }
    {
        match seal(alloc, &mut self.content) {
            Ok(()) => Ok(()),
            Err(PutWhy::Files) => Err(LineError::Fault(LineFault::Full)),
            Err(_) => Err(LineError::NoMemory),
        }
    }
}
