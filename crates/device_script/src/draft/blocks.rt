//! What the lines of module blocks make of a draft.
use super::Draft;
use crate::fault::{LineError, LineFault};
use apex_base::{Bytes, FilePath};
use apex_world::SharedModule;
use std::alloc::Global;

impl Draft {
    ghost use Rattle.device_script.specs.Draft.{file_taken, remove_taken, seal_taken, done_taken};
    ghost use Rattle.apex_base.specs.Answers.{Becomes};

    /// A file is written or replaced in the open block.
    pub(super) fn take_file(&mut self, path: FilePath, content: Bytes) -> Result<(), LineError>
        ensures { Becomes result self.new (file_taken self.old path content self.old.block) }
    {
        match &mut self.block {
            None => Err(LineError::Fault(LineFault::BadPlace)),
            Some(block) => block.put(path, content),
        }
    }

    /// A file of the open block is removed, if there is one.
    pub(super) fn take_remove(&mut self, path: &FilePath) -> Result<(), LineError>
        ensures { Becomes result self.new (remove_taken self.old path.now self.old.block) }
    {
        match &mut self.block {
            None => Err(LineError::Fault(LineFault::BadPlace)),
            Some(block) => {
                block.remove(path);
                Ok(())
            }
        }
    }

    /// The listing of the open block is written or replaced.
    pub(super) fn take_seal(&mut self, alloc: Global) -> Result<(), LineError>
        ensures { Becomes result self.new (seal_taken self.old self.old.block) }
    {
        match &mut self.block {
            None => Err(LineError::Fault(LineFault::BadPlace)),
            Some(block) => block.seal(alloc),
        }
    }

    /// The block ends, and its label stands for its module from now on.
    pub(super) fn take_done(&mut self, alloc: Global) -> Result<(), LineError>
        ensures { Becomes result self.new (done_taken self.old self.old.block) }
    {
        let block = self.block.take().ok_or(LineFault::BadPlace)?;
        let module = SharedModule::of(alloc, block.content)?;
        self.labels.put(block.label, module)?;
        Ok(())
    }
}
