//! What a proof knows of a module.
ghost use Rattle.apex_base.specs.Modules.{IsModule};

use apex_base::Module;

/// States for proofs what every module has. It does nothing.
pub fn known(directory: &Module)
    ensures { IsModule directory.now }
{
    let _files = directory.files();
}
