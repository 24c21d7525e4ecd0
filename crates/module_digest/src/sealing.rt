//! Making a module's listing.
ghost use Rattle.std.specs.Prelude.{◌≡◌, ◌≢◌, ◌++◌, IfOk, OnOk, OnErr, IsOk, IfErr, Some, None};
ghost use Rattle.apex_base.specs.declared.module.PutWhy.TheVariants as put;
ghost use Rattle.module_digest.specs.Listing.{listing, listing_line, sealed, seal_fault};
ghost use Rattle.module_digest.specs.Faults.{listing_fault};

use crate::digits::{digest_of, digits_of};
use crate::known::known;
use apex_base::{Bytes, FilePath, Module, PutWhy};
use std::alloc::{AllocError, Global};

/// The listing that the module should have: one line for each file but the listing itself, ascending by path. A
/// line is the SHA-256 of the content as 64 hexadecimal digits in lower case, a space, the path and a line feed.
/// Fails only if memory runs out.
pub fn listing(alloc: Global, directory: &Module) -> Result<Vec<u8>, AllocError>
    ensures { IfOk result (λ text. text.items ≡ listing directory.now) }
{
    let own = FilePath::listing();
    let mut text = Vec::new(alloc);
    for (path, content) in directory.files() {
        if *path != own {
            push_line(&mut text, path, content.as_slice())?;
        }
    }
    Ok(text)
}

/// Puts that listing into the module, which then has no fault of its listing. The error is `Files` if 64 files are
/// there and none is a listing, otherwise `NoMemory`; never `Large`. After an error the module is as before.
pub fn seal(alloc: Global, directory: &mut Module) -> Result<(), PutWhy>
    ensures sealed { OnOk result (directory.new ≡ sealed directory.old) }
    ensures sound { OnOk result (listing_fault directory.new ≡ None) }
    ensures fits { IsOk result → seal_fault directory.old ≡ None }
    ensures refused { IfErr result (λ why. why ≢ put.NoMemory → seal_fault directory.old ≡ Some why) }
    ensures unchanged { OnErr result (directory.new ≡ directory.old) }
{
    let Ok(text) = listing_bytes(alloc, directory) else {
        return Err(PutWhy::NoMemory);
    };
    known(directory);
    directory.put(FilePath::listing(), text)?;
    known(directory);
    Ok(())
}

/// The listing as a file of the module.
fn listing_bytes(alloc: Global, directory: &Module) -> Result<Bytes, AllocError>
    ensures { IfOk result (λ text. text ≡ listing directory.now) }
{
    let text = listing(alloc, directory)?;
    Bytes::shared(alloc, text)
}

#[tactic(auto, unfolding(crate::specs::Listing::listing_line))]
fn push_line(text: &mut Vec<u8>, path: &FilePath, content: &[u8]) -> Result<(), AllocError>
    ensures { OnOk result (text.new.items ≡ text.old.items ++ listing_line (path.now, content.now)) }
{
    let digest = digest_of(content);
    text.extend_from_slice(&digits_of(&digest))?;
    text.push(b' ')?;
    text.extend_from_slice(path.as_bytes())?;
    text.push(b'\n')?;
    Ok(())
}
