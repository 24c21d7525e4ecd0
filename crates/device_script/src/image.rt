//! Images that are being read: an image with one more module.
ghost use Rattle.std.specs.Prelude.{◌≡◌, IfOk};
ghost use Rattle.device_script.specs.Images.{has_module, with_manifest, image_with};
ghost use Rattle.apex_base.specs.Answers.{Answers, IsFault};

use crate::fault::{LineError, LineFault};
use apex_base::{Boxed, Listed, ModuleFault, Name, Scale, Shared};
use apex_manifest::ManifestWhy;
use apex_world::{Image, Package, PackageList, SharedModule};
use std::alloc::{AllocError, Global};

/// A module with what its manifest says. The fault is `BadModule` if the manifest doesn't read.
pub fn with_manifest(alloc: Global, content: SharedModule) -> Result<Package, LineError>
    ensures { Answers result (with_manifest content) }
{
    match content.manifest(alloc) {
        Ok(manifest) => Ok(Package {
            name: manifest.name,
            version: manifest.version,
            content,
        }),
        Err(ManifestWhy::Fault(fault)) => Err(bad_module(alloc, fault)),
        Err(ManifestWhy::NoMemory) => Err(LineError::NoMemory),
    }
}

/// The image with one more module. A boot that has the image keeps it as it is. The fault is `Twice` if the image has a
/// module of that name, otherwise `Full` if the scale allows no more.
pub fn image_with(
    alloc: Global,
    scale: Scale,
    image: Shared<Image>,
    added: Package,
) -> Result<Shared<Image>, LineError>
    ensures { Answers result (image_with scale image added) }
{
    if has_module(image.get().modules.as_slice(), &added.name) {
        return Err(LineError::Fault(LineFault::Twice));
    }
    if image.get().modules.as_slice().len() >= scale.modules() as usize {
        return Err(LineError::Fault(LineFault::Full));
    }
    let mut image = own_image(alloc, image)?;
    image.modules.push(added)?;
    Ok(Shared::new(alloc, image)?)
}

/// That a module's manifest doesn't read, for this reason.
fn bad_module(alloc: Global, fault: ModuleFault) -> LineError
    ensures { IsFault result (LineFault.BadModule fault) }
{
    match Boxed::new(alloc, fault) {
        Ok(fault) => LineError::Fault(LineFault::BadModule { fault }),
        Err(_) => LineError::NoMemory,
    }
}

/// The image itself if no boot has it, and otherwise a copy.
fn own_image(alloc: Global, image: Shared<Image>) -> Result<Image, AllocError>
    ensures { IfOk result (λ own. own ≡ image) }
{
    match image.into_inner() {
        Ok(image) => Ok(image),
        Err(shared) => Ok(Image {
            print: shared.get().print,
            modules: copy_modules(alloc, shared.get().modules.as_slice())?,
        }),
    }
}

fn copy_modules(alloc: Global, modules: &[Package]) -> Result<PackageList, AllocError>
    ensures { IfOk result (λ copy. copy ≡ modules.now) }
{
    let mut copy = Listed::new(alloc);
    for m in modules {
        copy.push(Package {
            name: m.name,
            version: m.version,
            content: m.content.share()?,
        })?;
    }
    Ok(copy)
}

fn has_module(modules: &[Package], name: &Name) -> bool
    ensures { result ≡ has_module modules.now name.now }
{
    modules.iter().any(|m| m.name.is_same(name))
}
