//! What no clause says: calls with ample memory don't run out of it.
use crate::{SharedModule, check_module};
use apex_base::{Bytes, FilePath, Module, ModuleFault, Name, Version};
use apex_manifest::ManifestWhy;
use module_digest::seal;
use std::test::Fail;

#[test]
fn a_short_form_is_the_module_that_it_stands_for(rt: HostRuntime) -> Result<(), Fail> {
    let name = Name::read(b"x").ok_or("a name")?;
    let version = Version::new(2).ok_or("a version")?;
    let short = SharedModule::short(name, version);
    let mut directory = Module::new(rt.alloc());
    let manifest = b"{\"name\":\"x\",\"version\":2}".to_vec(rt.alloc())?;
    assert_eq!(rt;
        directory.put(FilePath::manifest(), Bytes::of(manifest)),
        Ok(())
    );
    assert_eq!(rt; seal(rt.alloc(), &mut directory), Ok(()));
    let whole = SharedModule::of(rt.alloc(), directory)?;
    // A manifest of 24 bytes and a listing of 84.
    assert_eq!(rt; whole.weight(), 620);
    assert_eq!(rt; short.weight(), 620);
    assert!(rt; short.has_key_of(&whole));
    for form in [short.share()?, whole.share()?] {
        let Ok(manifest) = form.check(rt.alloc()) else {
            return Err(Fail::new("a sealed module isn't sound"));
        };
        assert!(rt; manifest.name == name);
        assert!(rt; manifest.version == version);
        assert!(rt; form.is_sound(rt.alloc())?);
    }
    Ok(())
}

#[test]
fn an_unsealed_module_has_a_manifest_and_no_listing(rt: HostRuntime) -> Result<(), Fail> {
    let mut directory = Module::new(rt.alloc());
    let Err(ManifestWhy::Fault(ModuleFault::NoManifest)) = check_module(rt.alloc(), &directory)
    else {
        return Err(Fail::new("a module without files has a manifest"));
    };
    let manifest = b"{\"name\":\"x\",\"version\":2}".to_vec(rt.alloc())?;
    assert_eq!(rt;
        directory.put(FilePath::manifest(), Bytes::of(manifest)),
        Ok(())
    );
    let Err(ManifestWhy::Fault(ModuleFault::NoListing)) = check_module(rt.alloc(), &directory)
    else {
        return Err(Fail::new("an unsealed module has a listing"));
    };
    let key = FilePath::key();
    assert_eq!(rt;
        directory.put(key, Bytes::of(b"one".to_vec(rt.alloc())?)),
        Ok(())
    );
    let signed = SharedModule::of(rt.alloc(), directory)?;
    assert!(rt; !signed.is_sound(rt.alloc())?);
    assert!(rt; signed.manifest(rt.alloc()).is_ok());
    assert!(rt; signed.has_key_of(&signed));
    let name = Name::read(b"x").ok_or("a name")?;
    let version = Version::new(2).ok_or("a version")?;
    assert!(rt; !signed.has_key_of(&SharedModule::short(name, version)));
    Ok(())
}
