//! Bytes of any content, which may have several owners.
ghost use Rattle.std.specs.Prelude.{◌≡◌, [], IfOk};

use crate::{Listed, Shared};
use std::alloc::{AllocError, Global};
use std::marker::Model;

/// From how many bytes on `shared` moves them to where several owners can have them. Fewer are copied for each owner,
/// which takes less than to count the owners does.
const SHARED: usize = 256;

/// Bytes of any content. Many bytes are in memory once, however many owners they have. A contract sees a list.
#[derive(Drop)]
pub struct Bytes {
    form: Form,
}

/// How bytes are kept in memory.
#[derive(Drop)]
enum Form {
    /// By one owner.
    Own(Listed<u8>),
    /// By several owners.
    Shared(Shared<Listed<u8>>),
}

impl Model for Bytes {
    ghost use Rattle.std.specs.Prelude.{ℕ, List};
    ghost use Rattle.std.specs.Coded.{coded_list, coded_ℕ};
    ghost use Rattle.apex_base.specs.Forms.{bytes_in};

    ghost Value = { List ℕ };

    ghost coded = { coded_list coded_ℕ };

    ghost view = { λ bytes. bytes_in bytes.form };
}

impl Bytes {
    /// No bytes. It takes no memory.
    pub fn new(alloc: Global) -> Self
        ensures { result ≡ [] }
    {
        Bytes::of(Vec::new(alloc))
    }

    /// The bytes of a `Vec`, without copying them. Whoever shares them gets a copy. It takes no memory.
    pub fn of(bytes: Vec<u8>) -> Self
        ensures { result ≡ bytes.items }
    {
        Bytes {
            form: Form::Own(Listed::of(bytes)),
        }
    }

    /// The bytes of a `Vec`, without copying them. Whoever shares them gets a copy of fewer than 256 bytes, and is one
    /// more owner of more. Fails only if memory runs out.
    pub fn shared(alloc: Global, bytes: Vec<u8>) -> Result<Self, AllocError>
        ensures { IfOk result (λ shared. shared ≡ bytes.items) }
    {
        if bytes.len() < SHARED {
            return Ok(Bytes::of(bytes));
        }
        let shared = Shared::new(alloc, Listed::of(bytes))?;
        Ok(Bytes {
            form: Form::Shared(shared),
        })
    }

    /// The same bytes for one more owner. Fails only if memory runs out.
    pub fn share(&self, alloc: Global) -> Result<Self, AllocError>
        ensures { IfOk result (λ shared. shared ≡ self.now) }
    {
        match &self.form {
            Form::Own(bytes) => Ok(Bytes::of(bytes.as_slice().to_vec(alloc)?)),
            Form::Shared(bytes) => {
                let shared = bytes.share()?;
                Ok(Bytes {
                    form: Form::Shared(shared),
                })
            }
        }
    }

    /// The bytes, in order.
    pub fn as_slice(&self) -> &[u8]
        ensures { result.now ≡ self.now }
    {
        match &self.form {
            Form::Own(bytes) => bytes.as_slice(),
            Form::Shared(bytes) => bytes.get().as_slice(),
        }
    }
}
