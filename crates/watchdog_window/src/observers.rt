//! The observers that a boot registers, by their names.
ghost use Rattle.std.specs.Prelude.{◌≡◌, ◌≢◌, IfOk, position};
ghost use Rattle.std.specs.Str.{bytes_eq};
ghost use Rattle.apex_base.specs.Members.{EachPair};

use apex_base::Name;
use indexmap::IndexSet;
use std::alloc::{AllocError, Global};
use std::marker::Model;

/// Names in the order in which they were registered. Contracts see them as a list.
#[derive(Drop)]
pub struct Observers {
    names: IndexSet<Name>,
}

impl Model for Observers {
    ghost use Rattle.std.specs.Prelude.{ℕ, List};

    ghost Value = { List (List ℕ) };

    ghost view = { λ observers. observers.names.keys };
}

impl Observers {
    /// The observers of these names, in their order.
    pub fn of(alloc: Global, names: &[Name]) -> Result<Observers, AllocError>
        requires distinct { EachPair (λ a b. a ≢ b) names.now }
        ensures { IfOk result (λ observers. observers ≡ names.now) }
    {
        let mut registered = IndexSet::with_capacity(alloc, names.len())?;
        for name in names {
            registered.insert(*name).map_err(|_| AllocError)?;
        }
        Ok(Observers { names: registered })
    }

    /// The place of a name among them, from 0; None if nobody is registered under it. It takes no memory.
    pub fn place(&self, name: &Name) -> Option<usize>
        ensures { result ≡ position (bytes_eq name.now) self.now }
    {
        self.names.get_index_of(name)
    }
}
