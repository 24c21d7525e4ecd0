//! The labels of a script, and the modules that they stand for.
ghost use Rattle.std.specs.Prelude.{◌≡◌, OnOk, option_map};
ghost use Rattle.std.specs.FinMap as fin;

use apex_base::Name;
use apex_world::SharedModule;
use std::alloc::{AllocError, Global};
use std::collections::BTreeMap;
use std::marker::Model;

/// Modules by their labels. A contract sees a finite map.
#[derive(Drop)]
pub struct Labels {
    modules: BTreeMap<Name, SharedModule>,
}

impl Model for Labels {
    ghost use Rattle.std.specs.Prelude.{ℕ, List};
    ghost use Rattle.std.specs.Ordering.{nat_cmp};
    ghost use Rattle.std.specs.Cmp.Lexicographic.{slice_cmp};
    ghost use Rattle.std.specs.Coded.{coded_list, coded_ℕ};
    ghost use Rattle.std.specs.FinMap as fin;

    ghost Value = { fin.FinMap (slice_cmp nat_cmp) (fin.FinMap (slice_cmp nat_cmp) (List ℕ)) };

    ghost coded = { fin.code (coded_list coded_ℕ) (fin.code (coded_list coded_ℕ) (coded_list coded_ℕ)) };

    ghost view = { λ labels. fin.from_entries labels.modules.entries };
}

impl Labels {
    /// No label.
    pub fn new(alloc: Global) -> Self
        ensures { result ≡ fin.empty }
    {
        Labels {
            modules: BTreeMap::new(alloc),
        }
    }

    /// The module that a label stands for, or None if there is no such label.
    pub fn get(&self, label: &Name) -> Option<&SharedModule>
        ensures { option_map (λ m. m.now) result ≡ fin.get self.now label.now }
    {
        self.modules.get(label)
    }

    /// The label stands for this module from now on. Fails only if memory runs out.
    pub fn put(&mut self, label: Name, content: SharedModule) -> Result<(), AllocError>
        ensures { OnOk result (self.new ≡ fin.insert self.old label content) }
    {
        self.modules.insert(label, content)?;
        Ok(())
    }
}
