//! Changes of rows, each key once.
ghost use Rattle.std.specs.Prelude.{◌≡◌, IfOk, OnOk, option_map};
ghost use Rattle.std.specs.Cmp.Lexicographic.{slice_cmp};
ghost use Rattle.std.specs.FinMap as fin;
ghost use Rattle.std.specs.List.Sorted.{IsStrictlySortedBy};
ghost use Rattle.std.specs.Option.{is_some};
ghost use Rattle.std.specs.Ordering.{nat_cmp};
ghost use Rattle.row_codec.specs.Batch.{keys_of};
ghost use Rattle.package_store.specs.Named.{is_wanted};
ghost use Rattle.package_store.specs.Spelled.{listed};

use apex_base::{Bytes, Listed};
use row_codec::Row;
use std::alloc::{AllocError, Global};
use std::collections::BTreeMap;
use std::marker::Model;

/// What becomes of keys: a value, or none. A contract sees a finite map.
#[derive(Drop)]
pub(crate) struct Changes {
    map: BTreeMap<Vec<u8>, Option<Bytes>>,
}

impl Model for Changes {
    ghost use Rattle.std.specs.Prelude.{ℕ, List, Option};
    ghost use Rattle.std.specs.Ordering.{nat_cmp};
    ghost use Rattle.std.specs.Cmp.Lexicographic.{slice_cmp};
    ghost use Rattle.std.specs.Coded.{coded_list, coded_option, coded_ℕ};
    ghost use Rattle.std.specs.FinMap as fin;
    ghost use Rattle.package_store.specs.Spelled.{changes_in};

    ghost Value = { fin.FinMap (slice_cmp nat_cmp) (Option (List ℕ)) };

    ghost coded = { fin.code (coded_list coded_ℕ) (coded_option (coded_list coded_ℕ)) };

    ghost view = { λ changes. changes_in changes.map.entries };
}

impl Changes {
    /// No changes. It takes no memory.
    pub(crate) fn new(alloc: Global) -> Self
        ensures { result ≡ fin.empty }
    {
        Changes {
            map: BTreeMap::new(alloc),
        }
    }

    /// What becomes of the key.
    pub(crate) fn get(&self, key: &[u8]) -> Option<Option<&[u8]>>
        ensures { option_map (λ value. option_map (λ bytes. bytes.now) value) result ≡ fin.get self.now key.now }
    {
        match self.map.get(key) {
            Some(Some(bytes)) => Some(Some(bytes.as_slice())),
            Some(None) => Some(None),
            None => None,
        }
    }

    /// Whether anything is noted of the key.
    pub(crate) fn has(&self, key: &[u8]) -> bool
        ensures { result ≡ is_some (fin.get self.now key.now) }
    {
        self.get(key).is_some()
    }

    /// Whether this value is noted.
    pub(crate) fn is_wanted(&self, key: &[u8], value: &[u8]) -> bool
        ensures { result ≡ is_wanted (fin.get self.now key.now) value.now }
    {
        match self.get(key) {
            Some(Some(wanted)) => wanted == value,
            Some(None) => false,
            None => false,
        }
    }

    /// Notes what becomes of a key, in place of what was noted before.
    pub(crate) fn put(&mut self, key: Vec<u8>, value: Option<Bytes>) -> Result<(), AllocError>
        ensures { OnOk result (self.new ≡ fin.insert self.old key.items value) }
    {
        self.map.insert(key, value)?;
        Ok(())
    }

    /// Forgets the change of a key.
    pub(crate) fn remove(&mut self, key: &[u8])
        ensures { self.new ≡ fin.remove self.old key.now }
    {
        let _ = self.map.remove(key);
    }

    /// The changes, ascending by key.
    pub(crate) fn into_rows(self, alloc: Global) -> Result<Vec<Row>, AllocError>
        ensures rows { IfOk result (λ rows. rows.items ≡ listed self) }
        ensures ascending { IfOk result (λ rows. IsStrictlySortedBy (slice_cmp nat_cmp) (keys_of rows.items)) }
    {
        let mut rows = Vec::new(alloc);
        for (key, value) in self.map {
            rows.push(Row {
                key: Listed::of(key),
                value,
            })?;
        }
        Ok(rows)
    }
}
