//! Rows in memory: values by their keys.
ghost use Rattle.std.specs.Prelude.{◌≡◌, OnOk, OnErr, None, Some, option_map};
ghost use Rattle.std.specs.Option.{is_some};
ghost use Rattle.std.specs.FinMap as fin;
ghost use Rattle.row_map.specs.Rows.{shown};

use apex_base::Bytes;
use std::alloc::{AllocError, Global};
use std::collections::BTreeMap;
use std::marker::Model;

/// Values by their keys, which are ordered by their bytes. A contract sees a finite map.
#[derive(Drop)]
pub struct Rows {
    map: BTreeMap<Vec<u8>, Bytes>,
}

impl Model for Rows {
    ghost use Rattle.std.specs.Prelude.{ℕ, List};
    ghost use Rattle.std.specs.Ordering.{nat_cmp};
    ghost use Rattle.std.specs.Cmp.Lexicographic.{slice_cmp};
    ghost use Rattle.std.specs.Coded.{coded_list, coded_ℕ};
    ghost use Rattle.std.specs.FinMap as fin;
    ghost use Rattle.row_map.specs.Rows.{rows_of};

    ghost Value = { fin.FinMap (slice_cmp nat_cmp) (List ℕ) };

    ghost coded = { fin.code (coded_list coded_ℕ) (coded_list coded_ℕ) };

    ghost view = { λ rows. rows_of rows.map.entries };
}

impl Rows {
    /// No rows. It takes no memory.
    pub fn new(alloc: Global) -> Self
        ensures { result ≡ fin.empty }
    {
        Rows {
            map: BTreeMap::new(alloc),
        }
    }

    /// The value at the key, if there is one.
    pub fn get(&self, key: &[u8]) -> Option<&[u8]>
        ensures { option_map (λ value. value.now) result ≡ fin.get self.now key.now }
    {
        match self.map.get(key) {
            Some(value) => Some(value.as_slice()),
            None => None,
        }
    }

    /// Whether there is a row at the key.
    pub fn has(&self, key: &[u8]) -> bool
        ensures { result ≡ is_some (fin.get self.now key.now) }
    {
        self.map.contains_key(key)
    }

    /// How many rows there are.
    pub fn len(&self) -> usize
        ensures { result ≡ fin.len self.now }
    {
        self.by_key().len()
    }

    /// The rows, ascending by key.
    pub fn by_key(&self) -> &BTreeMap<Vec<u8>, Bytes>
        ensures { fin.entries self.now ≡ shown result.now.entries }
    {
        let _ = self.map.len();
        &self.map
    }

    /// Writes a row, or replaces it. Only a new row can run out of memory.
    pub fn put(&mut self, key: Vec<u8>, value: Bytes) -> Result<(), AllocError>
        ensures put { OnOk result (self.new ≡ fin.insert self.old key.items value) }
        ensures unchanged { OnErr result (self.new ≡ self.old) }
        ensures absent { OnErr result (fin.get self.old key.items ≡ None) }
    {
        self.map.insert(key, value)?;
        Ok(())
    }

    /// Deletes a row.
    pub fn remove(&mut self, key: &[u8])
        ensures { self.new ≡ fin.remove self.old key.now }
    {
        let _ = self.map.remove(key);
    }
}
