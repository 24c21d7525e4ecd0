//! A batch changes the rows in memory. All memory that it takes can be taken before, and given back.
ghost use Rattle.std.specs.Prelude.{◌≡◌, [], List, ℕ, map, OnOk, OnErr, IsOk, IfOk};
ghost use Rattle.std.specs.Cmp.Lexicographic.{slice_cmp};
ghost use Rattle.std.specs.Ordering.{nat_cmp};
ghost use Rattle.std.specs.List.Sorted.{IsStrictlySortedBy};
ghost use Rattle.row_codec.specs.Batch.{keys_of};
ghost use Rattle.row_map.specs.Rows.{changed, changed_at};
ghost use Rattle.row_map.specs.Room.{Adds, Agrees, Back, Covers, HasRoom};

use crate::rows::Rows;
use apex_base::Bytes;
use row_codec::Row;
use std::alloc::{AllocError, Global};

impl Rows {
    /// One row of a batch. Where its key is there already, or it deletes, it takes no memory.
    fn change(&mut self, row: Row) -> Result<(), AllocError>
        ensures changed { OnOk result (self.new ≡ changed_at self.old row.key row.value) }
        ensures takes_none { Covers row self.old → IsOk result }
    {
        let Row { key, value } = row;
        match value {
            Some(value) => self.put(key.into_vec(), value),
            None => {
                self.remove(key.as_slice());
                Ok(())
            }
        }
    }

    /// The rows of a batch, in order. Where there is room for them, it takes no memory.
    pub fn change_all(&mut self, rows: Vec<Row>) -> Result<(), AllocError>
        ensures changed { OnOk result (self.new ≡ changed self.old rows.items) }
        ensures takes_none { IsStrictlySortedBy (slice_cmp nat_cmp) (keys_of rows.items) → HasRoom rows.items self.old → IsOk result }
    {
        for row in rows {
            self.change(row)?;
        }
        Ok(())
    }

    /// Deletes the rows at these keys. It takes no memory.
    pub fn remove_all(&mut self, keys: &[&[u8]])
        ensures { Back (map (λ key. key.now) keys.now) self.new self.old }
    {
        for key in keys {
            self.remove(*key);
        }
    }

    /// Takes all the memory for a batch: puts an empty value at each key that it writes and that isn't there.
    /// The keys that were put; without memory all is as it was.
    pub fn make_room<'a>(
        &mut self,
        alloc: Global,
        rows: &'a [Row],
    ) -> Result<Vec<&'a [u8]>, AllocError>
        ensures unchanged { OnErr result (self.new ≡ self.old) }
        ensures back { IfOk result (λ added. Back (map (λ key. key.now) added.items) self.old self.new) }
        ensures agrees { OnOk result (Agrees rows.now self.old self.new) }
        ensures room { OnOk result (HasRoom rows.now self.new) }
    {
        let mut added = Vec::new(alloc);
        match self.add_all(alloc, rows, &mut added) {
            Ok(()) => Ok(added),
            Err(error) => {
                self.remove_all(&added);
                Err(error)
            }
        }
    }

    fn add_all<'a>(
        &mut self,
        alloc: Global,
        rows: &'a [Row],
        added: &mut Vec<&'a [u8]>,
    ) -> Result<(), AllocError>
        requires { added.old.items ≡ [] }
        ensures back { Back (map (λ key. key.now) added.new.items) self.old self.new }
        ensures agrees { Agrees rows.now self.old self.new }
        ensures room { OnOk result (HasRoom rows.now self.new) }
    {
        for row in rows {
            self.add(alloc, row, added)?;
        }
        Ok(())
    }

    /// Puts an empty value at the key of a row that writes, where there is none. The key is noted first.
    fn add<'a>(
        &mut self,
        alloc: Global,
        row: &'a Row,
        added: &mut Vec<&'a [u8]>,
    ) -> Result<(), AllocError>
        ensures adds { Adds row.now self.old (map (λ key. key.now) added.old.items) self.new (map (λ key. key.now) added.new.items) }
        ensures covers { OnOk result (Covers row.now self.new) }
    {
        let key = row.key.as_slice();
        if row.value.is_some() && !self.has(key) {
            let copy = key.to_vec(alloc)?;
            added.push(key)?;
            self.put(copy, Bytes::new(alloc))?;
        }
        Ok(())
    }
}
