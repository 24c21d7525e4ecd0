//! The front of a lane's lines, kept from one turn to the next.
ghost use Rattle.std.specs.Prelude.{◌≡◌, ◌++◌, IsTrue, None, Some, OnOk};
ghost use Rattle.play_text.specs.Marks.{lane_mark};

use crate::words::push_number;
use apex_world::TurnRow;
use std::alloc::{AllocError, Global};
use std::marker::Model;

/// The text `BOOT.LANE.` of the boot and the lane that had the last turn. A contract sees which they are, if there was
/// such a turn.
#[derive(Drop)]
pub struct LaneMark {
    of: Option<(u32, u32)>,
    text: Vec<u8>,
}

impl Model for LaneMark {
    ghost use Rattle.std.specs.Prelude.{◌≡◌, ℕ, Option, Some};
    ghost use Rattle.play_text.specs.Marks.{lane_mark};

    ghost Value = { Option (ℕ × ℕ) };

    ghost view = { λ mark. mark.of };

    ghost invariant = { λ mark. (boot lane : ℕ) → mark.of ≡ Some (boot, lane) → mark.text.items ≡ lane_mark boot lane };
}

fn push_lane_mark(line: &mut Vec<u8>, boot: u32, lane: u32) -> Result<(), AllocError>
    ensures { OnOk result (line.new.items ≡ line.old.items ++ lane_mark boot lane) }
{
    push_number(line, u64::from(boot))?;
    line.extend_from_slice(b".")?;
    push_number(line, u64::from(lane))?;
    line.extend_from_slice(b".")
}

impl LaneMark {
    /// Before the first turn.
    pub fn new(alloc: Global) -> Self
        ensures { result ≡ None }
    {
        LaneMark {
            of: None,
            text: Vec::new(alloc),
        }
    }

    fn is_of(&self, row: &TurnRow) -> bool
        ensures { IsTrue result → self.now ≡ Some (row.now.boot, row.now.lane) }
    {
        match self.of {
            None => false,
            Some((boot, lane)) => boot == row.boot && lane == row.lane,
        }
    }

    fn renew(&mut self, row: &TurnRow) -> Result<(), AllocError>
        ensures { OnOk result (self.new ≡ Some (row.now.boot, row.now.lane)) }
    {
        self.of = None;
        self.text.clear();
        push_lane_mark(&mut self.text, row.boot, row.lane)?;
        self.of = Some((row.boot, row.lane));
        Ok(())
    }

    /// Adds the mark of the turn's boot and lane to the end of a line.
    pub fn push(&mut self, line: &mut Vec<u8>, row: &TurnRow) -> Result<(), AllocError>
        ensures { OnOk result (line.new.items ≡ line.old.items ++ lane_mark row.now.boot row.now.lane) }
    {
        if !self.is_of(row) {
            self.renew(row)?;
        }
        line.extend_from_slice(&self.text)
    }
}
