//! The start of a turn: a pass for each lane.
ghost use Rattle.std.specs.Prelude.{◌≡◌, ◌<◌, ◌≤◌, [], map, IfOk, IfErr};
ghost use Rattle.std.specs.List.{All};
ghost use Rattle.std.specs.Vec.{vec_capacity};
ghost use Rattle.call_turn.specs.History.{lanes_from};
ghost use Rattle.call_turn.specs.Rule.{opener};
ghost use Rattle.call_turn.specs.Passes.{IsPassOf, entries, at_open};

use crate::plays::{Deal, Key, Place};
use crate::{NoMemory, OneThread, Pass, Turn};
use atomic_table::{Refused, Table};
use std::alloc::Global;
use std::snapshot::Snapshot;

impl<O: OneThread> Turn<O> {
    /// The object, and a pass for each lane, in order.
    pub fn open(
        alloc: Global,
        object: O,
        lanes: u32,
    ) -> Result<(Turn<O>, Vec<Pass<O>>), (O, NoMemory)>
        requires { (0 < lanes) × (lanes ≤ 8) }
        ensures object { IfOk result (λ t. (at_open t.0 ≡ object) × (t.0.lanes ≡ lanes)) }
        ensures lanes { IfOk result (λ t. map (λ p. p.lane) t.1.items ≡ lanes_from 1 lanes) }
        ensures passes { IfOk result (λ t. All (λ p. IsPassOf t.0 p × (p.step ≡ 0) × (entries p ≡ [])) t.1.items) }
        ensures err { IfErr result (λ r. r.0 ≡ object) }
    {
        let Ok(mut passes) = Vec::with_capacity(alloc, lanes as usize) else {
            return Err((object, NoMemory));
        };
        let Ok(mut slots) = Vec::with_capacity(alloc, 1) else {
            return Err((object, NoMemory));
        };
        let key = Key {
            object: Snapshot::of(&object),
            lanes,
        };
        let entries = object.entries();
        slots.push_reserved(object);
        match Table::new(alloc, &[0, 0, entries], slots, &key) {
            Ok((table, seat)) => {
                let turn = Turn { table, lanes };
                turn.deal(seat, &mut passes);
                Ok((turn, passes))
            }
            Err(Refused { mut slots }) => {
                let object = slots.pop().unwrap();
                slots.destroy_empty();
                Err((object, NoMemory))
            }
        }
    }

    // A seat for each lane. The last lane keeps the first seat.
    fn deal(&self, mut seat: Place<O>, passes: &mut Vec<Pass<O>>)
        requires seat { (seat.table_id ≡ self.now.table.shared.table_id) × (seat.me ≡ (opener self.now.lanes (O.start self.now.table.shared.key.object.value), [])) }
        requires passes { (passes.old.items ≡ []) × (self.now.lanes ≤ vec_capacity passes.old) }
        ensures lanes { map (λ p. p.lane) passes.new.items ≡ lanes_from 1 self.now.lanes }
        ensures passes { All (λ p. IsPassOf self.now p × (p.step ≡ 0) × (entries p ≡ [])) passes.new.items }
    {
        let mut lane = 1;
        while lane < self.lanes {
            let other = self.table.shared.split_seat::<Deal<O>>(&mut seat);
            passes.push_reserved(Pass {
                seat: other,
                lane,
                step: 0,
            });
            lane += 1;
        }
        passes.push_reserved(Pass {
            seat,
            lane,
            step: 0,
        });
    }
}
