// A sum, as an object behind a turn.
ghost use Rattle.std.specs.Prelude.{◌≡◌, ◌⊎◌, ◌++◌, ◌∷◌, [], map, length};

use crate::{Entry, OneThread};
use std::snapshot::Snapshot;
use std::sync::Wait;

#[derive(Drop)]
pub struct Tally {
    pub sum: u64,
    pub calls: Vec<Snapshot<Entry<u64, Option<u64>>>>,
}

impl OneThread for Tally {
    type Order = u64;

    type Answer = Option<u64>;

    type Start = ();

    ghost history = { λ s. map (λ e. e.value) s.calls.items };

    ghost start = { λ s. tt };

    fn act<R: Wait>(&mut self, _rt: &R, lane: u32, step: u32, order: u64) -> Option<u64> {
        if self.calls.reserve(1).is_err() {
            return None;
        }
        self.sum = self.sum.saturating_add(order);
        let answer = Some(self.sum);
        let entry = Entry {
            lane,
            step,
            order,
            answer,
        };
        self.calls.push_reserved(Snapshot::of(&entry));
        answer
    }

    fn entries(&self) -> u64 {
        self.calls.len() as u64
    }
}
