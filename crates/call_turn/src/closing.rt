//! The end of a turn: the object comes back where all passes do.
ghost use Rattle.std.specs.Prelude.{◌≡◌, ◌<◌, [], map, flat_map, length, IfOk, IfErr};
ghost use Rattle.std.specs.List.{All, Any};
ghost use Rattle.std.specs.Bool.{Decides};
ghost use Rattle.call_turn.specs.History.{IsAll, Returned};
ghost use Rattle.call_turn.specs.Passes.{IsPassOf, at_open, told};

use crate::plays::{Gather, Place};
use crate::{NotAll, OneThread, Pass, Turn};

fn has_lane<O: OneThread>(passes: &[Pass<O>], lane: u32) -> bool
    ensures { Decides result (Any (λ p. p.lane ≡ lane) passes.now) }
{
    let mut place = 0;
    while place < passes.len() {
        if passes[place].lane == lane {
            return true;
        }
        place += 1;
    }
    false
}

impl<O: OneThread> Turn<O> {
    // Whether the list is the passes that were given, each once.
    fn has_all(&self, passes: &[Pass<O>]) -> bool
        ensures { Decides result (IsAll self.now.lanes (map (λ p. p.lane) passes.now)) }
    {
        if passes.len() != self.lanes as usize {
            return false;
        }
        let mut lane = 1;
        while lane <= self.lanes {
            if !has_lane(passes, lane) {
                return false;
            }
            lane += 1;
        }
        true
    }

    // One seat with the shares of all passes, in the order of the list.
    fn gather(&self, mut passes: Vec<Pass<O>>) -> Place<O>
        requires some { 0 < length passes.items }
        requires passes { All (λ p. IsPassOf self.now p) passes.items }
        ensures { (result.table_id ≡ self.now.table.shared.table_id) × (result.me.1 ≡ []) × (result.me.0.stage ≡ 0) × (result.me.0.owns ≡ flat_map (λ p. p.seat.me.0.owns) passes.items) }
    {
        let Pass {
            mut seat,
            lane: _,
            step: _,
        } = passes.pop().unwrap();
        while let Some(pass) = passes.pop() {
            let Pass {
                seat: other,
                lane: _,
                step: _,
            } = pass;
            self.table.shared.join_seat::<Gather<O>>(&mut seat, other);
        }
        passes.destroy_empty();
        seat
    }

    /// Ends the turn. Refused, with all untouched, exactly where the list isn't the passes that `open` gave, each once.
    pub fn close(self, passes: Vec<Pass<O>>) -> Result<O, (Turn<O>, Vec<Pass<O>>, NotAll)>
        requires { All (λ p. IsPassOf self p) passes.items }
        ensures ok { IfOk result (λ o. IsAll self.lanes (map (λ p. p.lane) passes.items) × Returned O.history O.start (at_open self) o (map (λ p. told p) passes.items)) }
        ensures err { IfErr result (λ r. (¬ IsAll self.lanes (map (λ p. p.lane) passes.items)) × (r.0 ≡ self) × (r.1 ≡ passes) × (r.2.given ≡ length passes.items)) }
    {
        if !self.has_all(passes.as_slice()) {
            let given = passes.len();
            return Err((self, passes, NotAll { given }));
        }
        let seat = self.gather(passes);
        let Turn { table, lanes: _ } = self;
        let mut closed = table.close_with(seat);
        let object = closed.take(0);
        closed.free();
        Ok(object)
    }
}
