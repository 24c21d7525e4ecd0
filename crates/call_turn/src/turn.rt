//! What a caller does with its pass: a call in its turn, and a look at how far the history is.
ghost use Rattle.std.specs.Prelude.{◌≡◌, ◌⊎◌, ◌+◌, ◌-◌, ◌<◌, ◌≤◌, [], ◌∷◌, ◌++◌, length};
ghost use Rattle.call_turn.specs.Rule.{limit};
ghost use Rattle.call_turn.specs.Passes.{IsPassOf, entries, known};

use crate::plays::{Ask, Count, Draw, Give, Learn, Look, PassOn, Place, Take};
use crate::{OneThread, Pass, Turn};
use std::sync::Wait;

impl<O: OneThread> Turn<O> {
    /// A number of entries that the history has, and no less than before.
    pub fn seen(&self, pass: &mut Pass<O>) -> u64
        requires { IsPassOf self.now pass.old }
        ensures known { (known pass.old ≤ result) × (known pass.new ≡ result) }
        ensures place { IsPassOf self.now pass.new }
        ensures same { (pass.new.lane ≡ pass.old.lane) × (pass.new.step ≡ pass.old.step) × (entries pass.new ≡ entries pass.old) }
    {
        self.table.shared.load::<Look<O>>(&mut pass.seat, 2)
    }

    // Draws a ticket, and waits until it is served.
    fn wait<R: Wait>(&self, rt: &R, seat: &mut Place<O>) -> u64
        requires place { (seat.old.table_id ≡ self.now.table.shared.table_id) × (seat.old.me.1 ≡ []) × (seat.old.me.0.stage ≡ 0) }
        requires calls { (0 < seat.old.me.0.calls) × (0 < length seat.old.me.0.owns) }
        ensures place { (seat.new.table_id ≡ seat.old.table_id) × (seat.new.me.1 ≡ []) }
        ensures view { seat.new.me.0 ≡ record seat.old.me.0 { stage = 2; ticket = result; calls = seat.old.me.0.calls - 1 } }
        ensures bound { result < limit }
    {
        let shared = &self.table.shared;
        let ticket = shared.fetch_add::<Draw<O>>(seat, 0, 1);
        for _ in rt.forever() {
            if shared.load::<Ask<O>>(seat, 1) == ticket {
                return ticket;
            }
            std::thread::yield_now();
        }
        unreachable!()
    }

    /// One call of the object, in its turn. The pass's list grows by the call's entry, where the object made one.
    pub fn act<R: Wait>(&self, rt: &R, pass: &mut Pass<O>, order: O::Order) -> O::Answer
        requires place { IsPassOf self.now pass.old }
        requires calls { pass.old.step < 4294967295 }
        ensures place { IsPassOf self.now pass.new }
        ensures step { (pass.new.lane ≡ pass.old.lane) × (pass.new.step ≡ pass.old.step + 1) }
        ensures mine { (entries pass.new ≡ entries pass.old) ⊎ (entries pass.new ≡ entries pass.old ++ record { lane = pass.old.lane; step = pass.old.step + 1; order = order; answer = result } ∷ []) }
        ensures known { known pass.old ≤ known pass.new }
    {
        let ticket = self.wait(rt, &mut pass.seat);
        let shared = &self.table.shared;
        shared.load::<Learn<O>>(&mut pass.seat, 2);
        shared.load::<Take<O>>(&mut pass.seat, 1);
        pass.step += 1;
        let (lane, step) = (pass.lane, pass.step);
        let object = pass.seat.slot_mut(shared, 0);
        let answer = object.act(rt, lane, step, order);
        let entries = object.entries();
        shared.store::<Count<O>>(&mut pass.seat, 2, entries);
        shared.load::<Give<O>>(&mut pass.seat, 1);
        shared.store::<PassOn<O>>(&mut pass.seat, 1, ticket + 1);
        answer
    }
}
