// Lanes on threads, over one turn.
ghost use Rattle.std.specs.Prelude.{◌≡◌, ◌≤◌, ◌+◌, ℕ, ◌<◌, [], List, length, slice_index_or};
ghost use Rattle.std.specs.List.{All};
ghost use Rattle.std.specs.Vec.{vec_len};
ghost use Rattle.call_turn.specs.Passes.{IsPassOf};

use crate::{OneThread, Pass, Turn};
use std::sync::Wait;
use std::thread;
use std::thread::Threads;

/// What one lane has to do, the last first, and its pass.
#[derive(Drop)]
pub struct Lane<O: OneThread>
where
    O::Order: Drop,
    O::Answer: Drop,
{
    pub pass: Pass<O>,
    pub orders: Vec<O::Order>,
    pub answer: Option<O::Answer>,
}

impl<O: OneThread> Lane<O>
where
    O::Order: Drop,
    O::Answer: Drop,
{
    // Makes the lane's calls.
    fn run<R: Wait>(&mut self, rt: &R, turn: &Turn<O>)
        requires place { IsPassOf turn.now self.old.pass }
        requires calls { self.old.pass.step + vec_len self.old.orders ≤ 4294967295 }
        ensures { IsPassOf turn.now self.new.pass × (self.new.pass.lane ≡ self.old.pass.lane) }
    {
        while let Some(order) = self.orders.pop() {
            self.answer = Some(turn.act(rt, &mut self.pass, order));
        }
    }
}

/// Each lane makes its calls, on a thread of its own.
pub fn race<O: OneThread + Send, R: Threads + Wait + Sync>(
    rt: &R,
    turn: &Turn<O>,
    lanes: &mut [Lane<O>],
)
where
    O::Order: Send + Drop,
    O::Answer: Send + Drop,
    requires place { All (λ l. IsPassOf turn.now l.pass) lanes.old }
    requires calls { All (λ l. l.pass.step + vec_len l.orders ≤ 4294967295) lanes.old }
    ensures { All (λ l. IsPassOf turn.now l.pass) lanes.new }
{
    thread::for_each_mut(
        rt,
        lanes,
        8,
        &|_, lane: &mut Lane<O>|
            requires { IsPassOf turn.now lane.now.pass × (lane.now.pass.step + vec_len lane.now.orders ≤ 4294967295) }
            ensures { IsPassOf turn.entry.now lane.exit.now.pass }
        { lane.run(rt, turn) },
    );
}
