//! A turn: one object for many callers, each call one after the other.
#![tactic(auto)]

ghost use Rattle.std.specs.Prelude.{◌≡◌, ◌⊎◌, ℕ, ◌+◌, ◌<◌, ◌≤◌, List, [], ◌∷◌, ◌++◌, length, Some, IfOk};

mod closing;
mod lanes;
mod opening;
mod plays;
mod shared;
mod tally;
#[cfg(test)]
mod tests;
mod turn;

pub use lanes::{Lane, race};
pub use shared::{NoMemory, NotAll, Pass, Turn};
use std::collections::LinkedList;
use std::sync::Wait;
pub use tally::Tally;

/// One call of the object. No value of it is kept.
#[derive(Drop)]
pub struct Entry<Order, Answer> {
    pub lane: u32,
    pub step: u32,
    pub order: Order,
    pub answer: Answer,
}

/// What a pass knows of its lane: the start of the object, the lane's entries so far, and how many entries there were when it last looked. No value of it is made.
pub struct Share<Order, Answer, Start> {
    pub lane: u32,
    pub start: Start,
    pub mine: LinkedList<Entry<Order, Answer>>,
    pub known: u64,
}

/// What a seat knows. No value of it is made.
pub struct View<Order, Answer, Start> {
    pub stage: u8,
    pub ticket: u64,
    pub calls: u64,
    pub owns: LinkedList<Share<Order, Answer, Start>>,
    pub held: LinkedList<Entry<Order, Answer>>,
}

/// An object of one thread, which keeps the list of its calls.
pub trait OneThread {
    type Order;

    type Answer;

    type Start;

    ghost use Rattle.call_turn.specs.declared.Entry.{Entry};

    ghost history: { Self → List (Entry Self.Order Self.Answer) };

    ghost start: { Self → Self.Start };

    fn act<R: Wait>(&mut self, rt: &R, lane: u32, step: u32, order: Self::Order) -> Self::Answer
        ensures history { (history self.new ≡ history self.old) ⊎ (history self.new ≡ history self.old ++ record { lane = lane; step = step; order = order; answer = result } ∷ []) }
        ensures start { start self.new ≡ start self.old };

    fn entries(&self) -> u64
        ensures { result ≡ length (history self.now) };
}
