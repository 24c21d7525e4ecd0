// The worked calls of two lanes, and many calls on threads that really run.
ghost use Rattle.std.specs.Prelude.{◌≡◌, ◌⊎◌, ◌+◌, ◌<◌, ◌≤◌, ◌++◌, ◌∷◌, [], length, IfOk};
ghost use Rattle.std.specs.List.{All};
ghost use Rattle.std.specs.Vec.{vec_len};
ghost use Rattle.call_turn.specs.Passes.{IsPassOf};

use crate::{Entry, Lane, OneThread, Pass, Tally, Turn, race};
use std::alloc::{AllocError, Global};
use std::sync::Wait;
use std::test::Fail;
use std::thread::Threads;

// A list of one pass, for a turn that it is of.
fn alone(
    alloc: Global,
    turn: &Turn<Tally>,
    pass: Pass<Tally>,
) -> Result<Vec<Pass<Tally>>, AllocError>
    requires { IsPassOf turn.now pass }
    ensures { IfOk result (λ v. All (λ p. IsPassOf turn.now p) v.items) }
{
    let mut list = Vec::with_capacity(alloc, 1)?;
    list.push_reserved(pass);
    Ok(list)
}

fn both(
    alloc: Global,
    turn: &Turn<Tally>,
    one: Pass<Tally>,
    other: Pass<Tally>,
) -> Result<Vec<Pass<Tally>>, AllocError>
    requires { (IsPassOf turn.now one) × (IsPassOf turn.now other) }
    ensures { IfOk result (λ v. All (λ p. IsPassOf turn.now p) v.items) }
{
    let mut list = Vec::with_capacity(alloc, 2)?;
    list.push_reserved(one);
    list.push_reserved(other);
    Ok(list)
}

fn are_right(one: Option<u64>, three: Option<u64>, thirteen: Option<u64>, seen: u64) -> bool {
    one == Some(1) && three == Some(3) && thirteen == Some(13) && seen == 3
}

// Two lanes by one thread. A list that lacks a pass is handed back.
#[test]
fn a_tally_in_turns(rt: HostRuntime) -> Result<(), Fail> {
    let alloc = rt.alloc();
    let tally = Tally {
        sum: 0,
        calls: Vec::new(alloc),
    };
    let Ok((turn, mut passes)) = Turn::open(alloc, tally, 2) else {
        panic!(rt; "memory")
    };
    let (Some(mut second), Some(mut first)) = (passes.pop(), passes.pop()) else {
        panic!(rt; "two passes")
    };
    let one = turn.act(&rt, &mut first, 1);
    let three = turn.act(&rt, &mut first, 2);
    let thirteen = turn.act(&rt, &mut second, 10);
    let seen = turn.seen(&mut first);
    let right = are_right(one, three, thirteen, seen);
    assert!(rt; right);
    let list = alone(alloc, &turn, first)?;
    let Err((turn, mut passes, refused)) = turn.close(list) else {
        panic!(rt; "closed without the second pass")
    };
    let Some(first) = passes.pop() else {
        panic!(rt; "no pass back")
    };
    assert!(rt; refused.given == 1);
    let list = both(alloc, &turn, second, first)?;
    let Ok(tally) = turn.close(list) else {
        panic!(rt; "not all")
    };
    assert!(rt; tally.sum == 13 && tally.calls.len() == 3);
    Ok(())
}

// The same calls from two threads.
#[test]
fn a_tally_on_threads(rt: HostRuntime) -> Result<(), Fail> {
    let alloc = rt.alloc();
    let tally = Tally {
        sum: 0,
        calls: Vec::new(alloc),
    };
    let Ok((turn, mut passes)) = Turn::open(alloc, tally, 2) else {
        panic!(rt; "memory")
    };
    let (Some(second), Some(first)) = (passes.pop(), passes.pop()) else {
        panic!(rt; "two passes")
    };
    let mut lanes = [
        Lane {
            pass: first,
            orders: vec![in alloc; 2, 1]?,
            answer: None,
        },
        Lane {
            pass: second,
            orders: vec![in alloc; 10]?,
            answer: None,
        },
    ];
    race(&rt, &turn, &mut lanes);
    let [first, second] = lanes;
    let Ok(tally) = turn.close(vec![in alloc; first.pass, second.pass]?) else {
        panic!(rt; "not all")
    };
    assert!(rt; tally.sum == 13 && tally.calls.len() == 3);
    Ok(())
}

// How many calls each lane makes.
const CALLS: usize = 10_000;

// A sum whose calls can be read.
#[derive(Drop)]
struct Roll {
    sum: u64,
    calls: Vec<Entry<u64, Option<u64>>>,
}

impl OneThread for Roll {
    type Order = u64;

    type Answer = Option<u64>;

    type Start = ();

    ghost history = { λ s. s.calls.items };

    ghost start = { λ s. tt };

    fn act<R: Wait>(&mut self, _rt: &R, lane: u32, step: u32, order: u64) -> Option<u64> {
        if self.calls.reserve(1).is_err() {
            return None;
        }
        self.sum = self.sum.saturating_add(order);
        let answer = Some(self.sum);
        self.calls.push_reserved(Entry {
            lane,
            step,
            order,
            answer,
        });
        answer
    }

    fn entries(&self) -> u64 {
        self.calls.len() as u64
    }
}

impl Roll {
    // Whether each answer is the sum of the orders so far.
    fn is_summed(&self) -> bool {
        let mut sum = 0u64;
        for call in &self.calls {
            sum = sum.saturating_add(call.order);
            if call.answer != Some(sum) {
                return false;
            }
        }
        sum == self.sum
    }

    // The number of the lane's calls, if they stand in its order.
    fn in_order(&self, lane: u32) -> Option<u32> {
        let mut step = 0u32;
        for call in &self.calls {
            if call.lane == lane {
                step = step.checked_add(1)?;
                if call.step != step {
                    return None;
                }
            }
        }
        Some(step)
    }

    // Whether all of the lanes' ten thousand calls stand there.
    fn is_whole(&self, lanes: u32) -> bool {
        let mut whole = self.is_summed() && self.sum == u64::from(lanes) * 10_000;
        for lane in 1..=lanes {
            whole = whole && self.in_order(lane) == Some(10_000);
        }
        whole
    }
}

// So many calls that add 1.
fn ones(alloc: Global, count: usize) -> Result<Vec<u64>, AllocError>
    requires { count ≤ 4294967295 }
    ensures { IfOk result (λ orders. vec_len orders ≤ 4294967295) }
{
    vec![in alloc; 1u64; count]
}

// A lane for each pass, with ten thousand calls that add 1.
fn lanes_of(
    alloc: Global,
    turn: &Turn<Roll>,
    mut passes: Vec<Pass<Roll>>,
) -> Result<Vec<Lane<Roll>>, AllocError>
    requires { All (λ p. IsPassOf turn.now p × (p.step ≡ 0)) passes.items }
    ensures { IfOk result (λ v. All (λ l. IsPassOf turn.now l.pass × (l.pass.step + vec_len l.orders ≤ 4294967295)) v.items) }
{
    let mut lanes = Vec::with_capacity(alloc, passes.len())?;
    while let Some(pass) = passes.pop() {
        let orders = ones(alloc, CALLS)?;
        lanes.push(Lane {
            pass,
            orders,
            answer: None,
        })?;
    }
    Ok(lanes)
}

fn passes_of(
    alloc: Global,
    turn: &Turn<Roll>,
    mut lanes: Vec<Lane<Roll>>,
) -> Result<Vec<Pass<Roll>>, AllocError>
    requires { All (λ l. IsPassOf turn.now l.pass) lanes.items }
    ensures { IfOk result (λ v. All (λ p. IsPassOf turn.now p) v.items) }
{
    let mut passes = Vec::with_capacity(alloc, lanes.len())?;
    while let Some(lane) = lanes.pop() {
        passes.push(lane.pass)?;
    }
    Ok(passes)
}

// Whether so many lanes, each on a thread, leave all of their calls.
fn adds_up<R: Threads + Wait + Sync>(rt: &R, alloc: Global, count: u32) -> Result<bool, AllocError>
    requires { (0 < count) × (count ≤ 8) }
{
    let roll = Roll {
        sum: 0,
        calls: Vec::new(alloc),
    };
    let Ok((turn, passes)) = Turn::open(alloc, roll, count) else {
        return Ok(false);
    };
    let mut lanes = lanes_of(alloc, &turn, passes)?;
    race(rt, &turn, &mut lanes);
    let list = passes_of(alloc, &turn, lanes)?;
    match turn.close(list) {
        Ok(roll) => Ok(roll.is_whole(count)),
        Err(_) => Ok(false),
    }
}

#[test]
fn two_lanes_add_up(rt: HostRuntime) -> Result<(), Fail> {
    let right = adds_up(&rt, rt.alloc(), 2)?;
    assert!(rt; right);
    Ok(())
}

#[test]
fn eight_lanes_add_up(rt: HostRuntime) -> Result<(), Fail> {
    let right = adds_up(&rt, rt.alloc(), 8)?;
    assert!(rt; right);
    Ok(())
}
