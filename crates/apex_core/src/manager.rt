//! The manager of one thread.
ghost use Rattle.std.specs.Prelude.{◌≡◌, false, IfOk, IsSomeAnd, OnOk, OnErr, find, option_map};
ghost use Rattle.std.specs.Cmp.Lexicographic.{slice_cmp};
ghost use Rattle.std.specs.List.Sorted.{IsStrictlySortedBy};
ghost use Rattle.std.specs.Option.{ForSome};
ghost use Rattle.std.specs.Ordering.{nat_cmp};
ghost use Rattle.apex_base.specs.declared.records.Record.{Record};
ghost use Rattle.apex_base.specs.Sessions.{has_id};
ghost use Rattle.row_codec.specs.Batch.{keys_of};
ghost use Rattle.apex_world.specs.declared.calls.Call.{Call};
ghost use Rattle.apex_world.specs.Step.{step};
ghost use Rattle.apex_world.specs.World.{World};
ghost use Rattle.apex_world.specs.Playable.{IsBuilt};
ghost use Rattle.stored_world.specs.Stored.{IsStored};
ghost use Rattle.call_judge.specs.Judged.{IsJudged, IsPlaced};
ghost use Rattle.call_judge.specs.Prepared.{call_of};
ghost use Rattle.call_judge.specs.Stands.{StandsFor};
ghost use Rattle.apex_core.specs.Core.{IfAnswered, IfNoMemory, Kept};

use crate::answer::Answer;
use apex_base::{SessionId, State};
use apex_world::{ActiveSet, Reply};
use call_judge::{
    CheckedCall, Judged, Prepared, Tables, apply, judge, make_room, session_with, weight_after,
};
use row_map::Rows;
use std::alloc::{AllocError, Global};
use std::marker::Model;

/// Rows and tables that stand for a running world. A contract sees both.
#[derive(Drop)]
pub struct Core {
    rows: Rows,
    tables: Tables,
}

impl Model for Core {
    ghost use Rattle.std.specs.Prelude.{List, ℕ};
    ghost use Rattle.std.specs.Ordering.{nat_cmp};
    ghost use Rattle.std.specs.Cmp.Lexicographic.{slice_cmp};
    ghost use Rattle.std.specs.Coded.{codes, coded_list, coded_ℕ};
    ghost use Rattle.std.specs.FinMap as fin;
    ghost use Rattle.apex_world.specs.World.{World};
    ghost use Rattle.apex_core.specs.Core.{Kept};
    ghost use Rattle.call_judge.specs.Stands.{StandsFor};
    ghost use Rattle.call_judge.specs.contracts.tables.Tables as t;

    ghost Value = { Kept };

    ghost coded = { Prim.hlevel (codes, fin.code {R = slice_cmp nat_cmp} (coded_list coded_ℕ) (coded_list coded_ℕ), t.the_row.coded) };

    ghost view = { λ core. record { rows = core.rows; tables = core.tables } };

    ghost invariant = { λ core. (w : World) × StandsFor core.rows core.tables w };
}

impl Core {
    /// The core of rows and tables that stand for a world.
    pub fn of(rows: Rows, tables: Tables) -> Self
        requires { (w : World) × StandsFor rows tables w }
        ensures { result ≡ record { rows = rows; tables = tables } }
    {
        Core { rows, tables }
    }

    /// For proofs: there is a world that the core stands for. It does nothing.
    pub fn stands(&self)
        ensures { (w : World) × StandsFor self.now.rows self.now.tables w }
    {
        let _ = &self.rows;
    }

    /// One call of those that lines make so far, as each world answers it that the core stands for. Where memory runs out,
    /// now or when the call was prepared, the core stands for the worlds that it stood for. `_lane` and `_step` are where
    /// the call stands in a script: no core keeps a history yet, so no turn enters one.
    pub fn act(&mut self, alloc: Global, _lane: u32, _step: u32, call: Prepared) -> Answer
        requires built { ForSome call IsBuilt }
        ensures reply { (w : World) → StandsFor self.old.rows self.old.tables w
            → IfAnswered result (λ reply. IsSomeAnd call (λ c. reply ≡ (step w c).reply)) }
        ensures stands { (w : World) → StandsFor self.old.rows self.old.tables w
            → IfAnswered result (λ _. IsSomeAnd call (λ c. StandsFor self.new.rows self.new.tables (step w c).world)) }
        ensures stays { (w : World) → StandsFor self.old.rows self.old.tables w
            → IfNoMemory result (λ _. StandsFor self.new.rows self.new.tables w) }
        ensures entered { IfNoMemory result (λ entered. entered ≡ false) }
    {
        let Some(call) = call.into_call() else {
            return Answer::NoMemory { entered: false };
        };
        perform(alloc, &mut self.rows, &mut self.tables, &call)
    }

    /// What the last boot chose for each name of its image. It takes no memory.
    pub fn active(&self) -> &ActiveSet
        ensures { (w : World) → StandsFor self.now.rows self.now.tables w → result.now ≡ w.active }
    {
        &self.tables.active
    }

    /// The state of the session of an id, or of a child's parent. It takes no memory.
    pub fn state_of(&self, id: SessionId) -> Option<State>
        ensures { (w : World) → StandsFor self.now.rows self.now.tables w
            → result ≡ option_map (λ (r : Record). r.state) (find (has_id id) w.sessions) }
    {
        let r = session_with(&self.tables.sessions, id)?;
        Some(r.state)
    }

    /// The rows, from which it can be booted again.
    pub fn into_rows(self) -> Rows
        ensures rows { result ≡ self.rows }
        ensures stored { (w : World) → StandsFor self.rows self.tables w → IsStored result w }
    {
        self.rows
    }
}

/// One call: judged, and then done in the rows and the tables. `change` stands apart from it: a function clears, when it is
/// entered, the locals of all calls that the compiler writes into it, and a call that changes nothing shouldn't pay for
/// those of one that does.
fn perform(alloc: Global, rows: &mut Rows, tables: &mut Tables, call: &CheckedCall) -> Answer
    requires built { IsBuilt (call_of call.now) }
    requires stands { (w : World) × StandsFor rows.old tables.old w }
    ensures reply { (w : World) → StandsFor rows.old tables.old w
        → IfAnswered result (λ reply. reply ≡ (step w (call_of call.now)).reply) }
    ensures stands { (w : World) → StandsFor rows.old tables.old w
        → IfAnswered result (λ _. StandsFor rows.new tables.new (step w (call_of call.now)).world) }
    ensures stays { (w : World) → StandsFor rows.old tables.old w
        → IfNoMemory result (λ _. StandsFor rows.new tables.new w) }
    ensures entered { IfNoMemory result (λ entered. entered ≡ false) }
{
    let Ok(judged) = judge(alloc, rows, tables, call) else {
        return Answer::NoMemory { entered: false };
    };
    if judged.changes_nothing() {
        return Answer::Answered(judged.reply);
    }
    match change(alloc, rows, tables, judged) {
        Ok(reply) => Answer::Answered(reply),
        Err(_) => Answer::NoMemory { entered: false },
    }
}

/// What was judged of a call is done in the rows and the tables. Memory for all of it is taken first.
#[inline(never)]
fn change(
    alloc: Global,
    rows: &mut Rows,
    tables: &mut Tables,
    judged: Judged,
) -> Result<Reply, AllocError>
    requires judged { (w : World) × (call : Call) × (StandsFor rows.old tables.old w) × (IsJudged judged rows.old w call) }
    requires placed { IsPlaced judged.patch tables.old.sessions.items }
    requires ascending { IsStrictlySortedBy (slice_cmp nat_cmp) (keys_of judged.rows.items) }
    ensures reply { IfOk result (λ reply. reply ≡ judged.reply) }
    ensures stands { (w : World) (call : Call) → StandsFor rows.old tables.old w → IsJudged judged rows.old w call
        → OnOk result (StandsFor rows.new tables.new (step w call).world) }
    ensures stays { (w : World) → StandsFor rows.old tables.old w
        → OnErr result (StandsFor rows.new tables.new w) }
{
    let reply = judged.reply;
    let batch = judged.rows;
    let patch = judged.patch;
    make_room(tables, &patch)?;
    let weight = weight_after(rows, tables.weight, &batch);
    let added = rows.make_room(alloc, &batch)?;
    drop(added);
    let _ = rows.change_all(batch);
    apply(tables, patch, weight);
    Ok(reply)
}
