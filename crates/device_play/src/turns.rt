//! Plays the turns of a script, the lanes of a segment one after the other.
use crate::run::Run;
use apex_base::Sink;
use apex_core::Answer;
use apex_world::{CallRef, Fate, Lane, Placed, Script, ScriptBoot, Segment, SegmentForm, TurnRow};
use play_text::PutFailed;
use std::alloc::Global;

/// How many lanes there are, with lane 0 for the calls outside lane blocks.
const LANES: usize = 9;

impl Run {
    ghost use Rattle.std.specs.Prelude.{◌≡◌, ◌<◌, ◌+◌, ◌^◌, ◌∷◌, [], IsOk, length, get_or};
    ghost use Rattle.std.specs.List.{All};
    ghost use Rattle.apex_world.specs.Calls.{call_at};
    ghost use Rattle.apex_world.specs.Playable.{IsBuilt, IsPlayable, IsPlayableBoot, IsPlayableLane};
    ghost use Rattle.apex_world.specs.Segments.{plain_segment, segment_of};
    ghost use Rattle.apex_world.specs.World.{empty_world};
    ghost use Rattle.apex_world.specs.Orders.{HasOrders};
    ghost use Rattle.play_text.specs.Put.{HasSinkCause};
    ghost use Rattle.device_play.specs.Device.{IsDeviceOf, IsOn};
    ghost use Rattle.device_play.specs.Played.{HasPlayed};
    ghost use Rattle.device_play.specs.Run.{CanPlay, planned_boot, planned_call, call_plan, block_plan, segment_plan, boot_plan, boots_plan};
    ghost use Rattle.device_play.specs.Stages.{Plays, HasCounts, blocks_before};

    /// A script from its start to its last line.
    pub fn play_script<K: Sink>(
        &mut self,
        alloc: Global,
        sink: &mut K,
        script: &Script,
    ) -> Result<(), PutFailed>
        requires playable { IsPlayable script.now }
        requires few { length script.now.boots < 4000000000 }
        requires orders { HasOrders script.now }
        requires device { IsDeviceOf self.old.device (empty_world script.now.scale) }
        requires turns { self.old.turns.items ≡ [] }
        ensures played { HasPlayed result script.now (K.held sink.old) (K.held sink.new) self.new.turns.items }
        ensures faults { HasSinkCause result (K.faults sink.old) (K.faults sink.new) }
    {
        self.play_boots(alloc, sink, script.boots.as_slice())?;
        self.text.end_line(sink, &self.turns)
    }

    /// All boots of a script, each with its calls.
    fn play_boots<K: Sink>(
        &mut self,
        alloc: Global,
        sink: &mut K,
        boots: &[ScriptBoot],
    ) -> Result<(), PutFailed>
        requires few { length boots.now < 2 ^ 32 }
        requires playable { All (IsPlayableBoot (2 ^ 32)) boots.now }
        requires can { CanPlay (boots_plan 0 boots.now) self.old.device }
        ensures ran { Plays K.held (boots_plan 0 boots.now) result self.old sink.old self.new sink.new }
        ensures faults { HasSinkCause result (K.faults sink.old) (K.faults sink.new) }
    {
        let mut number = 0;
        for boot in boots {
            number += 1;
            self.play_boot_and_calls(alloc, sink, number, boot)?;
        }
        Ok(())
    }

    fn play_boot_and_calls<K: Sink>(
        &mut self,
        alloc: Global,
        sink: &mut K,
        number: u32,
        boot: &ScriptBoot,
    ) -> Result<(), PutFailed>
        requires playable { IsPlayableBoot (2 ^ 32) boot.now }
        requires can { CanPlay (boot_plan number boot.now) self.old.device }
        ensures ran { Plays K.held (boot_plan number boot.now) result self.old sink.old self.new sink.new }
        ensures faults { HasSinkCause result (K.faults sink.old) (K.faults sink.new) }
        ensures on { IsOk result → IsOn self.new.device }
    {
        self.play_boot(alloc, sink, number, boot)?;
        self.play_segments(alloc, sink, number, boot)
    }

    /// A boot: its turn enters, and then its lines are put.
    fn play_boot<K: Sink>(
        &mut self,
        alloc: Global,
        sink: &mut K,
        number: u32,
        boot: &ScriptBoot,
    ) -> Result<(), PutFailed>
        requires can { CanPlay (planned_boot number boot.now ∷ []) self.old.device }
        requires alone { boot.now.order.observers ≡ [] }
        ensures ran { Plays K.held (planned_boot number boot.now ∷ []) result self.old sink.old self.new sink.new }
        ensures faults { HasSinkCause result (K.faults sink.old) (K.faults sink.new) }
        ensures on { IsOk result → IsOn self.new.device }
    {
        let row = TurnRow {
            boot: number,
            lane: 0,
            step: 0,
            fate: Fate::Answered,
        };
        let reply = self.enter_boot(alloc, row, boot)?;
        self.text.boot_lines(sink, &row, &reply)
    }

    /// The segments of a boot.
    fn play_segments<K: Sink>(
        &mut self,
        alloc: Global,
        sink: &mut K,
        number: u32,
        boot: &ScriptBoot,
    ) -> Result<(), PutFailed>
        requires playable { IsPlayableBoot (2 ^ 32) boot.now }
        requires on { IsOn self.old.device }
        ensures ran { Plays K.held (segment_plan number [] boot.now.segments) result self.old sink.old self.new sink.new }
        ensures faults { HasSinkCause result (K.faults sink.old) (K.faults sink.new) }
        ensures on { IsOk result → IsOn self.new.device }
    {
        let mut steps = [0; LANES];
        for (at, step) in boot.segments.forms().iter().enumerate() {
            self.play_step(alloc, sink, number, &mut steps, boot, at, step)?;
        }
        Ok(())
    }

    /// The segment that stands at a place of a boot.
    fn play_step<K: Sink>(
        &mut self,
        alloc: Global,
        sink: &mut K,
        number: u32,
        steps: &mut [u32; LANES],
        boot: &ScriptBoot,
        at: usize,
        step: &SegmentForm,
    ) -> Result<(), PutFailed>
        requires playable { IsPlayableBoot (2 ^ 32) boot.now }
        requires there { at < length boot.now.segments }
        requires here { segment_of step.now ≡ get_or boot.now.segments at (segment_of step.now) }
        requires counts { HasCounts steps.old (blocks_before boot.now at) }
        requires on { IsOn self.old.device }
        ensures ran { Plays K.held (block_plan number (blocks_before boot.now at) (segment_of step.now).lanes) result self.old sink.old self.new sink.new }
        ensures counts { IsOk result → HasCounts steps.new (blocks_before boot.now (at + 1)) }
        ensures faults { HasSinkCause result (K.faults sink.old) (K.faults sink.new) }
        ensures on { IsOk result → IsOn self.new.device }
    {
        match step.placed() {
            Placed::Plain(call) => { self.play_plain(alloc, sink, number, steps, boot, at, &call) }
            Placed::Lanes(segment) => {
                self.play_segment(alloc, sink, number, steps, boot, at, segment)
            }
        }
    }

    /// A call outside lane blocks, which is the segment that stands at a place of a boot.
    fn play_plain<K: Sink>(
        &mut self,
        alloc: Global,
        sink: &mut K,
        number: u32,
        steps: &mut [u32; LANES],
        boot: &ScriptBoot,
        at: usize,
        call: &CallRef,
    ) -> Result<(), PutFailed>
        requires playable { IsPlayableBoot (2 ^ 32) boot.now }
        requires there { at < length boot.now.segments }
        requires here { plain_segment (call_at call.now) ≡ get_or boot.now.segments at (plain_segment (call_at call.now)) }
        requires counts { HasCounts steps.old (blocks_before boot.now at) }
        requires on { IsOn self.old.device }
        ensures ran { Plays K.held (block_plan number (blocks_before boot.now at) (plain_segment (call_at call.now)).lanes) result self.old sink.old self.new sink.new }
        ensures counts { IsOk result → HasCounts steps.new (blocks_before boot.now (at + 1)) }
        ensures faults { HasSinkCause result (K.faults sink.old) (K.faults sink.new) }
        ensures on { IsOk result → IsOn self.new.device }
    {
        let step = steps[0] + 1;
        self.play_call(alloc, sink, number, 0, step, call)?;
        steps[0] = step;
        Ok(())
    }

    /// The lanes of a segment that stands at a place of a boot.
    fn play_segment<K: Sink>(
        &mut self,
        alloc: Global,
        sink: &mut K,
        number: u32,
        steps: &mut [u32; LANES],
        boot: &ScriptBoot,
        at: usize,
        segment: &Segment,
    ) -> Result<(), PutFailed>
        requires playable { IsPlayableBoot (2 ^ 32) boot.now }
        requires there { at < length boot.now.segments }
        requires here { segment.now ≡ get_or boot.now.segments at segment.now }
        requires counts { HasCounts steps.old (blocks_before boot.now at) }
        requires on { IsOn self.old.device }
        ensures ran { Plays K.held (block_plan number (blocks_before boot.now at) segment.now.lanes) result self.old sink.old self.new sink.new }
        ensures counts { IsOk result → HasCounts steps.new (blocks_before boot.now (at + 1)) }
        ensures faults { HasSinkCause result (K.faults sink.old) (K.faults sink.new) }
        ensures on { IsOk result → IsOn self.new.device }
    {
        for lane in segment.lanes.as_slice() {
            let earlier = steps[lane.number as usize];
            self.play_lane(alloc, sink, number, earlier, lane)?;
            steps[lane.number as usize] = earlier + lane.calls.as_slice().len() as u32;
        }
        Ok(())
    }

    /// The calls of a lane block, the first of which is step `earlier` + 1 of its lane.
    fn play_lane<K: Sink>(
        &mut self,
        alloc: Global,
        sink: &mut K,
        boot: u32,
        earlier: u32,
        lane: &Lane,
    ) -> Result<(), PutFailed>
        requires playable { IsPlayableLane lane.now }
        requires few { earlier + length lane.now.calls < 2 ^ 32 }
        requires on { IsOn self.old.device }
        ensures ran { Plays K.held (call_plan boot lane.now.number earlier lane.now.calls) result self.old sink.old self.new sink.new }
        ensures faults { HasSinkCause result (K.faults sink.old) (K.faults sink.new) }
        ensures on { IsOk result → IsOn self.new.device }
    {
        let mut step = earlier;
        for call in lane.calls.as_slice() {
            step += 1;
            self.play_call(alloc, sink, boot, lane.number, step, &call.borrowed())?;
        }
        Ok(())
    }

    /// A call: its turn enters, and then its line is put.
    fn play_call<K: Sink>(
        &mut self,
        alloc: Global,
        sink: &mut K,
        boot: u32,
        lane: u32,
        step: u32,
        call: &CallRef,
    ) -> Result<(), PutFailed>
        requires built { IsBuilt (call_at call.now) }
        requires on { IsOn self.old.device }
        ensures ran { Plays K.held (planned_call boot lane step (call_at call.now) ∷ []) result self.old sink.old self.new sink.new }
        ensures faults { HasSinkCause result (K.faults sink.old) (K.faults sink.new) }
        ensures on { IsOk result → IsOn self.new.device }
    {
        let row = TurnRow {
            boot,
            lane,
            step,
            fate: Fate::Answered,
        };
        match &self.enter_call(alloc, row, call) {
            Answer::Answered(reply) => self.text.reply_line(alloc, sink, &row, reply),
            Answer::NoMemory { .. } => Err(PutFailed::NoMemory),
        }
    }
}
