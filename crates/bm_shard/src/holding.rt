//! What a shard holds.
ghost use Rattle.std.specs.Prelude.{◌≡◌, ◌==◌, ◌<◌, ◌≤◌, length, is_some};
ghost use Rattle.std.specs.Bool.{OnFalse};
ghost use Rattle.bm_conn.specs.Connections.{HasRoom, receiver_in};
ghost use Rattle.bm_conn.specs.Layouts.{IsFound};
ghost use Rattle.bm_core.specs.Books.{Closed, RetiredAs, Took};
ghost use Rattle.bm_core.specs.Verdicts.{verdict_on};
ghost use Rattle.bm_core.specs.declared.events.What.TheVariants.{Arrive as Arrives};
ghost use Rattle.bm_core.specs.declared.events.What.TheVariants.{Close as Closes};
ghost use Rattle.bm_core.specs.declared.events.What.TheVariants.{Retire as Retires};
ghost use Rattle.bm_shard.specs.Holdings.{TakesTurn, local_in};
ghost use Rattle.bm_shard.specs.Inside.Holdings.{CanOpen, CanServe, CanTake, Takes};
ghost use Rattle.bm_shard.specs.Replies.{answer_for, is_held_by, reply_of, turn_of, verdict_by};
ghost use Rattle.bm_shard.specs.Replies.{what_of};
ghost use Rattle.bm_shard.specs.declared.calls.ShardReply.TheVariants.{Arrived, Retired};

use crate::calls::answer_to;
use crate::{Shard, ShardCall, ShardReply};
use bm_base::{Flow, Moment, Segment, Tag, Taken};
use bm_conn::{ConnTable, Found};
use bm_core::{Local, Verdict, What, decide};
use bm_seq::Receiver;
use bm_table::Retirement;

/// The connections of a shard, and whether it is retired.
#[derive(Drop)]
pub(crate) struct Holding {
    pub(crate) table: ConnTable,
    pub(crate) retired: bool,
}

impl Holding {
    /// What the shard knows of a flow that was searched for.
    fn local(&self, found: Found) -> Local
        requires { found.receiver ≡ receiver_in self.now.table.connections found.flow }
        ensures local { result ≡ local_in self.now found.flow }
        ensures free { OnFalse result.full
            (length self.now.table.connections < self.now.table.capacity) }
    {
        Local {
            retired: self.retired,
            held: found.receiver,
            full: self.table.is_full(),
        }
    }

    /// Carries out the call: what happened, and the reply.
    #[inline(always)]
    pub(crate) fn serve(
        &mut self,
        shard: &Shard,
        clock: Moment,
        call: &ShardCall,
    ) -> (What, ShardReply)
        requires { CanServe call.now self.old }
        ensures what { result.0 ≡ what_of shard.now (local_in self.old) clock call.now }
        ensures reply { result.1 ≡ reply_of shard.now (local_in self.old) clock call.now }
        ensures effect { TakesTurn (turn_of shard.now (local_in self.old) clock call.now) self.old
            self.new }
    {
        match *call {
            ShardCall::Arrive {
                packet,
                tag,
                segment,
                ..
            } => self.serve_arrival(shard, clock, packet, &tag, &segment),
            ShardCall::Close { flow, .. } => self.serve_close(shard, clock, flow),
            ShardCall::Retire {
                at,
                result: outcome,
            } => self.serve_retirement(shard, clock, at, outcome),
        }
    }

    /// A copy of a packet arrives.
    fn serve_arrival(
        &mut self,
        shard: &Shard,
        clock: Moment,
        packet: u32,
        tag: &Tag,
        segment: &Segment,
    ) -> (What, ShardReply)
        requires room { HasRoom self.old.table }
        requires len { segment.now.len ≤ 1048576 }
        ensures what { result.0 ≡ Arrives packet tag.now.hop shard.now.server
            (verdict_by shard.now (local_in self.old) clock tag.now segment.now) }
        ensures reply { let verdict =
            verdict_by shard.now (local_in self.old) clock tag.now segment.now in
            result.1 ≡ Arrived clock verdict (answer_for verdict segment.now) }
        ensures effect { TakesTurn
            (Took segment.now (verdict_by shard.now (local_in self.old) clock tag.now segment.now))
            self.old self.new }
    {
        let verdict = self.arrive(tag, segment, clock, shard.timeout);
        let answer = answer_to(verdict, segment);
        let what = What::Arrive {
            packet,
            hop: tag.hop,
            server: shard.server,
            verdict,
        };
        let reply = ShardReply::Arrived {
            clock,
            verdict,
            answer,
        };
        (what, reply)
    }

    /// The server ends a connection, if it holds one.
    fn serve_close(&mut self, shard: &Shard, clock: Moment, flow: Flow) -> (What, ShardReply)
        ensures what { result.0
            ≡ Closes shard.now.server flow (is_held_by (local_in self.old) flow) }
        ensures reply { result.1 ≡ ShardReply.Closed clock (is_held_by (local_in self.old) flow) }
        ensures effect { TakesTurn (Closed flow (is_held_by (local_in self.old) flow)) self.old
            self.new }
    {
        let closed = self.close(&flow);
        let what = What::Close {
            server: shard.server,
            flow,
            closed,
        };
        (what, ShardReply::Closed { clock, closed })
    }

    /// The shard is asked to retire, with this result.
    fn serve_retirement(
        &mut self,
        shard: &Shard,
        clock: Moment,
        at: Moment,
        outcome: Retirement,
    ) -> (What, ShardReply)
        ensures what { result.0 ≡ Retires shard.now.server shard.now.number at outcome }
        ensures reply { result.1 ≡ Retired clock }
        ensures effect { TakesTurn (RetiredAs outcome) self.old self.new }
    {
        self.retire(outcome);
        let what = What::Retire {
            server: shard.server,
            shard: shard.number,
            at,
            result: outcome,
        };
        (what, ShardReply::Retired { clock })
    }

    /// Decides on a copy of a packet, and carries out the verdict.
    fn arrive(&mut self, tag: &Tag, segment: &Segment, clock: Moment, timeout: u64) -> Verdict
        requires room { HasRoom self.old.table }
        requires len { segment.now.len ≤ 1048576 }
        ensures verdict { result ≡ verdict_on (local_in self.old segment.now.flow) timeout clock.0
            tag.now segment.now }
        ensures effect { TakesTurn (Took segment.now result) self.old self.new }
    {
        let found = self.table.seek(&segment.flow);
        let local = self.local(found);
        let verdict = decide(&local, tag, segment, clock, timeout);
        self.settle(verdict, segment, found);
        verdict
    }

    /// Carries out the verdict on the flow, which was searched for.
    fn settle(&mut self, verdict: Verdict, segment: &Segment, found: Found)
        requires can { CanTake verdict segment.now self.old }
        requires len { segment.now.len ≤ 1048576 }
        requires flow { found.flow ≡ segment.now.flow }
        requires found { IsFound self.old.table.connections self.old.table.slots found }
        ensures { TakesTurn (Took segment.now verdict) self.old self.new }
    {
        match verdict {
            Verdict::Accept => self.accept(segment, found),
            Verdict::Process(Taken::Ended) => {
                self.table.remove_at(found);
            }
            Verdict::Process(_) => self.take(segment, found),
            Verdict::Forward(_) | Verdict::Reset(_) | Verdict::Drop(_) => {}
        }
    }

    /// Opens the flow's connection, in place of one that it may have had.
    fn accept(&mut self, segment: &Segment, found: Found)
        requires can { CanOpen segment.now.flow self.old }
        requires flow { found.flow ≡ segment.now.flow }
        requires found { IsFound self.old.table.connections self.old.table.slots found }
        ensures { TakesTurn (Took segment.now Verdict.Accept) self.old self.new }
    {
        let receiver = Receiver::open(segment);
        if found.receiver.is_some() {
            self.table.replace_at(found, receiver);
        } else {
            self.table.insert_at(found, receiver);
        }
    }

    /// The flow's receiver takes the segment, if the flow is held.
    fn take(&mut self, segment: &Segment, found: Found)
        requires len { segment.now.len ≤ 1048576 }
        requires flow { found.flow ≡ segment.now.flow }
        requires found { IsFound self.old.table.connections self.old.table.slots found }
        ensures { Takes segment.now self.old self.new }
    {
        let Some(before) = found.receiver else { return };
        let mut receiver = before;
        receiver.take(segment);
        if receiver != before {
            self.table.replace_at(found, receiver);
        }
    }

    /// Ends the flow's connection; whether there was one.
    fn close(&mut self, flow: &Flow) -> bool
        ensures closed { result ≡ is_some (receiver_in self.old.table.connections flow.now) }
        ensures effect { TakesTurn (Closed flow.now result) self.old self.new }
    {
        self.table.remove(flow)
    }

    /// A retirement that is done ends all connections.
    fn retire(&mut self, outcome: Retirement)
        ensures { TakesTurn (RetiredAs outcome) self.old self.new }
    {
        if outcome == Retirement::Done {
            self.table.clear();
            self.retired = true;
        }
    }
}
