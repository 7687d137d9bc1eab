//! A replay in progress: its state, what comes next, and the steps.
ghost use Rattle.std.specs.Prelude.{◌≡◌, ◌*◌, ◌^◌, ◌<◌, ◌≤◌, IfOk, IfSome, OnOk, Some};
ghost use Rattle.std.specs.Prelude.{length, true};
ghost use Rattle.std.specs.Bool.{OnTrue};
ghost use Rattle.bm_base.specs.declared.ids.ServerId.{ServerId};
ghost use Rattle.bm_base.specs.Pieces.{cleared};
ghost use Rattle.bm_link.specs.Fits.{ArePackets};
ghost use Rattle.bm_table.specs.Plans.{IsPlan};
ghost use Rattle.bm_table.specs.Tables.{next_change};
ghost use Rattle.bm_route.specs.Routes.{Answers, IsRoute};
ghost use Rattle.bm_fault.specs.Faults.{Gives, IsRule};
ghost use Rattle.bm_core.specs.Stages.{IsSound};
ghost use Rattle.bm_core.specs.Soon.{IsSoon};
ghost use Rattle.bm_replay.specs.declared.coming.Coming.TheVariants.{Arrive, Call as called};
ghost use Rattle.bm_replay.specs.Inside.Carriers.{next_tag};
ghost use Rattle.bm_replay.specs.Inside.Flights.{copies_put};
ghost use Rattle.bm_replay.specs.Inside.Packets.{HoldsPackets};
ghost use Rattle.bm_replay.specs.Inside.Players as players;
ghost use Rattle.bm_replay.specs.Inside.Players.{CanArrive, CanSteer, CanSwitch, HasArrived};
ghost use Rattle.bm_replay.specs.Inside.Players.{HasCalled};
ghost use Rattle.bm_replay.specs.Inside.Players.{HasClosed, HasGone, HasLetGo, HasPlaces};
ghost use Rattle.bm_replay.specs.Inside.Players.{HasRoom};
ghost use Rattle.bm_replay.specs.Inside.Players.{HasRetired};
ghost use Rattle.bm_replay.specs.Inside.Players.{HasSent, KeepsPackets};
ghost use Rattle.bm_replay.specs.Inside.Players.{HasSteered, HasSwitched, HasSynced, IsNew};
ghost use Rattle.bm_replay.specs.Inside.Players.{after_loss};
ghost use Rattle.bm_replay.specs.Inside.Players.{after_publish, chained, coming_for, forwards};
ghost use Rattle.bm_replay.specs.Inside.Players.{happened};
ghost use Rattle.bm_replay.specs.Inside.Comings.{is_before};
ghost use Rattle.bm_replay.specs.Inside.Players.{done_for, publish_after, soonest_command, what_for};
ghost use Rattle.bm_replay.specs.Inside.Playing.{HasPlayed, HasStepped, IsComing, IsPlaying};
ghost use Rattle.bm_shard.specs.Books.{IsTaken};
ghost use Rattle.bm_replay.specs.Inside.Shards.{place_of};

use crate::carrier::Carrier;
use crate::coming::{Coming, first_coming, is_before, sooner, soonest};
use crate::events::Events;
use crate::mux::Muxes;
use crate::queue::{Queue, later_retire, next_close, next_packet, next_retire, next_sync};
use crate::shards::{Shards, before};
use bm_base::{Fate, Flow, Hop, Memory, Moment, MuxId, Octets, ServerId, Version, tag_of};
use bm_core::{Call, Due, Event, History, Stage, Verdict, What, next_clock};
use bm_fault::{Faults, Flight, Wire};
use bm_hash::{bucket_of, shard_of};
use bm_route::Route;
use bm_shard::ShardCall;
use std::alloc::Global;

/// One more than the number of servers that there may be, since they count from 1.
const SERVERS: u16 = 1_025;

/// The fewest packets that are freed together.
const FEWEST_LET_GO: u32 = 16_384;

/// A sending without copies, whose loss is recorded next.
#[derive(Clone, Copy, PartialEq, Eq)]
pub(crate) struct Loss {
    pub(crate) packet: u32,
    pub(crate) hop: Hop,
}

/// A replay in progress.
#[derive(Drop)]
pub(crate) struct Player {
    pub(crate) stage: Stage,
    /// The packet of each record; no octets where it was freed.
    pub(crate) packets: Octets,
    /// How many packets at the front were freed.
    pub(crate) cleared: u32,
    /// What happened so far.
    pub(crate) events: Events,
    /// The clock of the last event.
    pub(crate) clock: Moment,
    /// A loss that is recorded next.
    pub(crate) loss: Option<Loss>,
    /// The copies under way.
    pub(crate) wire: Wire,
    /// The newest version that was published.
    pub(crate) published: u32,
    /// The muxes.
    pub(crate) muxes: Muxes,
    /// The soonest switch of a mux.
    pub(crate) switch: Option<Due>,
    /// What comes next of the closes.
    pub(crate) close: Queue,
    /// What comes next of the retires, each for one shard.
    pub(crate) retire: Queue,
    /// What comes next of the syncs.
    pub(crate) sync: Queue,
    /// What comes next of the packets.
    pub(crate) packet: Queue,
    /// The shards of all servers.
    pub(crate) shards: Shards,
}

/// The parts of a replay that need memory, before anything has happened.
#[derive(Drop)]
struct Room {
    events: Events,
    muxes: Muxes,
    shards: Shards,
}

impl Room {
    /// No events, and muxes and shards as they are at first.
    fn new(alloc: Global, stage: &Stage) -> Result<Room, Memory>
        requires { IsSound stage.now }
        ensures plan { IsPlan stage.now.script.plan }
        ensures room { IfOk result (HasRoom stage.now) }
    {
        let setting = &stage.script.setting;
        let plan = &stage.script.plan;
        // Each change is published.
        let events = Events::with_room(alloc, plan.versions() as usize)?;
        let muxes = Muxes::new(alloc, plan, setting.muxes)?;
        let shards = Shards::new(alloc, setting, SERVERS)?;
        Ok(Room {
            events,
            muxes,
            shards,
        })
    }
}

impl Player {
    /// A replay in which nothing has happened yet.
    pub(crate) fn new(alloc: Global, stage: Stage, packets: Octets) -> Result<Player, Memory>
        requires sound { IsSound stage }
        requires packets { ArePackets stage.capture.records packets }
        ensures new { IfOk result (IsNew stage) }
        ensures packets { IfOk result (λ p. p.packets ≡ packets) }
    {
        let Room {
            events,
            muxes,
            shards,
        } = Room::new(alloc, &stage)?;
        let setting = &stage.script.setting;
        let commands = stage.script.commands.items();
        let switch = muxes.soonest(&stage.script.plan, setting.lags.items(), setting.muxes);
        let close = next_close(commands, 0);
        let retire = next_retire(commands, 0);
        let sync = next_sync(commands, 0);
        let packet = next_packet(stage.capture.records.items(), 0);
        Ok(Player {
            stage,
            packets,
            cleared: 0,
            events,
            clock: Moment(0),
            loss: None,
            wire: Wire::new(alloc),
            published: 0,
            muxes,
            switch,
            close,
            retire,
            sync,
            packet,
            shards,
        })
    }

    /// What comes next.
    fn coming(&self) -> Coming
        requires { length self.now.stage.script.plan.changes ≤ 4096 }
        ensures { result ≡ coming_for self.now }
    {
        let copy = self.wire.least();
        let packet = self.packet.head;
        // Mostly a copy or a packet comes before all commands, whichever of these is the soonest.
        match soonest(copy, packet) {
            Some(moment) if self.is_quiet(moment) => first_coming(None, copy, packet),
            _ => first_coming(self.command(), copy, packet),
        }
    }

    /// Whether each change and command comes after this moment.
    fn is_quiet(&self, moment: Moment) -> bool
        requires { length self.now.stage.script.plan.changes ≤ 4096 }
        ensures { OnTrue result (is_before moment.0 (soonest_command self.now) ≡ true) }
    {
        if !is_before(moment, self.publication()) {
            return false;
        }
        if !is_before(moment, self.switch) {
            return false;
        }
        if !is_before(moment, self.close.head) {
            return false;
        }
        if !is_before(moment, self.retire.head) {
            return false;
        }
        if !is_before(moment, self.sync.head) {
            return false;
        }
        true
    }

    /// The soonest change or command.
    #[inline(never)]
    fn command(&self) -> Option<Due>
        requires { length self.now.stage.script.plan.changes ≤ 4096 }
        ensures { result ≡ soonest_command self.now }
    {
        let change = sooner(self.publication(), self.switch);
        let close = sooner(change, self.close.head);
        let retire = sooner(close, self.retire.head);
        sooner(retire, self.sync.head)
    }

    /// The publication of the next change.
    fn publication(&self) -> Option<Due>
        requires { length self.now.stage.script.plan.changes ≤ 4096 }
        ensures { result
            ≡ publish_after self.now.published
            (next_change self.now.stage.script.plan self.now.published) }
    {
        let change = self.stage.script.plan.next_change(Version(self.published))?;
        Some(Due {
            moment: change.moment.0,
            number: self.published as usize,
            call: Call::Publishes(self.published + 1),
        })
    }

    /// Records that this happens at this clock.
    fn write(&mut self, clock: Moment, what: What) -> Result<(), Memory>
        ensures { IfOk result (λ _. self.new ≡ happened clock what self.old) }
    {
        self.events.push(Event { clock, what })?;
        self.clock = clock;
        Ok(())
    }

    /// The history of what happened, and the packets.
    pub(crate) fn into_parts(self) -> (History, Octets)
        ensures history { result.0 ≡ record { stage = self.stage; events = self.events } }
        ensures packets { result.1 ≡ self.packets }
    {
        let history = History {
            stage: self.stage,
            events: self.events.into_list(),
        };
        (history, self.packets)
    }

    /// Carries out what comes next; false if nothing is left. Packets under way are written into
    /// the carrier.
    pub(crate) fn step<R: Fn(u32, &Flow) -> u16, F: Fn(u32, Hop) -> Fate>(
        &mut self,
        carrier: &mut Carrier,
        route: &Route<R>,
        faults: &Faults<F>,
    ) -> Result<bool, Memory>
        requires playing { IsPlaying (Answers R.Fn route.now.rule) (Gives F.Fn faults.now.rule)
            self.old }
        requires route { IsRoute R.Fn route.now.rule route.now.muxes }
        requires muxes { route.now.muxes ≡ self.old.stage.script.setting.muxes }
        requires faults { IsRule F.Fn faults.now.rule }
        ensures { IfOk result
            (HasStepped (Answers R.Fn route.now.rule) (Gives F.Fn faults.now.rule) self.old
            self.new) }
    {
        if let Some(loss) = self.loss {
            self.lose(loss)?;
            return Ok(true);
        }
        match self.coming() {
            Coming::Arrive(moment) => {
                let clock = next_clock(self.clock, moment);
                self.arrive(clock, carrier, faults)?;
            }
            Coming::Call(due) => {
                let clock = next_clock(self.clock, Moment(due.moment));
                self.carry_out(clock, due, route, faults)?;
            }
            Coming::Over => return Ok(false),
        }
        Ok(true)
    }

    /// Frees packets that are no longer needed, once there are many.
    pub(crate) fn let_go(&mut self)
        requires { KeepsPackets self.old }
        ensures { HasLetGo self.old self.new }
    {
        if let Some(done) = self.done() {
            self.packets.clear_first(done);
            self.cleared = done;
        }
    }

    /// How many packets at the front are no longer needed: those before the one that is steered
    /// next, if no copy is under way. None if freeing them isn't worth the time: they are fewer
    /// than 16,384, or fewer than the packets after them.
    fn done(&self) -> Option<u32>
        requires { KeepsPackets self.now }
        ensures exact { result ≡ done_for self.now }
        ensures within { IfSome result (λ done. done ≤ length self.now.packets) }
        ensures holds { IfSome result (λ done. HoldsPackets self.now.stage.capture.records done
            (cleared done self.now.packets) self.now.wire self.now.packet) }
    {
        let Call::Steers(packet) = self.packet.head?.call else {
            return None;
        };
        let done = packet - 1;
        let more = done - self.cleared;
        let many = more >= FEWEST_LET_GO && more >= self.packets.len() - done;
        if many && self.wire.least().is_none() {
            Some(done)
        } else {
            None
        }
    }

    /// Carries out the change, command or packet that is due.
    fn carry_out<R: Fn(u32, &Flow) -> u16, F: Fn(u32, Hop) -> Fate>(
        &mut self,
        clock: Moment,
        due: Due,
        route: &Route<R>,
        faults: &Faults<F>,
    ) -> Result<(), Memory>
        requires coming { IsComing (Answers R.Fn route.now.rule) (Gives F.Fn faults.now.rule) clock
            (called due) self.old }
        requires route { IsRoute R.Fn route.now.rule route.now.muxes }
        requires muxes { route.now.muxes ≡ self.old.stage.script.setting.muxes }
        requires faults { IsRule F.Fn faults.now.rule }
        ensures { IfOk result
            (λ _. HasPlayed (Answers R.Fn route.now.rule) (Gives F.Fn faults.now.rule) self.old
            self.new) }
    {
        match due.call {
            Call::Publishes(version) => self.publish(clock, version)?,
            Call::Switches(mux, version) => self.switch(clock, mux, version)?,
            Call::Closes(server, flow) => self.close(clock, server, &flow)?,
            Call::Retires(server, shard, at) => self.retire(clock, server, shard, Moment(at))?,
            Call::Syncs => self.sync(clock)?,
            Call::Steers(packet) => self.steer(clock, packet, route, faults)?,
            Call::Arrives(..) | Call::Loses(..) => unreachable!(),
        }
        Ok(())
    }

    /// Records the loss, directly after its sending.
    fn lose(&mut self, loss: Loss) -> Result<(), Memory>
        requires { self.old.clock.0 < 2 ^ 63 }
        ensures { IfOk result (λ _. self.new ≡ after_loss loss self.old) }
    {
        self.loss = None;
        self.write(
            Moment(self.clock.0 + 1),
            What::Lose {
                packet: loss.packet,
                hop: loss.hop,
            },
        )
    }

    fn publish(&mut self, clock: Moment, version: u32) -> Result<(), Memory>
        ensures { IfOk result (λ _. self.new ≡ after_publish clock version self.old) }
    {
        self.published = version;
        self.write(clock, What::Publish(Version(version)))
    }

    fn switch(&mut self, clock: Moment, mux: u16, version: u32) -> Result<(), Memory>
        requires { CanSwitch mux version self.old }
        ensures { IfOk result (λ _. HasSwitched clock mux version self.old self.new) }
    {
        let setting = &self.stage.script.setting;
        let plan = &self.stage.script.plan;
        let Some(change) = plan.next_change(Version(version - 1)) else {
            unreachable!()
        };
        self.muxes.switch(mux, version, change);
        self.switch = self
            .muxes
            .soonest(plan, setting.lags.items(), setting.muxes);
        self.write(
            clock,
            What::Switch {
                mux: MuxId(mux),
                version: Version(version),
            },
        )
    }

    /// The server closes the flow's connection, if it holds one.
    fn close(&mut self, clock: Moment, server: ServerId, flow: &Flow) -> Result<(), Memory>
        requires places { HasPlaces self.old }
        requires server { server.0 ≤ 1024 }
        requires clock { clock.0 ≤ 6 * 10 ^ 18 }
        ensures { IfOk result (λ _. HasClosed clock server flow.now self.old self.new) }
    {
        let shard = shard_of(flow, self.stage.script.setting.shards);
        self.close = next_close(self.stage.script.commands.items(), self.close.next);
        let call = ShardCall::Close {
            flow: *flow,
            at: before(clock),
        };
        self.serve(clock, server, shard, call)?;
        Ok(())
    }

    /// The server's shard retires, if it may.
    fn retire(
        &mut self,
        clock: Moment,
        server: ServerId,
        shard: u16,
        at: Moment,
    ) -> Result<(), Memory>
        requires places { HasPlaces self.old }
        requires server { server.0 ≤ 1024 }
        requires shard { shard < self.old.stage.script.setting.shards }
        requires at { at.0 ≤ 6 * 10 ^ 18 }
        requires published { self.old.published ≤ length self.old.stage.script.plan.changes }
        ensures { IfOk result (λ _. HasRetired clock server shard at self.old self.new) }
    {
        let setting = &self.stage.script.setting;
        let result = self
            .stage
            .script
            .plan
            .retirement(Version(self.published), server, at, setting.timeout);
        self.retire = later_retire(
            self.stage.script.commands.items(),
            setting.shards,
            &self.retire,
        );
        self.serve(clock, server, shard, ShardCall::Retire { at, result })?;
        Ok(())
    }

    /// Calls the server's shard, and records what happens there at this clock.
    #[inline(always)]
    fn serve(
        &mut self,
        clock: Moment,
        server: ServerId,
        shard: u16,
        call: ShardCall,
    ) -> Result<What, Memory>
        requires places { HasPlaces self.old }
        requires server { server.0 ≤ 1024 }
        requires shard { shard < self.old.stage.script.setting.shards }
        requires taken { IsTaken call }
        ensures what { IfOk result (λ what. what ≡ what_for self.old server shard call) }
        ensures effect { OnOk result (HasCalled clock server shard call self.old self.new) }
    {
        let place = self.place(server, shard);
        let what = self.shards.call(place, &call)?;
        self.write(clock, what)?;
        Ok(what)
    }

    /// Ends a phase.
    fn sync(&mut self, clock: Moment) -> Result<(), Memory>
        ensures { IfOk result (λ _. HasSynced clock self.old self.new) }
    {
        self.sync = next_sync(self.stage.script.commands.items(), self.sync.next);
        self.write(clock, What::Sync)
    }

    /// The place of the server's shard.
    fn place(&self, server: ServerId, shard: u16) -> usize
        ensures { result ≡ place_of self.now.stage server shard }
    {
        usize::from(server.0) * usize::from(self.stage.script.setting.shards) + usize::from(shard)
    }

    /// The packet is steered by the mux to which the route assigns it, and sent.
    fn steer<R: Fn(u32, &Flow) -> u16, F: Fn(u32, Hop) -> Fate>(
        &mut self,
        clock: Moment,
        packet: u32,
        route: &Route<R>,
        faults: &Faults<F>,
    ) -> Result<(), Memory>
        requires can { CanSteer clock packet self.old }
        requires route { IsRoute R.Fn route.now.rule route.now.muxes }
        requires muxes { route.now.muxes ≡ self.old.stage.script.setting.muxes }
        requires faults { IsRule F.Fn faults.now.rule }
        ensures { IfOk result
            (λ _. HasSteered (Answers R.Fn route.now.rule) (Gives F.Fn faults.now.rule) clock packet
            self.old self.new) }
    {
        let Some(segment) = self.stage.segment(packet) else {
            unreachable!()
        };
        let mux = route.mux_of(packet, &segment.flow);
        let bucket = bucket_of(&segment.flow, self.stage.script.setting.buckets);
        let label = self.muxes.label(mux, bucket);
        let tag = tag_of(&label, Hop::Direct);
        self.packet = next_packet(self.stage.capture.records.items(), self.packet.next);
        self.write(clock, What::Steer { packet, mux })?;
        self.send(clock, Flight { packet, tag }, faults)?;
        Ok(())
    }

    /// The first copy under way arrives, and is sent on if it is forwarded.
    fn arrive<F: Fn(u32, Hop) -> Fate>(
        &mut self,
        clock: Moment,
        carrier: &mut Carrier,
        faults: &Faults<F>,
    ) -> Result<(), Memory>
        requires can { CanArrive clock self.old }
        requires faults { IsRule F.Fn faults.now.rule }
        ensures { IfOk result
            (λ _. HasArrived (Gives F.Fn faults.now.rule) clock self.old self.new) }
    {
        let Some(flight) = self.wire.pop() else {
            unreachable!()
        };
        let packet = flight.packet;
        let octets = self.packets.get(packet - 1);
        carrier.load(&flight.tag, octets)?;
        let Some((tag, segment)) = carrier.read(flight.tag.dest) else {
            unreachable!()
        };
        let shard = shard_of(&segment.flow, self.stage.script.setting.shards);
        let call = ShardCall::Arrive {
            packet,
            tag,
            segment,
            due: before(clock),
        };
        let what = self.serve(clock, tag.dest, shard, call)?;
        self.go_on(
            clock,
            Flight { packet, tag },
            carrier,
            next_server(what),
            faults,
        )?;
        Ok(())
    }

    /// Sends on a copy that is forwarded, with its octets rewritten for the next hop.
    fn go_on<F: Fn(u32, Hop) -> Fate>(
        &mut self,
        clock: Moment,
        flight: Flight,
        carrier: &mut Carrier,
        next: Option<ServerId>,
        faults: &Faults<F>,
    ) -> Result<(), Memory>
        requires clock { clock.0 ≤ 6 * 10 ^ 18 }
        requires next { (to : ServerId) → next ≡ Some to
            → next_tag carrier.old ≡ Some (chained to flight).tag }
        requires faults { IsRule F.Fn faults.now.rule }
        ensures { IfOk result
            (λ _. HasGone (Gives F.Fn faults.now.rule) clock flight next self.old self.new) }
    {
        if let Some(_) = next {
            let Some(tag) = carrier.go_on() else {
                unreachable!()
            };
            let packet = flight.packet;
            self.send(clock, Flight { packet, tag }, faults)?;
        }
        Ok(())
    }

    /// Sends the flight, with the fate that the impairment rule gives it.
    fn send<F: Fn(u32, Hop) -> Fate>(
        &mut self,
        clock: Moment,
        flight: Flight,
        faults: &Faults<F>,
    ) -> Result<(), Memory>
        requires clock { clock.0 ≤ 6 * 10 ^ 18 }
        requires faults { IsRule F.Fn faults.now.rule }
        ensures { IfOk result
            (λ _. HasSent (Gives F.Fn faults.now.rule) clock flight self.old self.new) }
    {
        let fate = faults.fate(flight.packet, flight.tag.hop);
        self.put(clock, fate, flight)
    }

    /// Puts the copies of a sending under way, or its loss in line to be recorded.
    fn put(&mut self, clock: Moment, fate: Fate, flight: Flight) -> Result<(), Memory>
        requires clock { clock.0 ≤ 6 * 10 ^ 18 }
        requires soon { IsSoon fate }
        ensures { IfOk result (λ _. self.new ≡ players.sent fate clock flight self.old) }
    {
        let due = Moment(clock.0 + fate.delay);
        put_copies(&mut self.wire, fate.copies, due, flight)?;
        self.loss = loss_of(fate, &flight);
        Ok(())
    }
}

/// Puts this many copies of a flight on the wire.
fn put_copies(wire: &mut Wire, copies: u8, due: Moment, flight: Flight) -> Result<(), Memory>
    ensures { IfOk result
        (λ _. wire.new ≡ copies_put copies (record { due = due; flight = flight }) wire.old) }
{
    for _ in 0..copies {
        wire.put(due, flight)?;
    }
    Ok(())
}

/// The server to which an arrival's copy is forwarded, if it is.
fn next_server(what: What) -> Option<ServerId>
    ensures { result ≡ forwards what }
{
    match what {
        What::Arrive { verdict, .. } => match verdict {
            Verdict::Forward(server) => Some(server),
            _ => None,
        },
        _ => None,
    }
}

/// A sending without copies is lost.
fn loss_of(fate: Fate, flight: &Flight) -> Option<Loss>
    ensures { result ≡ players.loss_of fate flight.now }
{
    if fate.copies == 0 {
        Some(Loss {
            packet: flight.packet,
            hop: flight.tag.hop,
        })
    } else {
        None
    }
}
