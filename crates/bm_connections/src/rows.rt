//! The connections of a capture, in the order of their first packets.
ghost use Rattle.std.specs.Prelude.{◌≡◌, ◌∷◌, ◌++◌, ◌<◌, [], false, length, Some, None, OnOk};
ghost use Rattle.std.specs.Prelude.{reverse};
ghost use Rattle.bm_connections.specs.declared.connection.Ending.TheVariants.{Open as opened};
ghost use Rattle.bm_connections.specs.Inside.Marks as noted;
ghost use Rattle.bm_connections.specs.Inside.Rows as kept;

use crate::connection::{Connection, Ending, Sight, Tally};
use crate::endings::{ending_after, has_data_at, is_risky};
use bm_base::{Flow, Record, Segment};
use std::alloc::{AllocError, Global};

/// The mark of the packet of this number, counted from 1.
fn mark_of(marks: &[bool], packet: u32) -> bool
    ensures { result ≡ noted.mark_of marks.now packet }
{
    if packet == 0 {
        return false;
    }
    match marks.get(packet as usize - 1) {
        Some(mark) => *mark,
        None => false,
    }
}

/// No arrivals.
const NONE: Tally = Tally {
    accepted: 0,
    processed: 0,
    forwarded: 0,
    reset: 0,
    dropped: 0,
    stray: 0,
    after_its_end: 0,
};

/// The flow of a segment whose first packet is in this record, without arrivals.
fn seen_from(segment: &Segment, sight: Sight) -> Connection
    ensures { result
        ≡ kept.seen_from segment.now.flow sight sight (kept.ending_after segment.now opened) }
{
    Connection {
        flow: segment.flow,
        first: sight,
        last: sight,
        ending: ending_after(segment, Ending::Open),
        server: None,
        tally: NONE,
        forwarded: None,
        broken: None,
        refused: None,
        losing_data: false,
    }
}

impl Connection {
    /// Records another packet.
    fn see_again(&mut self, segment: &Segment, sight: Sight)
        ensures { self.new ≡ kept.seen_again sight segment.now self.old }
    {
        self.last = sight;
        self.ending = ending_after(segment, self.ending);
    }
}

/// The connections, as far as records and events have been read.
#[derive(Drop)]
pub(crate) struct Rows {
    /// For each record the place of its connection, if it is a packet of one.
    pub(crate) places: Vec<Option<usize>>,
    /// For each record whether data is lost if it isn't processed.
    pub(crate) risky: Vec<bool>,
    pub(crate) connections: Vec<Connection>,
}

impl Rows {
    pub(crate) fn new(alloc: Global) -> Rows
        ensures places { result.places.items ≡ [] }
        ensures risky { result.risky.items ≡ [] }
        ensures connections { result.connections.items ≡ [] }
    {
        Rows {
            places: Vec::new(alloc),
            risky: Vec::new(alloc),
            connections: Vec::new(alloc),
        }
    }

    /// How many connections there are.
    pub(crate) fn count(&self) -> usize
        ensures { result ≡ length self.now.connections.items }
    {
        self.connections.len()
    }

    /// The next record isn't a packet of a connection.
    pub(crate) fn see_none(&mut self) -> Result<(), AllocError>
        ensures places { OnOk result (self.new.places.items ≡ self.old.places.items ++ None ∷ []) }
        ensures risky { OnOk result
            (self.new.risky.items ≡ self.old.risky.items ++ false ∷ []) }
        ensures connections { self.new.connections ≡ self.old.connections }
    {
        self.places.push(None)?;
        self.risky.push(false)?;
        Ok(())
    }

    /// The next record is the first packet of a connection.
    pub(crate) fn see_first(
        &mut self,
        segment: &Segment,
        sight: Sight,
        risky: bool,
    ) -> Result<(), AllocError>
        ensures places { OnOk result (self.new.places.items
            ≡ self.old.places.items ++ Some (length self.old.connections.items) ∷ []) }
        ensures risky { OnOk result
            (self.new.risky.items ≡ self.old.risky.items ++ risky ∷ []) }
        ensures connections { OnOk result (self.new.connections.items
            ≡ self.old.connections.items
            ++ kept.seen_from segment.now.flow sight sight (kept.ending_after segment.now opened)
            ∷ []) }
    {
        self.places.push(Some(self.connections.len()))?;
        self.risky.push(risky)?;
        self.connections.push(seen_from(segment, sight))?;
        Ok(())
    }

    /// The next record is another packet of the connection at this place.
    pub(crate) fn see_again(
        &mut self,
        place: usize,
        segment: &Segment,
        sight: Sight,
        risky: bool,
    ) -> Result<(), AllocError>
        requires { place < length self.old.connections.items }
        ensures places { OnOk result (self.new.places.items
            ≡ self.old.places.items ++ Some place ∷ []) }
        ensures risky { OnOk result
            (self.new.risky.items ≡ self.old.risky.items ++ risky ∷ []) }
        ensures connections { OnOk result (self.new.connections.items
            ≡ kept.changed_at (kept.seen_again sight segment.now) self.old.connections.items
            place) }
    {
        self.places.push(Some(place))?;
        self.risky.push(risky)?;
        self.connections[place].see_again(segment, sight);
        Ok(())
    }

    /// Whether the segment that comes after these records concerns more than the farewell of the
    /// connection at this place.
    pub(crate) fn is_risky_at(&self, place: usize, before: &[Record], segment: &Segment) -> bool
        requires { place < length self.now.connections.items }
        ensures { result
            ≡ kept.is_risky_at self.now.connections.items place (reverse before.now)
            segment.now }
    {
        let c = &self.connections[place];
        is_risky(segment, has_data_at(before, c.last.number), c.ending)
    }

    /// Whether data is lost if the packet isn't processed.
    pub(crate) fn risks_data(&self, packet: u32) -> bool
        ensures { result ≡ noted.mark_of self.now.risky.items packet }
    {
        mark_of(self.risky.as_slice(), packet)
    }

    /// The place of the packet's connection, if it has one.
    pub(crate) fn place_of(&self, packet: u32) -> Option<usize>
        ensures { result ≡ kept.packet_place self.now.places.items packet }
    {
        let record = packet.checked_sub(1)? as usize;
        *self.places.get(record)?
    }

    /// The connections, in the order of their first packets.
    pub(crate) fn into_connections(self) -> Vec<Connection>
        ensures { result ≡ self.connections }
    {
        let Rows {
            places: _places,
            risky: _risky,
            connections,
        } = self;
        connections
    }
}
