//! When each flow was last seen.
ghost use Rattle.std.specs.Prelude.{◌≡◌, ◌∷◌, [], List, OnOk, IfOk, reverse};
ghost use Rattle.bm_base.specs.declared.capture.Record.{Record};

use bm_base::{Body, Flow, Moment, Record};
use std::alloc::{AllocError, Global};
use std::collections::BTreeMap;

/// The moment of each flow's last packet.
#[derive(Drop)]
pub(crate) struct LastSeen {
    moments: BTreeMap<Flow, Moment>,
}

impl LastSeen {
    ghost use Rattle.bm_base.specs.declared.flow.Flow.{Flow};
    ghost use Rattle.bm_connections.specs.Inside.Needs.{KnowsLast, last_in, moment_in, put_last};

    /// The moment of the flow's last packet, or 0.
    pub(crate) fn of(&self, flow: &Flow) -> Moment
        ensures { result ≡ moment_in self.now flow.now }
    {
        match self.moments.get(flow) {
            Some(moment) => *moment,
            None => Moment(0),
        }
    }

    fn put(&mut self, flow: Flow, moment: Moment) -> Result<(), AllocError>
        ensures { OnOk result
            ((q : Flow) → last_in self.new q ≡ put_last flow moment q (last_in self.old q)) }
    {
        self.moments.insert(flow, moment)?;
        Ok(())
    }

    /// Takes in the record that comes after these.
    fn see(&mut self, next: &Record) -> Result<(), AllocError>
        ensures { (records : List Record) → KnowsLast records self.old
            → OnOk result (KnowsLast (next.now ∷ records) self.new) }
    {
        if let Body::Steerable(segment) = next.body {
            self.put(segment.flow, next.moment)?;
        }
        Ok(())
    }

    /// The last moments of the flows of these records.
    pub(crate) fn new(alloc: Global, records: &[Record]) -> Result<LastSeen, AllocError>
        ensures { IfOk result (KnowsLast (reverse records.now)) }
    {
        let mut last = LastSeen {
            moments: BTreeMap::new(alloc),
        };
        for record in records {
            last.see(record)?;
        }
        Ok(last)
    }
}
