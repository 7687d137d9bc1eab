//! The pass over the records: which flows there are, and where each was seen.
ghost use Rattle.std.specs.Prelude.{◌≡◌, ◌<◌, ◌≤◌, ◌∷◌, [], length, OnOk, IfOk, reverse, Some};
ghost use Rattle.std.specs.Prelude.{if◌then◌else◌};
ghost use Rattle.std.specs.BTreeMap as tree;
ghost use Rattle.bm_base.specs.declared.capture.Body.TheVariants.{Steerable as steerable};
ghost use Rattle.bm_base.specs.declared.flow.Flow.{Flow};
ghost use Rattle.bm_base.specs.Segments.{same_flow};
ghost use Rattle.bm_core.specs.declared.events.Stage.{Stage};
ghost use Rattle.bm_connections.specs.Inside.Rows.{AreRows, IsSeen};

use crate::connection::{Ending, Sight};
use crate::endings::is_risky;
use crate::rows::Rows;
use bm_base::{Body, Flow, Record, Segment};
use std::alloc::{AllocError, Global};
use std::collections::BTreeMap;

fn place_of(flows: &BTreeMap<Flow, usize>, flow: &Flow) -> Option<usize>
    ensures { result ≡ tree.get ⟦<Flow as Ord>⟧.cmp flows.now flow.now }
{
    flows.get(flow).copied()
}

fn put_place(flows: &mut BTreeMap<Flow, usize>, flow: Flow, place: usize) -> Result<(), AllocError>
    ensures { OnOk result ((q : Flow) → tree.get ⟦<Flow as Ord>⟧.cmp flows.new q
        ≡ (if same_flow flow q then Some place
        else tree.get ⟦<Flow as Ord>⟧.cmp flows.old q)) }
{
    flows.insert(flow, place)?;
    Ok(())
}

/// The connections with where each was first and last seen, and the place of each flow's.
#[derive(Drop)]
pub(crate) struct Seen {
    pub(crate) flows: BTreeMap<Flow, usize>,
    pub(crate) rows: Rows,
}

impl Seen {
    fn new(alloc: Global) -> Seen
        ensures { IsSeen [] result }
    {
        Seen {
            flows: BTreeMap::new(alloc),
            rows: Rows::new(alloc),
        }
    }

    /// Records the packet that comes after these records.
    fn see_packet(
        &mut self,
        before: &[Record],
        next: &Record,
        segment: Segment,
    ) -> Result<(), AllocError>
        requires few { length before.now < 200000 }
        requires seen { IsSeen (reverse before.now) self.old }
        requires body { next.now.body ≡ steerable segment }
        ensures { OnOk result (IsSeen (next.now ∷ reverse before.now) self.new) }
    {
        let flow = segment.flow;
        let sight = Sight {
            number: before.len() as u32 + 1,
            moment: next.moment,
        };
        match place_of(&self.flows, &flow) {
            Some(place) => {
                let risky = self.rows.is_risky_at(place, before, &segment);
                self.rows.see_again(place, &segment, sight, risky)?;
                Ok(())
            }
            None => {
                let place = self.rows.count();
                put_place(&mut self.flows, flow, place)?;
                let risky = is_risky(&segment, false, Ending::Open);
                self.rows.see_first(&segment, sight, risky)?;
                Ok(())
            }
        }
    }

    /// Takes in the record that comes after these.
    fn see(&mut self, before: &[Record], next: &Record) -> Result<(), AllocError>
        requires few { length before.now < 200000 }
        requires seen { IsSeen (reverse before.now) self.old }
        ensures { OnOk result (IsSeen (next.now ∷ reverse before.now) self.new) }
    {
        match next.body {
            Body::Unsteered(_) => {
                self.rows.see_none()?;
                Ok(())
            }
            Body::Steerable(segment) => self.see_packet(before, next, segment),
        }
    }
}

/// The connections of these records, before any event.
pub(crate) fn see_records(alloc: Global, records: &[Record]) -> Result<Rows, AllocError>
    requires { length records.now ≤ 200000 }
    ensures { (stage : Stage) → IfOk result (λ rows. AreRows stage (reverse records.now) [] rows) }
{
    let mut seen = Seen::new(alloc);
    for (place, record) in records.iter().enumerate() {
        seen.see(&records[..place], record)?;
    }
    let Seen {
        flows: _flows,
        rows,
    } = seen;
    Ok(rows)
}
