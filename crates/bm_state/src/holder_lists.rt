//! Lists of the servers that hold each flow, by what was accepted, ended and closed.
ghost use Rattle.std.specs.Prelude.{◌≡◌, ◌∷◌, [], OnOk, IfOk, Some, find, if◌then◌else◌};
ghost use Rattle.std.specs.HashMap as table;
ghost use Rattle.std.specs.Option.{option_copied};
ghost use Rattle.bm_base.specs.Segments.{same_flow};
ghost use Rattle.bm_base.specs.declared.flow.Flow.{Flow};
ghost use Rattle.bm_core.specs.Past.{is_of, segment_of};
ghost use Rattle.bm_table.specs.Tables.{same_server};
ghost use Rattle.bm_state.specs.FlowKeys.{key_of};
ghost use Rattle.bm_state.specs.Holders.{listed, place_in};
ghost use Rattle.bm_state.specs.Inside.HolderLists.{change_by, changed, changed_by, put_holder};
ghost use Rattle.bm_state.specs.Inside.HolderLists.{without_server};

use crate::flow_key::FlowKey;
use bm_base::{Flow, ServerId, Taken};
use bm_core::{Stage, Verdict};
use smallvec::SmallVec;
use std::alloc::{AllocError, Global};
use std::collections::HashMap;

/// A server that holds a flow, and how many events came before its Accept.
#[derive(Clone, Copy)]
pub(crate) struct Holder {
    pub(crate) server: ServerId,
    pub(crate) place: usize,
}

impl Default for Holder {
    fn default() -> Holder {
        Holder {
            server: ServerId(0),
            place: 0,
        }
    }
}

/// The holders of a flow. Mostly there is one, which needs no allocation.
type HolderList = SmallVec<Holder, 1>;

/// What a server holds of a flow after a change: the Accept of a place, or nothing.
#[derive(Clone, Copy)]
pub(crate) enum HoldChange {
    Holds(usize),
    Releases,
}

/// How this verdict, on an arrival at this place, changes what the server holds. None if it changes
/// nothing.
pub(crate) fn change_by(place: usize, verdict: &Verdict) -> Option<HoldChange>
    ensures { result ≡ change_by place verdict.now }
{
    match verdict {
        Verdict::Accept => Some(HoldChange::Holds(place)),
        Verdict::Process(Taken::Ended) => Some(HoldChange::Releases),
        _ => None,
    }
}

fn drop_holder(holders: &mut HolderList, server: ServerId)
    ensures { holders.new.items ≡ without_server server holders.old.items }
{
    holders.retain(|holder| holder.server != server);
}

/// Puts the holder in place of what the list has of its server.
fn put_holder(holders: &mut HolderList, holder: Holder) -> Result<(), AllocError>
    ensures { OnOk result (holders.new.items
        ≡ put_holder holder.server holder.place holders.old.items) }
{
    drop_holder(holders, holder.server);
    holders.push(holder)?;
    Ok(())
}

fn one_holder(alloc: Global, holder: Holder) -> Result<HolderList, AllocError>
    ensures { IfOk result (λ list. list.items ≡ holder ∷ []) }
{
    let mut list = HolderList::new(alloc);
    list.push(holder)?;
    Ok(list)
}

fn holder_of(holders: &[Holder], server: ServerId) -> Option<&Holder>
    ensures { option_copied result ≡ find (λ h. same_server h.server server) holders.now }
{
    holders.iter().find(|h| h.server == server)
}

/// The place of the Accept that the list has of the server.
#[tactic(auto, using(crate::proofs::Listing::place_find))]
pub(crate) fn place_in(holders: &[Holder], server: ServerId) -> Option<usize>
    ensures { result ≡ place_in holders.now server }
{
    Some(holder_of(holders, server)?.place)
}

/// The holders of each flow.
#[derive(Drop)]
pub(crate) struct HolderLists {
    lists: HashMap<FlowKey, HolderList>,
}

impl HolderLists {
    ghost use Rattle.bm_state.specs.Holders.{holders_in};

    pub(crate) fn new(alloc: Global) -> HolderLists
        ensures { (q : Flow) → holders_in result q ≡ [] }
    {
        HolderLists {
            lists: HashMap::new(alloc),
        }
    }

    /// Puts the flow's list in place of another, and returns the other.
    fn put(&mut self, flow: Flow, list: HolderList) -> Result<Option<HolderList>, AllocError>
        ensures old { IfOk result (λ old. listed old ≡ holders_in self.old flow) }
        ensures new { OnOk result ((q : Flow)
            → table.get ⟦<FlowKey as PartialEq>⟧.eq self.new.lists (key_of q)
            ≡ (if same_flow flow q then Some list
            else table.get ⟦<FlowKey as PartialEq>⟧.eq self.old.lists (key_of q))) }
    {
        Ok(self.lists.insert(FlowKey::of(&flow), list)?)
    }

    /// Records that the holder's server holds just its Accept of the flow.
    fn hold(&mut self, alloc: Global, flow: Flow, holder: Holder) -> Result<(), AllocError>
        ensures { OnOk result ((q : Flow) → holders_in self.new q
            ≡ (if same_flow flow q
            then put_holder holder.server holder.place (holders_in self.old q)
            else holders_in self.old q)) }
    {
        // Mostly there are no others, and one look-up is enough.
        if let Some(mut others) = self.put(flow, one_holder(alloc, holder)?)? {
            put_holder(&mut others, holder)?;
            self.put(flow, others)?;
        }
        Ok(())
    }

    /// Records that this server doesn't hold the flow.
    pub(crate) fn release(&mut self, flow: &Flow, server: ServerId)
        ensures { (q : Flow) → holders_in self.new q
            ≡ (if same_flow flow.now q
            then without_server server (holders_in self.old q)
            else holders_in self.old q) }
    {
        if let Some(holders) = self.lists.get_mut(&FlowKey::of(flow)) {
            drop_holder(holders, server);
        }
    }

    /// Records a change of what the server holds of the flow.
    fn change(
        &mut self,
        alloc: Global,
        flow: Flow,
        server: ServerId,
        change: HoldChange,
    ) -> Result<(), AllocError>
        ensures { OnOk result ((q : Flow) → holders_in self.new q
            ≡ (if same_flow flow q
            then changed server change (holders_in self.old q)
            else holders_in self.old q)) }
    {
        match change {
            HoldChange::Holds(place) => self.hold(alloc, flow, Holder { server, place }),
            HoldChange::Releases => {
                self.release(&flow, server);
                Ok(())
            }
        }
    }

    /// Records a packet's arrival. Most verdicts change nothing, and then no segment is read.
    #[tactic(auto, using(crate::proofs::Listing::cond_same))]
    pub(crate) fn arrive(
        &mut self,
        alloc: Global,
        stage: &Stage,
        packet: u32,
        server: ServerId,
        change: Option<HoldChange>,
    ) -> Result<(), AllocError>
        ensures { OnOk result ((q : Flow) → holders_in self.new q
            ≡ (if is_of (segment_of stage.now packet) q
            then changed_by server change (holders_in self.old q)
            else holders_in self.old q)) }
    {
        let Some(change) = change else {
            return Ok(());
        };
        match stage.segment(packet) {
            Some(segment) => self.change(alloc, segment.flow, server, change),
            None => Ok(()),
        }
    }

    pub(crate) fn get(&self, flow: &Flow) -> &[Holder]
        ensures { result.now ≡ holders_in self.now flow.now }
    {
        match self.lists.get(&FlowKey::of(flow)) {
            Some(list) => list.as_slice(),
            None => &[],
        }
    }
}
