//! A set of flows.
ghost use Rattle.std.specs.Prelude.{◌≡◌, false, if◌then◌else◌, OnOk};
ghost use Rattle.bm_base.specs.Segments.{same_flow};
ghost use Rattle.bm_base.specs.declared.flow.Flow.{Flow};
ghost use Rattle.bm_connections.specs.Inside.FlowSets.{changed, is_in};

use bm_base::Flow;
use std::alloc::{AllocError, Global};
use std::collections::BTreeMap;

/// A flow, and whether it is then in a set.
#[derive(Clone, Copy)]
pub(crate) struct Membership {
    pub(crate) flow: Flow,
    pub(crate) member: bool,
}

/// Some flows.
#[derive(Drop)]
pub(crate) struct FlowSet {
    flows: BTreeMap<Flow, ()>,
}

impl FlowSet {
    pub(crate) fn new(alloc: Global) -> FlowSet
        ensures { (f : Flow) → is_in result f ≡ false }
    {
        FlowSet {
            flows: BTreeMap::new(alloc),
        }
    }

    /// Whether the flow is one of them.
    pub(crate) fn contains(&self, flow: &Flow) -> bool
        ensures { result ≡ is_in self.now flow.now }
    {
        self.flows.get(flow).is_some()
    }

    /// Takes the flow in, if `so` holds, and otherwise out.
    fn put(&mut self, flow: Flow, so: bool) -> Result<(), AllocError>
        ensures { OnOk result ((q : Flow) → is_in self.new q
            ≡ (if same_flow flow q then so else is_in self.old q)) }
    {
        if so {
            self.flows.insert(flow, ())?;
        } else {
            self.flows.remove(&flow);
        }
        Ok(())
    }
    /// Takes the flow of this change in or out, if there is one.
    pub(crate) fn change(&mut self, change: Option<Membership>) -> Result<(), AllocError>
        ensures { OnOk result ((q : Flow) → is_in self.new q ≡ changed change q (is_in self.old q)) }
    {
        if let Some(change) = change {
            self.put(change.flow, change.member)?;
        }
        Ok(())
    }
}
