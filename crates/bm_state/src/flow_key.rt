//! Flows as the keys of maps.
ghost use Rattle.std.specs.Prelude.{◌≡◌};
ghost use Rattle.bm_state.specs.FlowKeys.{key_of};

use bm_base::Flow;

/// A flow, as a key. The ports come first, since they distinguish most flows.
#[derive(Clone, Copy, PartialEq, Eq, Hash)]
pub struct FlowKey {
    sport: u16,
    dport: u16,
    src: u32,
    dst: u32,
}

impl FlowKey {
    pub fn of(flow: &Flow) -> FlowKey
        ensures { result ≡ key_of flow.now }
    {
        FlowKey {
            sport: flow.sport,
            dport: flow.dport,
            src: flow.src,
            dst: flow.dst,
        }
    }
}
