//! The section that a reader is in.
ghost use Rattle.std.specs.Prelude.{◌≡◌, ◌≤◌, ◌<◌, [], length, vec_capacity, IfOk};

use crate::{Content, Interface};
use bm_pcap::Order;
use std::alloc::{AllocError, Global};

/// The order of a section's numbers, and its interfaces. Memory for all of them is reserved.
#[derive(Drop)]
pub(crate) struct Section {
    pub(crate) order: Order,
    interfaces: Vec<Interface>,
    ghost few: { length interfaces.items ≤ 1024 },
    ghost spare: { 1024 ≤ vec_capacity interfaces },
}

impl Section {
    ghost use Rattle.bm_pcapng.specs.Places.{interfaces_after, order_after};
    ghost use Rattle.bm_pcapng.specs.Parts.{IsRoomFor};

    /// A section without interfaces.
    pub(crate) fn new(alloc: Global, order: Order) -> Result<Section, AllocError>
        ensures order { IfOk result (λ section. section.order ≡ order) }
        ensures none { IfOk result (λ section. section.interfaces.items ≡ []) }
    {
        Ok(Section {
            order,
            interfaces: Vec::with_capacity(alloc, 1024)?,
        })
    }

    pub(crate) fn interfaces(&self) -> &[Interface]
        ensures { result.now ≡ self.now.interfaces.items }
    {
        self.interfaces.as_slice()
    }

    /// Moves past a block. Takes no memory.
    pub(crate) fn pass(&mut self, content: &Content)
        requires { IsRoomFor self.old.interfaces.items content.now }
        ensures order { self.new.order ≡ order_after self.old.order content.now }
        ensures interfaces { self.new.interfaces.items
            ≡ interfaces_after self.old.interfaces.items content.now }
    {
        match content {
            Content::Begins(order) => {
                self.order = *order;
                self.interfaces.clear();
            }
            Content::Describes(interface) => {
                let _ = self.interfaces.push(*interface);
            }
            Content::Holds(_) | Content::Nothing => {}
        }
    }
}
