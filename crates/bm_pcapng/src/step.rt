//! What comes next in a capture.
ghost use Rattle.std.specs.Prelude.{◌≡◌, ◌≤◌, length, nat_lt, if◌then◌else◌, IfOk, IfErr, OnOk, Ok};
ghost use Rattle.std.specs.Prelude.{Err};
ghost use Rattle.std.specs.Io.KnownBytes.{Keeps};
ghost use Rattle.bm_pcap.specs.Causes.{HasStepCause};
ghost use Rattle.bm_pcap.specs.Window.{buffered, passed, rest, source_of, width};
ghost use Rattle.bm_pcap.specs.declared.fault.CaptureFault.TheVariants.{TooLarge};
ghost use Rattle.bm_pcapng.specs.Blocks.{framed, head_size, least_length};
ghost use Rattle.bm_pcapng.specs.Causes.{IsBlockFault};
ghost use Rattle.bm_pcapng.specs.Inside.Causes.{IsContentFault, IsOrderFault};
ghost use Rattle.bm_pcapng.specs.Causes.{IsStartFault};
ghost use Rattle.bm_pcapng.specs.Limits.{longest_block};
ghost use Rattle.bm_pcapng.specs.Parts.{BlockGives, FailsOpen};
ghost use Rattle.bm_pcapng.specs.Inside.Parts.{HeadFits, HeadGives, HeadIn, own_octets};
ghost use Rattle.bm_pcapng.specs.Parts.{StepFits};
ghost use Rattle.bm_pcapng.specs.Inside.Parts.{IsAtSection, IsBlockOf, IsLast, OrderGives};
ghost use Rattle.bm_pcapng.specs.Inside.Parts.{StartsSection, StepGives, StepIn};
ghost use Rattle.bm_pcapng.specs.Inside.Parts.{stated};

use crate::block::{is_section, magic, order_of};
use crate::content::content_of;
use crate::place::MOST_RECORDS;
use crate::section::Section;
use crate::{Content, Kind, Place};
use bm_io::Source;
use bm_pcap::{CaptureFault, Order, Window};

/// What comes next: a block, with how many octets it has and what it says; one that is cut short;
/// the end.
#[derive(Clone, Copy, PartialEq, Eq)]
pub enum Step {
    Block(u32, Content),
    Cut,
    End,
}

/// What the head of a block says: its kind, the order of its numbers, and its total length.
#[derive(Clone, Copy, PartialEq, Eq)]
pub enum Head {
    End,
    Cut,
    States(Kind, Order, u32),
}

/// Reads what comes next at this place. A block's octets are the last that were taken.
pub(crate) fn read_step<S: Source>(
    window: &mut Window<S>,
    section: &Section,
    place: &Place,
) -> Result<Step, CaptureFault>
    requires { width window.old ≡ longest_block }
    ensures gives { BlockGives (rest S.left window.old) (rest S.left window.new)
        section.now.order section.now.interfaces.items place.now result
        (own_octets result (passed window.new)) }
    ensures last { IfOk result (IsLast (passed window.new)) }
    ensures open { FailsOpen section.now.order section.now.interfaces.items place.now result
        (buffered window.new) }
    ensures fits { IfOk result (StepFits section.now.interfaces.items place.now) }
    ensures others { IfErr result IsBlockFault }
    ensures wide { width window.new ≡ longest_block }
    ensures cause { HasStepCause (S.faults (source_of window.old))
        (S.faults (source_of window.new)) result }
{
    let step = look(window, section, place)?;
    if let Step::Block(size, _) = step {
        window.skip(size as usize);
    }
    Ok(step)
}

/// Looks for what comes next at this place, and consumes none of its octets.
pub(crate) fn look<S: Source>(
    window: &mut Window<S>,
    section: &Section,
    place: &Place,
) -> Result<Step, CaptureFault>
    requires { width window.old ≡ longest_block }
    ensures gives { StepGives (rest S.left window.old) section.now.order
        section.now.interfaces.items place.now result }
    ensures keeps { Keeps (rest S.left window.old) (rest S.left window.new) }
    ensures buffered { IfOk result (StepIn (buffered window.new)) }
    ensures start { IsAtSection (buffered window.old) → longest_block ≤ place.now.room
        → IfErr result IsStartFault }
    ensures open { FailsOpen section.now.order section.now.interfaces.items place.now result
        (buffered window.new) }
    ensures fits { IfOk result (StepFits section.now.interfaces.items place.now) }
    ensures others { IfErr result IsBlockFault }
    ensures wide { width window.new ≡ longest_block }
    ensures cause { HasStepCause (S.faults (source_of window.old))
        (S.faults (source_of window.new)) result }
{
    match read_head(window, section, place)? {
        Head::End => Ok(Step::End),
        Head::Cut => Ok(Step::Cut),
        Head::States(kind, order, size) => {
            let whole = size as usize;
            let room = place.room as usize;
            let count = window.want(whole.min(room + 1))?;
            if count > room {
                return Err(CaptureFault::TooLarge);
            }
            if count < whole {
                return Ok(Step::Cut);
            }
            let block = &window.buffered()[..whole];
            framed(kind, order, section, place, size, block)
        }
    }
}

/// The octets end before what was wanted, or the capture gets too large before that.
fn short(count: usize, room: usize) -> Result<Head, CaptureFault>
    ensures { result ≡ (if nat_lt room count then Err TooLarge else Ok Head.Cut) }
{
    if count > room {
        Err(CaptureFault::TooLarge)
    } else {
        Ok(Head::Cut)
    }
}

/// Reads the head of a block, and consumes none of its octets.
fn read_head<S: Source>(
    window: &mut Window<S>,
    section: &Section,
    place: &Place,
) -> Result<Head, CaptureFault>
    requires { width window.old ≡ longest_block }
    ensures gives { HeadGives (rest S.left window.old) section.now.order
        section.now.interfaces.items place.now result }
    ensures keeps { Keeps (rest S.left window.old) (rest S.left window.new) }
    ensures start { IsAtSection (buffered window.old) → longest_block ≤ place.now.room
        → StartsSection result }
    ensures buffered { IfOk result
        (HeadIn section.now.order section.now.interfaces.items place.now (buffered window.new)) }
    ensures open { FailsOpen section.now.order section.now.interfaces.items place.now result
        (buffered window.new) }
    ensures fits { IfOk result (HeadFits place.now) }
    ensures others { IfErr result IsBlockFault }
    ensures wide { width window.new ≡ longest_block }
    ensures cause { HasStepCause (S.faults (source_of window.old))
        (S.faults (source_of window.new)) result }
{
    let room = place.room as usize;
    let count = window.want((room + 1).min(8))?;
    if count == 0 {
        return Ok(Head::End);
    }
    if count < 8 {
        return short(count, room);
    }
    let kind = Kind::at(section.order, &window.buffered()[..4]);
    let most = kind.head_size();
    let count = window.want((room + 1).min(most))?;
    if count < most {
        return short(count, room);
    }
    states(kind, section.order, place, &window.buffered()[..most])
}

/// What a whole head says of a block of this kind, in a section of this order.
fn states(kind: Kind, order: Order, place: &Place, head: &[u8]) -> Result<Head, CaptureFault>
    requires { head_size kind ≤ length head.now }
    ensures stated { result ≡ stated kind order place.now head.now }
    ensures start { kind ≡ Kind.SectionHeader → StartsSection result }
    ensures fits { IfOk result (HeadFits place.now) }
    ensures others { IfErr result IsBlockFault }
{
    let Some(order) = order_of(kind, order, head) else {
        return Err(CaptureFault::BadBlock(place.block));
    };
    let size = order.read_u32(head, 4);
    if !kind.is_length(size) {
        return Err(CaptureFault::BadBlock(place.block));
    }
    if kind.is_packet() && place.number > MOST_RECORDS {
        return Err(CaptureFault::TooManyPackets);
    }
    Ok(Head::States(kind, order, size))
}

/// What a whole block of this many octets says.
fn framed(
    kind: Kind,
    order: Order,
    section: &Section,
    place: &Place,
    size: u32,
    block: &[u8],
) -> Result<Step, CaptureFault>
    requires whole { length block.now ≡ size }
    requires fixed { least_length kind ≤ size }
    ensures block { result
        ≡ framed kind order section.now.interfaces.items place.now size block.now }
    ensures start { kind ≡ Kind.SectionHeader → IfErr result IsStartFault }
    ensures fits { IfOk result (IsBlockOf kind section.now.interfaces.items size) }
    ensures others { IfErr result IsContentFault }
{
    if order.read_u32(block, size as usize - 4) != size {
        return Err(CaptureFault::BadBlock(place.block));
    }
    let said = content_of(kind, order, section.interfaces(), place, block)?;
    Ok(Step::Block(size, said))
}

/// Reads the order that the first twelve octets of a capture give, and consumes none of them.
pub(crate) fn read_order<S: Source>(window: &mut Window<S>) -> Result<Order, CaptureFault>
    requires { width window.old ≡ longest_block }
    ensures gives { OrderGives (rest S.left window.old) result }
    ensures section { OnOk result (IsAtSection (buffered window.new)) }
    ensures keeps { Keeps (rest S.left window.old) (rest S.left window.new) }
    ensures others { IfErr result IsOrderFault }
    ensures wide { width window.new ≡ longest_block }
    ensures cause { HasStepCause (S.faults (source_of window.old))
        (S.faults (source_of window.new)) result }
{
    if window.want(4)? < 4 {
        return Err(CaptureFault::NotACapture);
    }
    if !is_section(&window.buffered()[..4]) {
        return Err(CaptureFault::NotACapture);
    }
    if window.want(12)? < 12 {
        return Err(CaptureFault::NotACapture);
    }
    match magic(&window.buffered()[..12]) {
        Some(order) => Ok(order),
        None => Err(CaptureFault::NotACapture),
    }
}
