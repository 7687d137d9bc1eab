//! The active servers with their weights and racks, in the order of their numbers.
ghost use Rattle.std.specs.Prelude.{◌≡◌, ◌<◌, All, IfOk, length};
ghost use Rattle.bm_base.specs.declared.ids.ServerId.{ServerId};
ghost use Rattle.bm_controller.specs.Controlled as controlled;

use bm_base::{Memory, ServerId};
use std::alloc::Global;

/// An active server, its weight, 1 to 1,000, and its rack.
#[derive(Clone, Copy)]
pub struct Member {
    pub server: ServerId,
    pub weight: u32,
    pub rack: u16,
}

/// Each server with the weight and the rack at its place.
pub(crate) fn of(
    alloc: Global,
    servers: &[ServerId],
    weights: &[u32],
    racks: &[u16],
) -> Result<Vec<Member>, Memory>
    ensures { IfOk result (λ members.
        members.items ≡ controlled.members_of servers.now weights.now racks.now) }
{
    let members = servers
        .iter()
        .zip(weights)
        .zip(racks)
        .map(|((server, weight), rack)| Member {
            server: *server,
            weight: *weight,
            rack: *rack,
        })
        .collect(alloc)?;
    Ok(members)
}

pub(crate) fn servers(alloc: Global, members: &[Member]) -> Result<Vec<ServerId>, Memory>
    ensures { IfOk result (λ servers. servers.items ≡ controlled.servers_of members.now) }
{
    let servers = members.iter().map(|m| m.server).collect(alloc)?;
    Ok(servers)
}

pub(crate) fn weights(alloc: Global, members: &[Member]) -> Result<Vec<u32>, Memory>
    ensures { IfOk result (λ weights. weights.items ≡ controlled.weights_of members.now) }
{
    let weights = members.iter().map(|m| m.weight).collect(alloc)?;
    Ok(weights)
}

/// One more than the highest number of a member, or 0 if there are none.
pub(crate) fn numbers(members: &[Member]) -> usize
    ensures { All (λ m. m.server.0 < result) members.now }
{
    let mut numbers = 0;
    for m in members {
        if numbers <= m.server.0 as usize {
            numbers = m.server.0 as usize + 1;
        }
    }
    numbers
}

/// The members in this rack.
pub(crate) fn in_rack(alloc: Global, members: &[Member], rack: u16) -> Result<Vec<Member>, Memory>
    ensures { IfOk result (λ mates. mates.items ≡ controlled.in_rack rack members.now) }
{
    let mates = members
        .iter()
        .copied()
        .filter(|m| m.rack == rack)
        .collect(alloc)?;
    Ok(mates)
}

/// The members with this one, which takes the place of a member with its number.
#[tactic(auto, using(std::proofs::lemmas::List::append_assoc))]
pub(crate) fn with(alloc: Global, members: &[Member], m: Member) -> Result<Vec<Member>, Memory>
    ensures { IfOk result (λ more. more.items ≡ controlled.with_member m members.now) }
{
    let mut more: Vec<Member> = members
        .iter()
        .copied()
        .filter(|t| t.server.0 < m.server.0)
        .collect(alloc)?;
    let above: Vec<Member> = members
        .iter()
        .copied()
        .filter(|t| m.server.0 < t.server.0)
        .collect(alloc)?;
    more.push(m)?;
    more.extend_from_slice(above.as_slice())?;
    Ok(more)
}

/// The members without this server.
pub(crate) fn without(alloc: Global, members: &[Member], s: ServerId) -> Result<Vec<Member>, Memory>
    ensures { IfOk result (λ fewer. fewer.items ≡ controlled.without_member s members.now) }
{
    let fewer = members
        .iter()
        .copied()
        .filter(|t| t.server != s)
        .collect(alloc)?;
    Ok(fewer)
}

/// Whether the server is among them.
pub(crate) fn is_among(members: &[Member], s: ServerId) -> bool
    ensures { result ≡ controlled.is_member members.now s }
{
    members.iter().any(|t| t.server == s)
}

/// The members, where this server has another weight.
pub(crate) fn reweighed(
    alloc: Global,
    members: &[Member],
    s: ServerId,
    weight: u32,
) -> Result<Vec<Member>, Memory>
    ensures { IfOk result (λ same. same.items ≡ controlled.reweighed s weight members.now) }
{
    let same = members
        .iter()
        .map(|m| Member {
            weight: if m.server == s { weight } else { m.weight },
            ..*m
        })
        .collect(alloc)?;
    Ok(same)
}

/// The rack of a member, and 0 for any other server.
pub(crate) fn rack_of(members: &[Member], s: ServerId) -> u16
    ensures { result ≡ controlled.rack_of members.now s }
{
    for m in members {
        if m.server == s {
            return m.rack;
        }
    }
    0
}

/// How many members this rack has.
pub(crate) fn count_in(members: &[Member], rack: u16) -> usize
    ensures { result ≡ length (controlled.in_rack rack members.now) }
{
    members.iter().filter(|m| m.rack == rack).count()
}
