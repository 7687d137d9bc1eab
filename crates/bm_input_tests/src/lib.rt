//! Tests of what is read, and of plans, in a crate of their own: running tests proves their crate
//! again. Headers: `bm_base`, `bm_ipv4`, `bm_tcp`, `bm_link` and `bm_encap`. Captures: `bm_io`,
//! `bm_pcap` and `bm_pcapng`. Plans: `bm_table`, `bm_quota`, `bm_policy`, `bm_controller`,
//! `bm_route` and `bm_fault`.
#![tactic(auto)]

#[cfg(test)]
mod base;
#[cfg(test)]
mod controller;
#[cfg(test)]
mod encap;
#[cfg(test)]
mod fault;
#[cfg(test)]
mod io;
#[cfg(test)]
mod ipv4;
#[cfg(test)]
mod link;
#[cfg(test)]
mod pcap;
#[cfg(test)]
mod pcapng;
#[cfg(test)]
mod printing;
#[cfg(test)]
mod quota;
#[cfg(test)]
mod racks;
#[cfg(test)]
mod records;
#[cfg(test)]
mod route;
#[cfg(test)]
mod table;
#[cfg(test)]
mod tcp;
