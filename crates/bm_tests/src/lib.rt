//! Tests of `bm_server` and of both programs, in a crate of their own: running tests proves their
//! crate again.
#![tactic(auto)]

#[cfg(test)]
mod blocks;
#[cfg(test)]
mod capture;
#[cfg(test)]
mod captures;
#[cfg(test)]
mod checks;
#[cfg(test)]
mod devices;
#[cfg(test)]
mod fakes;
#[cfg(test)]
mod forged;
#[cfg(test)]
mod forms;
#[cfg(test)]
mod gates;
#[cfg(test)]
mod limits;
#[cfg(test)]
mod loads;
#[cfg(test)]
mod prefixes;
#[cfg(test)]
mod program;
#[cfg(test)]
mod refused;
#[cfg(test)]
mod rows;
#[cfg(test)]
mod sizes;
#[cfg(test)]
mod streams;
