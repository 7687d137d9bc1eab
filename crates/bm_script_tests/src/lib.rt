//! Tests of `bm_script` and `bm_lifetime`, in a crate of their own: running tests proves their crate
//! again.
#![tactic(auto)]

#[cfg(test)]
mod lifetimes;
#[cfg(test)]
mod scripts;
#[cfg(test)]
mod verbs;
