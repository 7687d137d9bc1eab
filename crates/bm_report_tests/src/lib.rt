//! Tests of `bm_trace`, `bm_load`, `bm_drawing` and `bm_words`, in a crate of their own: running
//! tests proves their crate again.
#![tactic(auto)]

#[cfg(test)]
mod drawing;
#[cfg(test)]
mod load;
#[cfg(test)]
mod trace;
#[cfg(test)]
mod words;
