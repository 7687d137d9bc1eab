//! What is left where memory is refused. The test ends as it should, or with "memory", whichever
//! request is refused; tests/refused_memory refuses each in turn.
use crate::forged::{Case, Damage, ask};
use std::alloc::Global;
use std::process::Abort;
use std::sync::Wait;
use std::test::Fail;

fn check(rt: &(impl Abort + Wait), alloc: Global, case: Case) -> Result<(), Fail> {
    let (answer, entries) = ask(rt, alloc, case).map_err(|_| "memory")?;
    assert!(rt; entries == usize::from(answer.is_ok()));
    Ok(())
}

#[test]
fn a_refused_copy_adds_no_entry(rt: HostRuntime) -> Result<(), Fail> {
    check(&rt, rt.alloc(), (Damage::Nothing, 2))?;
    check(&rt, rt.alloc(), (Damage::Chained, 1))
}
