//! The tables of the crate.
use as4_flow::MemorySink;
use as4_vectors::{exchanges, plays, vectors};
use conformance::{VectorEnd, run_exchanges, run_plays, run_vectors};
use std::alloc::Global;
use std::test::Fail;

fn sink(alloc: Global) -> MemorySink {
    MemorySink::of(alloc, Vec::new(alloc), Vec::new(alloc))
}

/// Whether each name is there once.
fn differ(names: &[&str]) -> bool {
    names
        .iter()
        .enumerate()
        .all(|(k, name)| !names[..k].contains(name))
}

#[test]
fn each_vector_is_right(rt: HostRuntime) -> Result<(), Fail> {
    let end = run_vectors(rt.alloc(), &vectors(), &mut sink(rt.alloc()));
    assert_eq!(rt; end, VectorEnd::Done { differ: 0 });
    Ok(())
}

#[test]
fn each_exchange_is_right(rt: HostRuntime) -> Result<(), Fail> {
    let end = run_exchanges(rt.alloc(), &exchanges(), &mut sink(rt.alloc()));
    assert_eq!(rt; end, VectorEnd::Done { differ: 0 });
    Ok(())
}

#[test]
fn each_play_is_right(rt: HostRuntime) -> Result<(), Fail> {
    let end = run_plays(rt.alloc(), &plays(), &mut sink(rt.alloc()));
    assert_eq!(rt; end, VectorEnd::Done { differ: 0 });
    Ok(())
}

#[test]
fn names_of_vectors_differ(rt: HostRuntime) -> Result<(), Fail> {
    let mut names = Vec::new(rt.alloc());
    for row in &vectors() {
        names.push(row.case.name)?;
    }
    assert!(rt; differ(&names));
    Ok(())
}

#[test]
fn names_of_exchanges_differ(rt: HostRuntime) -> Result<(), Fail> {
    let mut names = Vec::new(rt.alloc());
    for row in &exchanges() {
        names.push(row.name)?;
    }
    assert!(rt; differ(&names));
    Ok(())
}

#[test]
fn names_of_plays_differ(rt: HostRuntime) -> Result<(), Fail> {
    let mut names = Vec::new(rt.alloc());
    for row in &plays() {
        names.push(row.name)?;
    }
    assert!(rt; differ(&names));
    Ok(())
}
