// The two session stores, and what they refuse.
use crate::sessions::begun;
use refusal::{Fault, Refusal};
use session::session::{Session, Settings};
use std::process::Abort;
use std::test::Fail;
use store::store::SessionStore;
use stores::one_place::OnePlace;
use stores::place::Place;
use stores::size::TableSize;
use stores::table::Table;
use wire::id::SessionId;

const A: SessionId = SessionId { number: 0x01 };

const B: SessionId = SessionId { number: 0xF469 };

const C: SessionId = SessionId { number: 0x82A57F };

// A session that can be told from others.
fn marked(leap: u32) -> Session {
    let session = begun();
    let settings = Settings {
        leap,
        ..session.settings
    };
    Session {
        settings,
        ..session
    }
}

fn mark<S: SessionStore>(store: &S, id: SessionId) -> Option<u32> {
    store.look(id).map(|session| session.settings.leap)
}

fn no(refusal: Refusal) -> Result<(), Fault> {
    Err(Fault::new(refusal, 0))
}

// A store with room for one more and another ID in it.
fn absent_refused<S: SessionStore>(rt: &impl Abort, store: &mut S, id: SessionId) {
    assert_eq!(rt; mark(store, id), None);
    assert_eq!(rt; store.put(id, marked(9)), no(Refusal::NoSession));
    assert_eq!(rt; store.take(id), no(Refusal::NoSession));
}

#[test]
fn one_place(rt: HostRuntime) -> Result<(), Fail> {
    let mut store = OnePlace::new();
    assert_eq!(rt; store.count(), 0);
    assert_eq!(rt; store.name(0), None);
    absent_refused(&rt, &mut store, A);
    store.add(A, marked(1))?;
    assert_eq!(rt; store.add(A, marked(2)), no(Refusal::SessionPresent));
    assert_eq!(rt; store.add(B, marked(2)), no(Refusal::StoreFull));
    assert_eq!(rt; mark(&store, A), Some(1));
    assert_eq!(rt; store.name(0), Some(A));
    assert_eq!(rt; store.name(1), None);
    store.put(A, marked(3))?;
    assert_eq!(rt; mark(&store, A), Some(3));
    store.take(A)?;
    assert_eq!(rt; store.count(), 0);
    absent_refused(&rt, &mut store, A);
    Ok(())
}

// Two places: 14 before 20, the others keep their order, and a freed place is filled again.
fn two_places<S: SessionStore>(rt: &impl Abort, store: &mut S) -> Result<(), Fail> {
    store.add(A, marked(1))?;
    store.add(B, marked(2))?;
    assert_eq!(rt; store.add(B, marked(3)), no(Refusal::SessionPresent));
    assert_eq!(rt; store.add(C, marked(3)), no(Refusal::StoreFull));
    assert_eq!(rt; store.count(), 2);
    absent_refused(rt, store, C);
    store.put(B, marked(4))?;
    assert_eq!(rt; mark(store, A), Some(1));
    assert_eq!(rt; mark(store, B), Some(4));
    store.take(A)?;
    assert_eq!(rt; store.name(0), Some(B));
    assert_eq!(rt; store.name(1), None);
    store.add(C, marked(5))?;
    assert_eq!(rt; mark(store, B), Some(4));
    assert_eq!(rt; mark(store, C), Some(5));
    Ok(())
}

#[test]
fn a_table(rt: HostRuntime) -> Result<(), Fail> {
    let mut places = [Place::FREE; 3];
    places[0].used = true;
    let size = TableSize::check(2)?;
    let mut table = Table::new(size, &mut places);
    assert_eq!(rt; table.count(), 0);
    two_places(&rt, &mut table)
}

#[test]
fn sizes_of_a_table(rt: HostRuntime) -> Result<(), Fail> {
    assert!(rt; TableSize::check(0).is_err());
    assert_eq!(rt; TableSize::check(1)?.count(), 1);
    assert_eq!(rt; TableSize::check(1024)?.count(), 1024);
    assert!(rt; TableSize::check(1025).is_err());
    Ok(())
}
