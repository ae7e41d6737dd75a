// Keys and counters of a session, case by case.
use framing::format::{DataLength, Format, TagLength};
use keys::id::KeyId;
use keys::keys::Keys;
use keys::record::Slot;
use refusal::{Fault, Refusal};
use session::counters::{Counters, LAST_COUNTER};
use session::session::{Session, Settings};
use std::process::Abort;
use std::test::Fail;
use suite::Keyset;
use wire::parties::{Plane, Role};

fn keyset(n: u64) -> Keyset {
    Keyset {
        integrity0: n,
        integrity1: n,
        encryption0: n,
        encryption1: n,
    }
}

// Key 1 in its slot, leap 16.
pub(crate) fn begun() -> Session {
    let settings = Settings {
        role: Role::Service,
        format: Format {
            tag: TagLength::Four,
            length: DataLength::One,
        },
        leap: 16,
    };
    Session::new(settings, KeyId::One, keyset(1))
}

fn done(rt: &impl Abort, change: Option<Session>) -> Session {
    change.expect(rt, "a change")
}

// Which of the keys 1, 2 and 3 are held.
fn held(session: Session) -> (bool, bool, bool) {
    let keys = session.keys;
    (
        keys.holds(KeyId::One),
        keys.holds(KeyId::Two),
        keys.holds(KeyId::Three),
    )
}

fn refused<T: Drop>(rt: &impl Abort, r: Result<T, Fault>, refusal: Refusal, place: usize) {
    assert_eq!(rt; r.err(), Some(Fault::new(refusal, place)));
}

#[test]
fn old_key_stays_until_the_new_one_is_used(rt: HostRuntime) -> Result<(), Fail> {
    let swapped = done(&rt, begun().swap(KeyId::Two, KeyId::One, keyset(2))?);
    assert_eq!(rt; held(swapped), (true, true, false));
    assert_eq!(rt; swapped.keys.sending, Some(KeyId::One));
    let old = swapped.after_accepting(Plane::User, KeyId::One, 1);
    assert_eq!(rt; held(old), (true, true, false));
    let new = old.after_accepting(Plane::User, KeyId::Two, 2);
    assert_eq!(rt; held(new), (false, true, false));
    assert_eq!(rt; new.keys.sending, Some(KeyId::Two));
    assert!(rt; new.is_sound());
    Ok(())
}

#[test]
fn a_leaving_key_is_freed_with_the_key_it_waits_for(rt: HostRuntime) -> Result<(), Fail> {
    let twice = done(&rt, begun().swap(KeyId::Two, KeyId::One, keyset(2))?);
    let leaving = done(&rt, twice.swap(KeyId::Three, KeyId::Two, keyset(3))?);
    // 1 waits for 2, and 2 for 3
    let used = leaving.after_accepting(Plane::Control, KeyId::Three, 1);
    assert_eq!(rt; held(used), (true, false, true));
    let again = used.after_accepting(Plane::Control, KeyId::Two, 2);
    assert_eq!(rt; held(again), (true, false, true));
    let dropped = done(&rt, leaving.drop_key(KeyId::Two));
    assert_eq!(rt; held(dropped), (true, false, true));
    assert!(rt; dropped.drop_key(KeyId::Two).is_none());
    let none = done(&rt, dropped.drop_key(KeyId::One));
    assert_eq!(rt; none.keys.sending, None);
    Ok(())
}

#[test]
fn key_changes_refused(rt: HostRuntime) -> Result<(), Fail> {
    let two = begun().give(KeyId::Two, keyset(2))?;
    refused(&rt, two.give(KeyId::Two, keyset(3)), Refusal::KeyInUse, 0);
    refused(&rt, two.choose(KeyId::Three), Refusal::KeyNotHeld, 0);
    refused(
        &rt,
        two.swap(KeyId::Two, KeyId::One, keyset(3)),
        Refusal::KeyInUse,
        0,
    );
    assert!(rt; two.swap(KeyId::Two, KeyId::Three, keyset(3))?.is_none());
    let same = done(&rt, two.swap(KeyId::Two, KeyId::Two, keyset(3))?);
    assert_eq!(rt; held(same), (true, true, false));
    Ok(())
}

#[test]
fn counters_ahead_by_the_leap(rt: HostRuntime) -> Result<(), Fail> {
    let session = begun().after_accepting(Plane::User, KeyId::One, 1);
    session.admit(Plane::User, 1, 17)?;
    refused(
        &rt,
        session.admit(Plane::User, 1, 18),
        Refusal::CounterBeyondLeap,
        1,
    );
    refused(
        &rt,
        session.admit(Plane::User, 1, 1),
        Refusal::CounterNotAbove,
        1,
    );
    session.admit(Plane::Control, 1, 1)?;
    refused(
        &rt,
        session.admit(Plane::User, 2, 1),
        Refusal::KeyNotHeld,
        0,
    );
    refused(
        &rt,
        session.admit(Plane::User, 0, 2),
        Refusal::KeyNotHeld,
        0,
    );
    Ok(())
}

#[test]
fn accepted_and_missed(rt: HostRuntime) {
    let session = begun()
        .after_accepting(Plane::User, KeyId::One, 3)
        .after_accepting(Plane::User, KeyId::One, 7);
    assert_eq!(rt; session.user.accepted, 2);
    assert_eq!(rt; session.user.missed(), 5);
    assert_eq!(rt; session.control.missed(), 0);
}

#[test]
fn sealing_refused(rt: HostRuntime) -> Result<(), Fail> {
    let outgoing = begun().prepare(Plane::User)?;
    assert_eq!(rt; outgoing.counter, 1);
    assert_eq!(rt; outgoing.key.id, KeyId::One);
    let last = begun().after_sealing(Plane::User, LAST_COUNTER - 1);
    assert_eq!(rt; last.prepare(Plane::User)?.counter, LAST_COUNTER);
    let over = last.after_sealing(Plane::User, LAST_COUNTER);
    refused(&rt, over.prepare(Plane::User), Refusal::CountersUsedUp, 0);
    assert_eq!(rt; over.prepare(Plane::Control)?.counter, 1);
    let none = done(&rt, over.drop_key(KeyId::One));
    refused(&rt, none.prepare(Plane::User), Refusal::NoSendingKey, 0);
    Ok(())
}

#[test]
fn sessions_from_outside_are_judged(rt: HostRuntime) {
    let good = begun();
    assert!(rt; good.is_sound());
    let ahead = Counters {
        accepted: 1,
        ..good.user
    };
    assert!(rt;
        !Session {
            user: ahead,
            ..good
        }
        .is_sound()
    );
    let lost = Keys {
        sending: Some(KeyId::Two),
        ..good.keys
    };
    assert!(rt; !Session { keys: lost, ..good }.is_sound());
    let mut own = good;
    own.keys.slots.key1 = Slot::Leaving(keyset(1), KeyId::One);
    assert!(rt; !own.is_sound());
    let still = Settings {
        leap: 0,
        ..good.settings
    };
    assert!(rt;
        !Session {
            settings: still,
            ..good
        }
        .is_sound()
    );
}
