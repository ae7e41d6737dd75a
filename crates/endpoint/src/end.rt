// An end, and how it is made.
ghost use Rattle.std.specs.Prelude.{◌≡◌, [], IfOk, Some};
ghost use Rattle.store.specs.Stores.{lookup};
ghost use Rattle.endpoint.specs.Ends.{found};

use refusal::{Fault, Refusal};
use session::session::Session;
use std::marker::Model;
use store::store::SessionStore;
use suite::Suite;
use wire::id::SessionId;
use wire::parties::Role;

#[derive(Drop)]
pub struct Endpoint<S: SessionStore, C: Suite> {
    pub(crate) role: Role,
    pub(crate) store: S,
    pub(crate) suite: C,
}

impl<S: SessionStore, C: Suite> Model for Endpoint<S, C> {
    ghost use Rattle.endpoint.specs.Ends.{EndState};

    ghost Value = { EndState C };

    ghost view = { λ e. record { role = e.role; pairs = S.pairs e.store; room = S.capacity e.store; suite = e.suite } };
}

impl<S: SessionStore, C: Suite> Endpoint<S, C> {
    // An end in this role. Its store is emptied.
    pub fn new(role: Role, store: S, suite: C) -> Endpoint<S, C>
        ensures parts { (result.role ≡ role) × (result.suite ≡ suite) }
        ensures empty { result.pairs ≡ [] }
        ensures room { result.room ≡ S.capacity store }
    {
        let mut emptied = store;
        while let Some(id) = emptied.name(0) {
            let _ = emptied.take(id);
        }
        Endpoint {
            role,
            store: emptied,
            suite,
        }
    }

    // The session of an ID. `place` is where the ID stands in a message, or 0.
    pub(crate) fn find(&self, id: SessionId, place: usize) -> Result<Session, Fault>
        ensures value { result ≡ found (lookup self.now.pairs) id place }
        ensures there { IfOk result (λ s. lookup self.now.pairs id ≡ Some s) }
    {
        // No `ok_or`: with it a key dropped where there is none takes twice the time.
        let Some(session) = self.store.look(id) else {
            return Err(Fault::new(Refusal::NoSession, place));
        };
        Ok(session)
    }
}
