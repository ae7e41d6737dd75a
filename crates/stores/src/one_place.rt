// The logger's store: one place of its own.
ghost use Rattle.std.specs.Prelude.{◌≡◌, [], ◌∷◌, length};
ghost use Rattle.stores.specs.Places.{filled, one_most, free_place};

use crate::place::Place;
use crate::places::{id_at, insert, remove, replace, session_of, used_count};
use refusal::Fault;
use session::session::Session;
use store::store::SessionStore;
use wire::id::SessionId;

#[derive(Drop)]
pub struct OnePlace {
    places: [Place; 1],
    ghost one: { length places ≡ 1 },
}

impl OnePlace {
    pub fn new() -> OnePlace
        ensures { result.places ≡ free_place ∷ [] }
    {
        OnePlace {
            places: [Place::FREE],
        }
    }
}

// Each call goes on to a function on places, as a table's do: a trait over where the places lie would add two calls and say no less.
impl SessionStore for OnePlace {
    ghost pairs = { λ s. filled s.places };

    ghost capacity = { λ _. 1 };

    ghost within = { λ s. one_most s.places s.one };

    #[tactic(auto, using(crate::proofs::Rows::looked_up))]
    fn look(&self, id: SessionId) -> Option<Session> {
        session_of(&self.places, id)
    }

    fn count(&self) -> usize {
        used_count(&self.places)
    }

    #[tactic(auto, using(crate::proofs::Rows::named))]
    fn name(&self, n: usize) -> Option<SessionId> {
        id_at(&self.places, n)
    }

    fn add(&mut self, id: SessionId, session: Session) -> Result<(), Fault> {
        insert(&mut self.places, id, session)
    }

    fn put(&mut self, id: SessionId, session: Session) -> Result<(), Fault> {
        replace(&mut self.places, id, session)
    }

    fn take(&mut self, id: SessionId) -> Result<(), Fault> {
        remove(&mut self.places, id)
    }
}
