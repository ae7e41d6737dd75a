// The service's store: a table of places that the caller supplies, read and written in place.
ghost use Rattle.std.specs.Prelude.{◌≡◌, ◌≤◌, min, [], length, replicate};
ghost use Rattle.stores.specs.Places.{filled, filled_most, free_place};
ghost use Rattle.stores.specs.Sizes.{most_places};

use crate::place::Place;
use crate::places::{clear, id_at, insert, remove, replace, session_of, used_count};
use crate::size::TableSize;
use refusal::Fault;
use session::session::Session;
use store::store::SessionStore;
use wire::id::SessionId;

#[derive(Drop)]
pub struct Table<'a> {
    places: &'a mut [Place],
}

impl<'a> Table<'a> {
    // A table of so many of the places, from the first on, or of all where there are fewer. They are emptied; the others stay.
    pub fn new(size: TableSize, places: &'a mut [Place]) -> Table<'a>
        ensures places { result.places.now ≡ replicate (min size.count (length places.old)) free_place }
        ensures empty { filled result.places.now ≡ [] }
        ensures room { length result.places.now ≤ most_places }
    {
        let n = size.count().min(places.len());
        let part = &mut places[0..n];
        clear(part);
        Table { places: part }
    }
}

impl<'a> SessionStore for Table<'a> {
    ghost pairs = { λ t. filled t.places.now };

    ghost capacity = { λ t. length t.places.now };

    ghost within = { λ t. filled_most t.places.now };

    #[tactic(auto, using(crate::proofs::Rows::looked_up))]
    fn look(&self, id: SessionId) -> Option<Session> {
        session_of(self.places, id)
    }

    fn count(&self) -> usize {
        used_count(self.places)
    }

    #[tactic(auto, using(crate::proofs::Rows::named))]
    fn name(&self, n: usize) -> Option<SessionId> {
        id_at(self.places, n)
    }

    fn add(&mut self, id: SessionId, session: Session) -> Result<(), Fault> {
        insert(self.places, id, session)
    }

    fn put(&mut self, id: SessionId, session: Session) -> Result<(), Fault> {
        replace(self.places, id, session)
    }

    fn take(&mut self, id: SessionId) -> Result<(), Fault> {
        remove(self.places, id)
    }
}
