// Give, Choose, Drop and Swap.
ghost use Rattle.std.specs.Prelude.{◌≡◌, true, Ok};
ghost use Rattle.store.specs.Stores.{has};
ghost use Rattle.endpoint.specs.Ends.{meaning, viewed, with_pairs};
ghost use Rattle.endpoint.specs.KeyCalls.{giving, choosing, dropping, swapping, done_answer, done_end, effect_of, effect_answer, changed_pairs, effect_end};

use crate::end::Endpoint;
use arguments::{key_id, session_id};
use refusal::Fault;
use session::session::Session;
use store::store::SessionStore;
use suite::{Keyset, Suite};
use wire::id::SessionId;

// What a call did that may have nothing to do.
#[derive(Clone, Copy, PartialEq, Eq, Debug)]
pub enum Effect {
    Done,
    Ignored,
}

impl<S: SessionStore, C: Suite> Endpoint<S, C> {
    // Fills an empty slot.
    pub fn give(&mut self, id: &[u8], key: u64, keyset: Keyset) -> Result<(), Fault>
        ensures value { result ≡ done_answer (giving (viewed (meaning C.Suite self.old)) id.now key keyset) }
        ensures end { meaning C.Suite self.new ≡ done_end (meaning C.Suite self.old) (giving (viewed (meaning C.Suite self.old)) id.now key keyset) }
    {
        let id = session_id(id)?;
        let key = key_id(key)?;
        let session = self.find(id, 0)?.give(key, keyset)?;
        self.store.put(id, session)
    }

    // Sends with another key from now on.
    pub fn choose(&mut self, id: &[u8], key: u64) -> Result<(), Fault>
        ensures value { result ≡ done_answer (choosing (viewed (meaning C.Suite self.old)) id.now key) }
        ensures end { meaning C.Suite self.new ≡ done_end (meaning C.Suite self.old) (choosing (viewed (meaning C.Suite self.old)) id.now key) }
    {
        let id = session_id(id)?;
        let key = key_id(key)?;
        let session = self.find(id, 0)?.choose(key)?;
        self.store.put(id, session)
    }

    // Empties a slot.
    pub fn drop_key(&mut self, id: &[u8], key: u64) -> Result<Effect, Fault>
        ensures value { result ≡ effect_answer (dropping (viewed (meaning C.Suite self.old)) id.now key) }
        ensures end { meaning C.Suite self.new ≡ effect_end (meaning C.Suite self.old) (dropping (viewed (meaning C.Suite self.old)) id.now key) }
    {
        let id = session_id(id)?;
        let key = key_id(key)?;
        let change = self.find(id, 0)?.drop_key(key);
        self.put_change(id, change)
    }

    // Puts a new key in place of an old one, which stays until a message comes under the new one.
    pub fn swap(&mut self, id: &[u8], new: u64, old: u64, keyset: Keyset) -> Result<Effect, Fault>
        ensures value { result ≡ effect_answer (swapping (viewed (meaning C.Suite self.old)) id.now new old keyset) }
        ensures end { meaning C.Suite self.new ≡ effect_end (meaning C.Suite self.old) (swapping (viewed (meaning C.Suite self.old)) id.now new old keyset) }
    {
        let id = session_id(id)?;
        let new = key_id(new)?;
        let old = key_id(old)?;
        let change = self.find(id, 0)?.swap(new, old, keyset)?;
        self.put_change(id, change)
    }

    // Puts a changed session back, if there was something to do.
    fn put_change(&mut self, id: SessionId, change: Option<Session>) -> Result<Effect, Fault>
        requires there { has self.old.pairs id ≡ true }
        ensures value { result ≡ Ok (effect_of change) }
        ensures end { meaning C.Suite self.new ≡ with_pairs (meaning C.Suite self.old) (changed_pairs self.old.pairs id change) }
    {
        match change {
            Some(session) => {
                self.store.put(id, session)?;
                Ok(Effect::Done)
            }
            None => Ok(Effect::Ignored),
        }
    }
}
