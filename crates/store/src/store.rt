// A session store.
ghost use Rattle.std.specs.Prelude.{◌≡◌, ℕ, ◌≤◌, length};
ghost use Rattle.store.specs.Stores.{Pairs, lookup, name_at, replaced, without, add_answer, need_answer, Added};

use refusal::Fault;
use session::session::Session;
use wire::id::SessionId;

// What a store means is a list of pairs of Session ID and session; where an ID stood twice its first pair would count, but no call makes
// an ID stand twice. No call changes how many pairs there is room for.
pub trait SessionStore {
    ghost pairs: { Self → Pairs };

    // C, how many pairs there is room for.
    ghost capacity: { Self → ℕ };

    // Shown by each store: it has room for the pairs that it has.
    ghost within: { (s : Self) → length (pairs s) ≤ capacity s };

    // The session of an ID, if it is there.
    fn look(&self, id: SessionId) -> Option<Session>
        ensures { result ≡ lookup (pairs self.now) id };

    // How many pairs there are.
    fn count(&self) -> usize
        ensures { result ≡ length (pairs self.now) };

    // The ID of the n-th pair, from 0 on.
    fn name(&self, n: usize) -> Option<SessionId>
        ensures { result ≡ name_at (pairs self.now) n };

    // That the room stays, each call says of itself: it ties two moments, so no invariant of a store could.

    // Inserts a pair at a position of the store's own. ID and session stay two parameters: a session does not know its ID, and callers have
    // the two apart.
    fn add(&mut self, id: SessionId, session: Session) -> Result<(), Fault>
        ensures room { capacity self.new ≡ capacity self.old }
        ensures value { result ≡ add_answer (pairs self.old) (capacity self.old) id }
        ensures after { Added (pairs self.old) (pairs self.new) id session result };

    // Replaces the session of an ID.
    fn put(&mut self, id: SessionId, session: Session) -> Result<(), Fault>
        ensures room { capacity self.new ≡ capacity self.old }
        ensures value { result ≡ need_answer (pairs self.old) id }
        ensures after { pairs self.new ≡ replaced (pairs self.old) id session };

    // Removes the pair of an ID.
    fn take(&mut self, id: SessionId) -> Result<(), Fault>
        ensures room { capacity self.new ≡ capacity self.old }
        ensures value { result ≡ need_answer (pairs self.old) id }
        ensures after { pairs self.new ≡ without (pairs self.old) id };
}
