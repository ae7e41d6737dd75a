// Places in a row, searched and changed in place.
ghost use Rattle.std.specs.Prelude.{◌≡◌, length, replicate, position, Some, None, MatchResult};
ghost use Rattle.refusal.specs.declared.Refusal.TheVariants.{NoSession, StoreFull};
ghost use Rattle.refusal.specs.Refusals.{fault_at};
ghost use Rattle.std.specs.List.{find, filter, slice_get};
ghost use Rattle.std.specs.Option.{option_map};
ghost use Rattle.store.specs.Stores.{lookup, name_at, replaced, without, add_answer, need_answer, Added};
ghost use Rattle.stores.specs.Places.{filled, holds_id, is_free, in_use, id_in, session_in, free_place};

use crate::place::Place;
use refusal::{Fault, Refusal};
use session::session::Session;
use wire::id::SessionId;

// Where the session of an ID is. Sessions are not copied on the way.
fn place_of(places: &[Place], id: SessionId) -> Option<usize>
    ensures { result ≡ position (holds_id id) places.now }
{
    places.iter().position(|place| place.holds(id))
}

// Where the first free place is.
fn first_free(places: &[Place]) -> Option<usize>
    ensures { result ≡ position is_free places.now }
{
    places.iter().position(|place| !place.used)
}

// The session of an ID, in the first place that holds it.
pub(crate) fn session_of(places: &[Place], id: SessionId) -> Option<Session>
    ensures { result ≡ option_map session_in (find (holds_id id) places.now) }
{
    places
        .iter()
        .find(|place| place.holds(id))
        .map(|place| place.session)
}

// Added up and not filtered, which takes more than twice the time.
pub(crate) fn used_count(places: &[Place]) -> usize
    ensures { result ≡ length (filled places.now) }
{
    places.iter().map(|place| usize::from(place.used)).sum()
}

// The ID in the n-th used place.
pub(crate) fn id_at(places: &[Place], n: usize) -> Option<SessionId>
    ensures { result ≡ option_map id_in (slice_get (filter in_use places.now) n) }
{
    places
        .iter()
        .filter(|place| place.used)
        .nth(n)
        .map(|place| place.id)
}

// Where the session of an ID is, which has to be there.
fn held_place(places: &[Place], id: SessionId) -> Result<usize, Fault>
    ensures { MatchResult result (λ i. position (holds_id id) places.now ≡ Some i) (λ e. (position (holds_id id) places.now ≡ None) × (e ≡ fault_at NoSession 0)) }
{
    place_of(places, id).ok_or(Fault::new(Refusal::NoSession, 0))
}

// Where a new session can stand, if there is room.
fn open_place(places: &[Place]) -> Result<usize, Fault>
    ensures { MatchResult result (λ i. position is_free places.now ≡ Some i) (λ e. (position is_free places.now ≡ None) × (e ≡ fault_at StoreFull 0)) }
{
    first_free(places).ok_or(Fault::new(Refusal::StoreFull, 0))
}

pub(crate) fn insert(places: &mut [Place], id: SessionId, session: Session) -> Result<(), Fault>
    ensures value { result ≡ add_answer (filled places.old) (length places.old) id }
    ensures after { Added (filled places.old) (filled places.new) id session result }
{
    if place_of(places, id).is_some() {
        return Err(Fault::new(Refusal::SessionPresent, 0));
    }
    let i = open_place(places)?;
    places[i] = Place {
        used: true,
        id,
        session,
    };
    Ok(())
}

pub(crate) fn replace(places: &mut [Place], id: SessionId, session: Session) -> Result<(), Fault>
    ensures value { result ≡ need_answer (filled places.old) id }
    ensures after { filled places.new ≡ replaced (filled places.old) id session }
{
    let i = held_place(places, id)?;
    places[i].session = session;
    Ok(())
}

// Frees the place of an ID; its keys are gone from it.
pub(crate) fn remove(places: &mut [Place], id: SessionId) -> Result<(), Fault>
    ensures value { result ≡ need_answer (filled places.old) id }
    ensures after { filled places.new ≡ without (filled places.old) id }
{
    let i = held_place(places, id)?;
    places[i] = Place::FREE;
    Ok(())
}

pub(crate) fn clear(places: &mut [Place])
    ensures { places.new ≡ replicate (length places.old) free_place }
{
    // A loop and no `fill`, so that an edit of its own can show that a place which keeps its key is refused.
    for place in places.iter_mut() {
        *place = Place::FREE;
    }
}
