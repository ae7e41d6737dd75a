// What holds of every end and of every call.
ghost use Rattle.std.specs.Prelude.{◌≤◌, length};
ghost use Rattle.endpoint.specs.Ends.{HeldInStore};
ghost use Rattle.endpoint.specs.Rules.{RulesAreKept};
ghost use Rattle.endpoint.specs.Views.{ViewsFollow};

use crate::end::Endpoint;
use store::store::SessionStore;
use suite::Suite;

// An end has room for the sessions that it has.
pub fn sessions_have_room<S: SessionStore, C: Suite>(end: &Endpoint<S, C>)
    ensures { length end.now.pairs ≤ end.now.room }
{
    let _store = &end.store;
}

// An end holds its sessions in a store of its type, so that what is known of every such store is known of the end: of a store of one
// place, that there is room for one.
pub fn sessions_are_of_a_store<S: SessionStore, C: Suite>(end: &Endpoint<S, C>)
    ensures { HeldInStore S.SessionStore end.now }
{
    let _store = &end.store;
}

// Where no ID stands twice and every session keeps its rules, a call leaves it so, whatever it answers.
pub fn calls_keep_the_rules()
    ensures { RulesAreKept }
{}

// What is found under each ID, and how many sessions there are, follow the calls wherever the store keeps its sessions.
pub fn views_follow_the_calls()
    ensures { ViewsFollow }
{}
