// A session and its changes, each answered as a value: where one refuses, nothing has changed.
ghost use Rattle.std.specs.Prelude.{◌≡◌, Decides};
ghost use Rattle.session.specs.Sessions.{protection_by, new_session, counters_of, with_counters, with_keys, changed, given, chosen, dropped, swapped, admission, accepted, outgoing, sealed};
ghost use Rattle.session.specs.Rules.{Sound, counts_test};

use crate::counters::Counters;
use framing::format::{Format, Protection};
use keys::id::KeyId;
use keys::keys::{HeldKey, Keys};
use refusal::Fault;
use suite::Keyset;
use wire::parties::{Plane, Role};

// What stays the same as long as a session lives.
#[derive(Clone, Copy)]
pub struct Settings {
    // Which end this is.
    pub role: Role,
    // M and D.
    pub format: Format,
    // How far a counter may be above the last accepted; at least 1.
    pub leap: u32,
}

#[derive(Clone, Copy)]
pub struct Session {
    pub settings: Settings,
    pub keys: Keys,
    pub control: Counters,
    pub user: Counters,
}

// What the next message is sealed with.
#[derive(Clone, Copy)]
pub struct Outgoing {
    pub key: HeldKey,
    pub counter: u32,
}

impl Settings {
    // How a message from this sender is protected, under these keys.
    pub fn protection(self, sender: Role, keys: Keyset) -> Protection
        ensures { result ≡ protection_by self sender keys }
    {
        Protection {
            keys,
            sender,
            format: self.format,
        }
    }
}

impl Session {
    // A session with one key, which it sends with; nothing is sealed or accepted yet.
    pub fn new(settings: Settings, id: KeyId, keyset: Keyset) -> Session
        ensures { result ≡ new_session settings id keyset }
    {
        Session {
            settings,
            keys: Keys::first(id, keyset),
            control: Counters::new(),
            user: Counters::new(),
        }
    }

    pub fn counters(self, plane: Plane) -> Counters
        ensures { result ≡ counters_of self plane }
    {
        match plane {
            Plane::Control => self.control,
            Plane::User => self.user,
        }
    }

    fn with_counters(self, plane: Plane, counters: Counters) -> Session
        ensures { result ≡ with_counters self plane counters }
    {
        match plane {
            Plane::Control => Session {
                control: counters,
                ..self
            },
            Plane::User => Session {
                user: counters,
                ..self
            },
        }
    }

    fn with_keys(self, keys: Keys) -> Session
        ensures { result ≡ with_keys self keys }
    {
        Session { keys, ..self }
    }

    fn changed(self, change: Option<Keys>) -> Option<Session>
        ensures { result ≡ changed self change }
    {
        change.map(|keys| self.with_keys(keys))
    }

    // Fills an empty slot.
    pub fn give(self, id: KeyId, keyset: Keyset) -> Result<Session, Fault>
        ensures { result ≡ given id keyset self }
    {
        let keys = self.keys.give(id, keyset)?;
        Ok(self.with_keys(keys))
    }

    // Sends with another key from now on.
    pub fn choose(self, id: KeyId) -> Result<Session, Fault>
        ensures { result ≡ chosen id self }
    {
        let keys = self.keys.choose(id)?;
        Ok(self.with_keys(keys))
    }

    // Empties a slot. None where it is empty already.
    pub fn drop_key(self, id: KeyId) -> Option<Session>
        ensures { result ≡ dropped id self }
    {
        self.changed(self.keys.drop_key(id))
    }

    // Puts a new key in place of an old one, which stays until a message comes under the new one. None where the old one is not held.
    pub fn swap(self, new: KeyId, old: KeyId, keyset: Keyset) -> Result<Option<Session>, Fault>
        ensures { result ≡ swapped new old keyset self }
    {
        let change = self.keys.swap(new, old, keyset)?;
        Ok(self.changed(change))
    }

    // The key of a message that arrived, if the key is held and the counter may be accepted. No `Header`, here and after: a session knows
    // nothing of its ID, and once a key is found it is no number any more.
    pub fn admit(self, plane: Plane, key: u8, counter: u32) -> Result<HeldKey, Fault>
        ensures { result ≡ admission self plane key counter }
    {
        let held = self.keys.receiving(key)?;
        self.counters(plane).admit(counter, self.settings.leap)?;
        Ok(held)
    }

    // After a message that was admitted proved genuine.
    pub fn after_accepting(self, plane: Plane, key: KeyId, counter: u32) -> Session
        ensures { result ≡ accepted self plane key counter }
    {
        self.with_keys(self.keys.after_use(key))
            .with_counters(plane, self.counters(plane).after_accepting(counter))
    }

    // What the next message of a plane is sealed with.
    pub fn prepare(self, plane: Plane) -> Result<Outgoing, Fault>
        ensures { result ≡ outgoing self plane }
    {
        let key = self.keys.sending()?;
        let counter = self.counters(plane).next()?;
        Ok(Outgoing { key, counter })
    }

    // After a message with this counter was sealed.
    pub fn after_sealing(self, plane: Plane, counter: u32) -> Session
        ensures { result ≡ sealed self plane counter }
    {
        self.with_counters(plane, self.counters(plane).after_sealing(counter))
    }

    fn counts_are_sound(self) -> bool
        ensures { result ≡ counts_test self }
    {
        self.settings.leap >= 1
            && self.control.accepted <= self.control.last_accepted
            && self.user.accepted <= self.user.last_accepted
    }

    // Whether this session keeps the rules that every session keeps.
    pub fn is_sound(self) -> bool
        ensures { Decides result (Sound self) }
    {
        self.counts_are_sound() && self.keys.is_sound()
    }
}
