// What is done with a session's keys. Each change is answered as a value: where it refuses, nothing has changed.
ghost use Rattle.std.specs.Prelude.{◌≡◌, Decides};
ghost use Rattle.refusal.specs.Refusals.{fault_at};
ghost use Rattle.keys.specs.Changes.{holds, first_key, filled, given, chosen, emptied, dropped, replaced_by, swapped, used, held_key, held_or, receiving_key, sending_key};
ghost use Rattle.keys.specs.Rules.{SoundKeys, slot_test, slots_test, sending_test};
ghost use Rattle.keys.specs.Slots.{slot_of};

use crate::id::KeyId;
use crate::record::{Dropped, KeyRecord, Slot};
use refusal::{Fault, Refusal};
use suite::Keyset;

// The slots, and the Key ID that is sent with, if any.
#[derive(Clone, Copy)]
pub struct Keys {
    pub slots: KeyRecord,
    pub sending: Option<KeyId>,
}

// A key that is held, and its Key ID.
#[derive(Clone, Copy)]
pub struct HeldKey {
    pub id: KeyId,
    pub keyset: Keyset,
}

impl Keys {
    // The keys of a new session: one, which is sent with.
    pub fn first(id: KeyId, keyset: Keyset) -> Keys
        ensures { result ≡ first_key id keyset }
    {
        Keys {
            slots: KeyRecord::EMPTY.with_slot(id, Slot::Held(keyset)),
            sending: Some(id),
        }
    }

    pub fn holds(self, id: KeyId) -> bool
        ensures { result ≡ holds self id }
    {
        self.slots.slot(id).keyset().is_some()
    }

    // The key of a Key ID, if it is held.
    fn held(self, id: KeyId) -> Option<HeldKey>
        ensures { result ≡ held_key self id }
    {
        self.slots
            .slot(id)
            .keyset()
            .map(|keyset| HeldKey { id, keyset })
    }

    // The key of a Key ID, if there is one and it is held.
    fn held_or(self, id: Option<KeyId>, refusal: Refusal) -> Result<HeldKey, Fault>
        ensures { result ≡ held_or (fault_at refusal 0) self id }
    {
        id.and_then(|id| self.held(id))
            .ok_or(Fault::new(refusal, 0))
    }

    // The key that a message names by its number.
    pub fn receiving(self, number: u8) -> Result<HeldKey, Fault>
        ensures { result ≡ receiving_key number self }
    {
        self.held_or(KeyId::try_from(number as u64).ok(), Refusal::KeyNotHeld)
    }

    // The key that is sent with.
    pub fn sending(self) -> Result<HeldKey, Fault>
        ensures { result ≡ sending_key self }
    {
        self.held_or(self.sending, Refusal::NoSendingKey)
    }

    fn filled(self, id: KeyId, keyset: Keyset) -> Keys
        ensures { result ≡ filled id keyset self }
    {
        Keys {
            slots: self.slots.with_slot(id, Slot::Held(keyset)),
            ..self
        }
    }

    // Fills an empty slot. Key ID and keyset stay two parameters, here and where else a key is given: callers have them apart, and a
    // `HeldKey` is one that is held.
    pub fn give(self, id: KeyId, keyset: Keyset) -> Result<Keys, Fault>
        ensures { result ≡ given id keyset self }
    {
        if self.holds(id) {
            return Err(Fault::new(Refusal::KeyInUse, 0));
        }
        Ok(self.filled(id, keyset))
    }

    // Sends with another key from now on.
    pub fn choose(self, id: KeyId) -> Result<Keys, Fault>
        ensures { result ≡ chosen id self }
    {
        if !self.holds(id) {
            return Err(Fault::new(Refusal::KeyNotHeld, 0));
        }
        let sending = Some(id);
        Ok(Keys { sending, ..self })
    }

    // Without some keys; `instead` is sent with where the sending key is among them.
    fn emptied(self, which: Dropped, instead: Option<KeyId>) -> Keys
        ensures { result ≡ emptied which instead self }
    {
        let sending = match self.sending {
            Some(id) if self.slots.is_gone(which, id) => instead,
            other => other,
        };
        Keys {
            slots: self.slots.without(which),
            sending,
        }
    }

    // Empties a slot. Keys that waited for it are then plainly held. None where the slot is empty already.
    pub fn drop_key(self, id: KeyId) -> Option<Keys>
        ensures { result ≡ dropped id self }
    {
        if !self.holds(id) {
            return None;
        }
        Some(self.emptied(Dropped::Key(id), None))
    }

    fn replaced_by(self, new: KeyId, old: KeyId, keyset: Keyset) -> Keys
        ensures { result ≡ replaced_by new old keyset self }
    {
        let leaving = self.slots.slot(old).left_for(new);
        Keys {
            slots: self
                .slots
                .with_slot(new, Slot::Held(keyset))
                .with_slot(old, leaving),
            ..self
        }
    }

    // Puts a new key in place of an old one, which leaves: it is held until a message comes under the new one. None where the old
    // one is not held.
    #[tactic(auto, using(crate::proofs::Views::same_is))]
    pub fn swap(self, new: KeyId, old: KeyId, keyset: Keyset) -> Result<Option<Keys>, Fault>
        ensures { result ≡ swapped new old keyset self }
    {
        if !self.holds(old) {
            return Ok(None);
        }
        if new == old {
            return Ok(Some(self.filled(new, keyset)));
        }
        if self.holds(new) {
            return Err(Fault::new(Refusal::KeyInUse, 0));
        }
        Ok(Some(self.replaced_by(new, old, keyset)))
    }

    // After a message was accepted under a key: those that waited for it are dropped, and it is sent with in their place.
    pub fn after_use(self, id: KeyId) -> Keys
        ensures { result ≡ used id self }
    {
        self.emptied(Dropped::WaitingFor(id), Some(id))
    }

    fn slot_is_sound(self, id: KeyId) -> bool
        ensures { result ≡ slot_test self id (slot_of self.slots id) }
    {
        match self.slots.slot(id) {
            Slot::Leaving(_, to) => to != id && self.holds(to),
            _ => true,
        }
    }

    fn sending_is_sound(self) -> bool
        ensures { result ≡ sending_test self self.sending }
    {
        self.sending.is_none_or(|id| self.holds(id))
    }

    fn slots_are_sound(self) -> bool
        ensures { result ≡ slots_test self }
    {
        KeyId::ALL.iter().all(|id| self.slot_is_sound(*id))
    }

    // Whether these keys keep the rules that the keys of every session keep.
    pub fn is_sound(self) -> bool
        ensures { Decides result (SoundKeys self) }
    {
        self.sending_is_sound() && self.slots_are_sound()
    }
}
