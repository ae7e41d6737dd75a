// The slots of a session's keys, one for each Key ID.
ghost use Rattle.std.specs.Prelude.{◌≡◌};
ghost use Rattle.keys.specs.Slots.{keyset_in, waits_for, left_for, slot_of, with_slot, is_gone, kept_in, without};

use crate::id::KeyId;
use suite::Keyset;

// What stands in a slot. A key that leaves is still held; it waits for the key that takes its place. Neither `==` nor `Debug` is
// derived, so that no keyset is compared or printed.
#[derive(Clone, Copy)]
pub enum Slot {
    Empty,
    Held(Keyset),
    Leaving(Keyset, KeyId),
}

// Seven named slots and no array, so a `match` for each Key ID: a rule of this project.
#[derive(Clone, Copy)]
pub struct KeyRecord {
    pub key1: Slot,
    pub key2: Slot,
    pub key3: Slot,
    pub key4: Slot,
    pub key5: Slot,
    pub key6: Slot,
    pub key7: Slot,
}

// Which keys are dropped: one, or all that wait for one. No closure, which would be no plainer: each contract would have to say what it
// answers for every key.
#[derive(Clone, Copy, PartialEq, Eq, Debug)]
pub(crate) enum Dropped {
    Key(KeyId),
    WaitingFor(KeyId),
}

impl Slot {
    // The keyset of a slot, unless it is empty.
    pub fn keyset(self) -> Option<Keyset>
        ensures { result ≡ keyset_in self }
    {
        match self {
            Slot::Empty => None,
            Slot::Held(keyset) => Some(keyset),
            Slot::Leaving(keyset, _) => Some(keyset),
        }
    }

    pub(crate) fn waits_for(self, id: KeyId) -> bool
        ensures { result ≡ waits_for id self }
    {
        match self {
            Slot::Leaving(_, to) => to == id,
            _ => false,
        }
    }

    // The slot of a key that leaves for another.
    pub(crate) fn left_for(self, new: KeyId) -> Slot
        ensures { result ≡ left_for new self }
    {
        self.keyset()
            .map_or(Slot::Empty, |keyset| Slot::Leaving(keyset, new))
    }
}

impl KeyRecord {
    pub const EMPTY: KeyRecord = KeyRecord {
        key1: Slot::Empty,
        key2: Slot::Empty,
        key3: Slot::Empty,
        key4: Slot::Empty,
        key5: Slot::Empty,
        key6: Slot::Empty,
        key7: Slot::Empty,
    };

    pub fn slot(self, id: KeyId) -> Slot
        ensures { result ≡ slot_of self id }
    {
        match id {
            KeyId::One => self.key1,
            KeyId::Two => self.key2,
            KeyId::Three => self.key3,
            KeyId::Four => self.key4,
            KeyId::Five => self.key5,
            KeyId::Six => self.key6,
            KeyId::Seven => self.key7,
        }
    }

    // The record with another slot at a Key ID.
    pub(crate) fn with_slot(self, id: KeyId, slot: Slot) -> KeyRecord
        ensures { result ≡ with_slot id slot self }
    {
        let mut record = self;
        match id {
            KeyId::One => record.key1 = slot,
            KeyId::Two => record.key2 = slot,
            KeyId::Three => record.key3 = slot,
            KeyId::Four => record.key4 = slot,
            KeyId::Five => record.key5 = slot,
            KeyId::Six => record.key6 = slot,
            KeyId::Seven => record.key7 = slot,
        }
        record
    }

    // Whether a key is among those dropped.
    pub(crate) fn is_gone(self, dropped: Dropped, id: KeyId) -> bool
        ensures { result ≡ is_gone dropped self id }
    {
        match dropped {
            Dropped::Key(key) => id == key,
            Dropped::WaitingFor(key) => self.slot(id).waits_for(key),
        }
    }

    // What is left in a slot: nothing of a dropped key, and a key that waited for one is plainly held.
    fn kept(self, dropped: Dropped, id: KeyId) -> Slot
        ensures { result ≡ kept_in (is_gone dropped self) self id }
    {
        if self.is_gone(dropped, id) {
            return Slot::Empty;
        }
        match self.slot(id) {
            Slot::Leaving(keyset, to) if self.is_gone(dropped, to) => Slot::Held(keyset),
            slot => slot,
        }
    }

    pub(crate) fn without(self, dropped: Dropped) -> KeyRecord
        ensures { result ≡ without (is_gone dropped self) self }
    {
        KeyRecord {
            key1: self.kept(dropped, KeyId::One),
            key2: self.kept(dropped, KeyId::Two),
            key3: self.kept(dropped, KeyId::Three),
            key4: self.kept(dropped, KeyId::Four),
            key5: self.kept(dropped, KeyId::Five),
            key6: self.kept(dropped, KeyId::Six),
            key7: self.kept(dropped, KeyId::Seven),
        }
    }
}
