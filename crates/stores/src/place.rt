// A place for one session.
ghost use Rattle.std.specs.Prelude.{◌≡◌};
ghost use Rattle.stores.specs.Places.{holds_id};

use framing::format::{DataLength, Format, TagLength};
use keys::keys::Keys;
use keys::record::KeyRecord;
use session::counters::Counters;
use session::session::{Session, Settings};
use wire::id::SessionId;
use wire::parties::Role;

// Where `used` is not set the place is free, and what else stands in it means nothing. A flag and no `Option`: a rule of this project
// wants a place that is freed to be written over whole, so that no key is left in its caller's memory.
#[derive(Clone, Copy)]
pub struct Place {
    pub used: bool,
    pub id: SessionId,
    pub session: Session,
}

impl Place {
    // A free place: its numbers are 0, and no key is left in it.
    pub const FREE: Place = Place {
        used: false,
        id: SessionId { number: 0 },
        session: Session {
            settings: Settings {
                role: Role::Logger,
                format: Format {
                    tag: TagLength::Four,
                    length: DataLength::One,
                },
                leap: 0,
            },
            keys: Keys {
                slots: KeyRecord::EMPTY,
                sending: None,
            },
            control: Counters::NONE,
            user: Counters::NONE,
        },
    };

    // Whether the session of an ID is here. The ID is looked at first.
    pub fn holds(&self, id: SessionId) -> bool
        ensures { result ≡ holds_id id self.now }
    {
        self.id == id && self.used
    }
}
