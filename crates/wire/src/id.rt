// Session IDs: one to four octets, the top bit set on all but the last.
ghost use Rattle.std.specs.Prelude.{◌≡◌, ◌<◌, ◌≤◌, length, take, position, Some, IfSome};
ghost use Rattle.std.specs.Option.{ok_or};
ghost use Rattle.refusal.specs.Refusals.{range_error};
ghost use Rattle.wire.specs.Ids.{ends_id, id_length, IdInside, is_id, id_given, id_octets};
ghost use Rattle.wire.specs.Hex.{hex_of};
ghost use Rattle.wire.specs.Limits.{longest_id};
ghost use Rattle.octets.specs.Octets.{width_of};

use crate::hex::Hex;
use octets::{read_number, width};
use refusal::RangeError;
use std::fmt;

// The octets of the longest ID.
pub const LONGEST_ID: usize = 4;

// An ID as the number that its octets write. Its octets are the fewest of that number, since an ID of two or more begins
// with the top bit set.
#[derive(Clone, Copy, PartialEq, Eq, Debug)]
pub struct SessionId {
    pub number: u32,
}

// Why no ID ends in some octets.
#[derive(Clone, Copy, PartialEq, Eq, Debug)]
pub enum IdError {
    // They stop before its last octet.
    Unfinished,
    // None of the first four is its last.
    TooLong,
}

// The place of the first octet whose top bit is clear, among the first four.
fn last_place(l: &[u8]) -> Option<usize>
    ensures value { result ≡ position ends_id (take longest_id l.now) }
    ensures bound { IfSome result (λ i. (i < length l.now) × (i < longest_id)) }
{
    l.iter().take(LONGEST_ID).position(|x| *x < 128)
}

// How many octets the ID has that some octets begin with.
pub fn id_length(l: &[u8]) -> Result<usize, IdError>
    ensures value { result ≡ id_length longest_id 0 l.now }
    ensures inside { IdInside (length l.now) result }
{
    match last_place(l) {
        Some(last) => Ok(last + 1),
        None if l.len() < LONGEST_ID => Err(IdError::Unfinished),
        None => Err(IdError::TooLong),
    }
}

// The ID that these octets are, all of them; 00 is none.
impl TryFrom<&[u8]> for SessionId {
    type Error = RangeError;

    ghost try_from_gives = { λ l r. r ≡ ok_or (id_given l.now) range_error };

    fn try_from(l: &[u8]) -> Result<SessionId, RangeError> {
        if id_length(l) != Ok(l.len()) {
            return Err(RangeError);
        }
        match read_number(l) {
            0 => Err(RangeError),
            number => Ok(SessionId { number }),
        }
    }
}

impl SessionId {
    // How many octets the ID has.
    pub fn width(self) -> usize
        ensures value { result ≡ width_of self.number }
        ensures bound { (1 ≤ result) × (result ≤ longest_id) }
    {
        width(self.number)
    }

    // Whether the octets of the number are an ID. They are cut from the number's four here, in `fmt` and where a bench tells an ID: a
    // method that lends them would need a buffer that its caller makes.
    pub fn is_valid(self) -> bool
        ensures { result ≡ is_id (id_octets self) }
    {
        let octets = self.number.to_be_bytes();
        SessionId::try_from(&octets[LONGEST_ID - self.width()..]).is_ok()
    }
}

impl fmt::Display for SessionId {
    ghost output = { λ id. Some (hex_of (id_octets id)) };

    fn fmt<W: fmt::Write>(&self, f: &mut fmt::Formatter<W>) -> fmt::Result {
        let octets = self.number.to_be_bytes();
        let id = Hex {
            octets: &octets[LONGEST_ID - self.width()..],
        };
        write!(f, "{id}")
    }
}
