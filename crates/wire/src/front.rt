// The front of a message, which stays clear: its first octet, its counter and its Session ID.
ghost use Rattle.std.specs.Prelude.{◌≡◌, ◌+◌, ◌<◌, ◌≤◌, ◌++◌, length, drop, IfOk};
ghost use Rattle.wire.specs.Fronts.{plane_of, first_octet, front, front_length, counter_octets, id_end, front_read, Inside};
ghost use Rattle.wire.specs.Ids.{id_length};
ghost use Rattle.wire.specs.Limits.{longest_counter, longest_id};
ghost use Rattle.octets.specs.Octets.{width_of};

use crate::id::{IdError, SessionId, id_length};
use crate::parties::Plane;
use octets::{read_number, width, write_number};
use refusal::{Fault, Refusal};

// The octets of the longest message.
pub const LONGEST_MESSAGE: usize = 2048;

// The octets of the longest counter.
pub const LONGEST_COUNTER: usize = 4;

// What the front of a message says. A caller may ask for any key, and sealing refuses what does not fit, so that a key fits its three
// bits is no fact of this type.
#[derive(Clone, Copy, PartialEq, Eq, Debug)]
pub struct Header {
    pub plane: Plane,
    pub key: u8,
    pub counter: u32,
    pub id: SessionId,
}

// A header as it was read, and where its ID stands: from `from` up to `to`.
#[derive(Clone, Copy, PartialEq, Eq, Debug)]
pub struct Front {
    pub header: Header,
    pub from: usize,
    pub to: usize,
}

impl Plane {
    // The plane of a message by its first octet's top bit. No `From<u8>`: the rest of the octet says other things.
    pub fn of(first: u8) -> Plane
        ensures { result ≡ plane_of first }
    {
        if first < 128 {
            Plane::Control
        } else {
            Plane::User
        }
    }
}

impl Header {
    // How many octets the front takes.
    pub fn length(self) -> usize
        ensures value { result ≡ front_length self }
        ensures bound { (3 ≤ result) × (result ≤ 1 + longest_counter + longest_id) }
    {
        1 + width(self.counter) + self.id.width()
    }

    fn first_octet(self) -> u8
        requires { self.key < 8 }
        ensures { result ≡ first_octet self.plane self.key (width_of self.counter) }
    {
        let top = match self.plane {
            Plane::Control => 0,
            Plane::User => 128,
        };
        top + self.key * 8 + width(self.counter) as u8
    }

    // Writes the front at the start of `out`; what stands behind it stays.
    pub fn write(self, out: &mut [u8])
        requires key { self.key < 8 }
        requires room { front_length self ≤ length out.old }
        ensures { out.new ≡ front self (counter_octets self.counter) ++ drop (front_length self) out.old }
    {
        let from = 1 + width(self.counter);
        let to = from + self.id.width();
        out[0] = self.first_octet();
        write_number(self.counter, &mut out[1..from]);
        write_number(self.id.number, &mut out[from..to]);
    }
}

// Where the ID that stands at `from` ends.
fn id_end(message: &[u8], from: usize) -> Result<usize, Fault>
    requires inside { from ≤ length message.now }
    ensures value { result ≡ id_end (length message.now) from (id_length longest_id 0 (drop from message.now)) }
    ensures short { IfOk result (λ to. (from < to) × (to ≤ length message.now) × (to ≤ from + longest_id)) }
{
    match id_length(&message[from..]) {
        Ok(n) => Ok(from + n),
        Err(IdError::Unfinished) => Err(Fault::new(Refusal::EndsInHeader, message.len())),
        Err(IdError::TooLong) => Err(Fault::new(Refusal::NotASessionId, from)),
    }
}

// Reads the front of a message, and refuses at the first field that fails.
pub fn read_front(message: &[u8]) -> Result<Front, Fault>
    ensures value { result ≡ front_read message.now }
    ensures inside { Inside (length message.now) result }
{
    let len = message.len();
    if len > LONGEST_MESSAGE {
        return Err(Fault::new(Refusal::MessageTooLong, 0));
    }
    let first = message
        .first()
        .copied()
        .ok_or(Fault::new(Refusal::EndsInHeader, len))?;
    if first / 64 % 2 == 1 {
        return Err(Fault::new(Refusal::ReservedBitSet, 0));
    }
    let n = (first % 8) as usize;
    if n < 1 || n > LONGEST_COUNTER {
        return Err(Fault::new(Refusal::CounterLength, 0));
    }
    let from = 1 + n;
    if len < from {
        return Err(Fault::new(Refusal::EndsInHeader, len));
    }
    let to = id_end(message, from)?;
    let number = read_number(&message[from..to]);
    if number == 0 {
        return Err(Fault::new(Refusal::NotASessionId, from));
    }
    let header = Header {
        plane: Plane::of(first),
        key: first / 8 % 8,
        counter: read_number(&message[1..from]),
        id: SessionId { number },
    };
    Ok(Front { header, from, to })
}
