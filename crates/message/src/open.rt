// A message opened in place: deciphered, tested, and put back where a test fails.
ghost use Rattle.std.specs.Prelude.{◌≡◌, ◌+◌, ◌≤◌, length, IfOk};
ghost use Rattle.std.specs.Str.{bytes_eq};
ghost use Rattle.std.specs.List.{fold, zip};
ghost use Rattle.framing.specs.Layouts.{Ordered};
ghost use Rattle.message.specs.Opens.{differing, cleared, tag_matches, length_matches, checked, body_answer, body_buffer, open_answer, open_buffer};
ghost use Rattle.wire.specs.Fronts.{Within};

use crate::cipher::Cipher;
use framing::format::Protection;
use framing::layout::Layout;
use octets::read_number;
use refusal::{Fault, Refusal};
use suite::Suite;
use wire::front::{Front, Header, read_front};

// What an accepted message says: its header, and where its content stands in clear. A place and no slice: the octets are in the buffer
// that its caller lent, and there is no heap.
#[derive(Clone, Copy, PartialEq, Eq, Debug)]
pub struct Opened {
    pub header: Header,
    pub place: usize,
    pub length: usize,
}

// The bits in which two runs of octets differ, gathered. Every octet is looked at, wherever they first differ.
fn difference(a: &[u8], b: &[u8]) -> u8
    ensures { result ≡ fold differing 0 (zip a.now b.now) }
{
    a.iter().zip(b).fold(0, |seen, (x, y)| seen | (*x ^ *y))
}

#[tactic(auto, using(crate::proofs::Compares::gathered))]
fn same_octets(a: &[u8], b: &[u8]) -> bool
    requires { length a.now ≡ length b.now }
    ensures { result ≡ bytes_eq a.now b.now }
{
    difference(a, b) == 0
}

// A message in clear, and where its parts stand.
#[derive(Drop)]
struct Parts<'a> {
    layout: Layout,
    octets: &'a [u8],
    ghost ordered: { Ordered layout (length octets.now) },
}

impl Parts<'_> {
    fn tag_matches<C: Suite>(&self, cipher: &Cipher<'_, C>) -> bool
        ensures { result ≡ tag_matches (C.tag_of cipher.now.suite.now cipher.now.keys cipher.now.inputs) self.now.layout self.now.octets.now }
    {
        let w = self.layout;
        let tag = cipher
            .suite
            .tag(cipher.keys, cipher.inputs, &self.octets[w.from..w.tag]);
        same_octets(&self.octets[w.tag..w.end], &tag[0..w.end - w.tag])
    }

    fn length_matches(&self) -> bool
        ensures { result ≡ length_matches self.now.layout self.now.octets.now }
    {
        let w = self.layout;
        w.content == w.to
            || read_number(&self.octets[w.to..w.content]) as usize == w.tag - w.content
    }

    // The two tests of a message in clear.
    fn check<C: Suite>(&self, cipher: &Cipher<'_, C>) -> Result<(), Fault>
        ensures { result ≡ checked (C.tag_of cipher.now.suite.now cipher.now.keys cipher.now.inputs) self.now.layout self.now.octets.now }
    {
        if !self.tag_matches(cipher) {
            return Err(Fault::new(Refusal::TagDiffers, self.layout.tag));
        }
        if !self.length_matches() {
            return Err(Fault::new(Refusal::DataLengthDiffers, self.layout.to));
        }
        Ok(())
    }
}

// Opens a message whose front was read. A refused message is as it arrived.
pub fn open_body<C: Suite>(
    suite: &C,
    protection: Protection,
    front: Front,
    message: &mut [u8],
) -> Result<Opened, Fault>
    requires within { Within front (length message.old) }
    ensures value { result ≡ body_answer (C.keystream suite.now) (C.tag_of suite.now) protection front message.old }
    ensures after { message.new ≡ body_buffer (C.keystream suite.now) (C.tag_of suite.now) protection front message.old }
    ensures inside { IfOk result (λ o. o.place + o.length ≤ length message.old) }
{
    let w = protection.format.locate(front, message.len())?;
    let cipher = Cipher::new(suite, protection, front.header);
    cipher.decipher(front.to, message);
    let parts = Parts {
        layout: w,
        octets: message,
    };
    match parts.check(&cipher) {
        Ok(()) => Ok(Opened {
            header: front.header,
            place: w.content,
            length: w.tag - w.content,
        }),
        Err(fault) => {
            cipher.decipher(front.to, message);
            Err(fault)
        }
    }
}

// Opens a message in place. A refused message is as it arrived.
pub fn open<C: Suite>(
    suite: &C,
    protection: Protection,
    message: &mut [u8],
) -> Result<Opened, Fault>
    ensures value { result ≡ open_answer (C.keystream suite.now) (C.tag_of suite.now) (C.size suite.now) protection message.old }
    ensures after { message.new ≡ open_buffer (C.keystream suite.now) (C.tag_of suite.now) (C.size suite.now) protection message.old }
    ensures inside { IfOk result (λ o. o.place + o.length ≤ length message.old) }
{
    if protection.format.tag.octets() > suite.tag_length() {
        return Err(Fault::new(Refusal::OutOfRange, 0));
    }
    let front = read_front(message)?;
    open_body(suite, protection, front, message)
}
