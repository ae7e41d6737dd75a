// A message sealed and opened again in one buffer, as by a receiver that it reaches unaltered.
#![tactic(auto)]

pub mod laws;

ghost use Rattle.loopback.specs.Loopbacks.{Looped};

use framing::format::Protection;
use message::open::{Opened, open};
use message::seal::seal;
use refusal::Fault;
use suite::Suite;
use wire::front::Header;

// Seals content into `buffer` and opens it there. Only sealing can refuse.
pub fn loopback<C: Suite>(
    suite: &C,
    protection: Protection,
    header: Header,
    content: &[u8],
    buffer: &mut [u8],
) -> Result<Opened, Fault>
    ensures { Looped (C.keystream suite.now) (C.tag_of suite.now) (C.size suite.now) protection header content.now buffer.old buffer.new result }
{
    let n = seal(suite, protection, header, content, buffer)?;
    open(suite, protection, &mut buffer[0..n])
}
