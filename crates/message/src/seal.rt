// A message sealed: written in clear, tagged, and enciphered in place.
ghost use Rattle.std.specs.Prelude.{◌≡◌, ◌-◌, ◌<◌, ◌≤◌, true, ◌++◌, length, take, drop, IfOk};
ghost use Rattle.std.specs.List.{between};
ghost use Rattle.suite.specs.Ciphers.{enciphered, padded};
ghost use Rattle.wire.specs.Fronts.{front, counter_octets};
ghost use Rattle.framing.specs.Formats.{lead_of};
ghost use Rattle.framing.specs.Layouts.{Laid, Ordered};
ghost use Rattle.message.specs.Messages.{body_of, message};
ghost use Rattle.message.specs.Seals.{has_content, in_range, seal_answer, seal_buffer};

use crate::cipher::Cipher;
use framing::format::{Format, Protection};
use framing::layout::Layout;
use octets::write_number;
use refusal::{Fault, Refusal};
use suite::Suite;
use wire::front::Header;
use wire::parties::Plane;

fn has_content(plane: Plane, len: usize) -> bool
    ensures { result ≡ has_content plane len }
{
    match plane {
        Plane::Control => len >= 1,
        Plane::User => true,
    }
}

// Whether these values can make a message, with a suite whose tags have `tag_length` octets.
fn in_range(tag_length: usize, format: Format, header: Header, len: usize) -> bool
    ensures { result ≡ in_range tag_length format header len }
{
    format.tag.octets() <= tag_length
        && header.key >= 1
        && header.key <= 7
        && header.id.is_valid()
        && has_content(header.plane, len)
}

// That `out` has room for a layout stands in three contracts here and in `cipher`: a struct that kept it would hold the lent buffer
// and be lent again for each write.

// Front, Data Length and content, in clear.
fn write_clear(format: Format, header: Header, w: Layout, content: &[u8], out: &mut [u8])
    requires key { header.key < 8 }
    requires laid { Laid format header (length content.now) w }
    requires room { w.end ≤ length out.old }
    ensures { out.new ≡ (front header (counter_octets header.counter) ++ body_of (lead_of format header.plane) content.now) ++ drop w.tag out.old }
{
    header.write(out);
    write_number(content.len() as u32, &mut out[w.to..w.content]);
    out[w.content..w.tag].copy_from_slice(content);
}

// Writes the whole message; what stands behind it stays.
pub fn write_message<C: Suite>(
    suite: &C,
    protection: Protection,
    header: Header,
    w: Layout,
    content: &[u8],
    out: &mut [u8],
)
    requires key { header.key < 8 }
    requires laid { Laid protection.format header (length content.now) w }
    requires room { w.end ≤ length out.old }
    ensures { out.new ≡ message (C.keystream suite.now) (C.tag_of suite.now) protection header (counter_octets header.counter) content.now ++ drop w.end out.old }
{
    write_clear(protection.format, header, w, content, out);
    Cipher::new(suite, protection, header).protect(w, out);
}

// Seals content as one message at the start of `out`, and answers its length. A refusal leaves `out` as it was. Suite, protection and
// header stay parameters, as their caller has them; within, a `Cipher` holds them.
pub fn seal<C: Suite>(
    suite: &C,
    protection: Protection,
    header: Header,
    content: &[u8],
    out: &mut [u8],
) -> Result<usize, Fault>
    ensures value { result ≡ seal_answer (C.size suite.now) protection header (length content.now) (length out.old) }
    ensures after { out.new ≡ seal_buffer (C.keystream suite.now) (C.tag_of suite.now) (C.size suite.now) protection header content.now out.old }
    ensures within { IfOk result (λ n. n ≤ length out.old) }
{
    if !in_range(suite.tag_length(), protection.format, header, content.len()) {
        return Err(Fault::new(Refusal::OutOfRange, 0));
    }
    let w = protection.format.plan(header, content.len(), out.len())?;
    write_message(suite, protection, header, w, content, out);
    Ok(w.end)
}
