// The keys, headers and formats that the examples share, and the test of a message worked through.
use framing::format::{DataLength, Format, Protection, TagLength};
use message::open::open;
use message::seal::seal;
use std::process::Abort;
use std::test::Fail;
use suite::{Keyset, Suite};
use wire::front::Header;
use wire::id::SessionId;
use wire::parties::{Plane, Role};

// Integrity key sixteen octets 10, encryption key sixteen octets 20.
pub(crate) fn protection(sender: Role, tag: TagLength, length: DataLength) -> Protection {
    Protection {
        keys: Keyset::of_octets(0x10, 0x20),
        sender,
        format: Format { tag, length },
    }
}

// From the logger, M 4 and D 1.
pub(crate) fn usual() -> Protection {
    protection(Role::Logger, TagLength::Four, DataLength::One)
}

pub(crate) fn header(plane: Plane, key: u8, counter: u32, number: u32) -> Header {
    Header {
        plane,
        key,
        counter,
        id: SessionId { number },
    }
}

// Sealing gives these octets and leaves what stands behind them; opening them gives the header and the content.
pub(crate) fn worked<C: Suite>(
    rt: &impl Abort,
    suite: &C,
    p: Protection,
    h: Header,
    content: &[u8],
    octets: &[u8],
) -> Result<(), Fail> {
    let mut buffer = [0xEEu8; 64];
    let n = seal(suite, p, h, content, &mut buffer)?;
    assert_eq!(rt; &buffer[0..n], octets);
    for x in &buffer[n..64] {
        assert_eq!(rt; *x, 0xEE);
    }
    let message = &mut buffer[0..n];
    let opened = open(suite, p, message)?;
    assert_eq!(rt; opened.header, h);
    let (start, end) = (opened.place, opened.place + opened.length);
    assert_eq!(rt; &message[start..end], content);
    Ok(())
}
