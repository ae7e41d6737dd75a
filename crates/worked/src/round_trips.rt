// Every M and D on both planes: what is sealed is opened as sealed.
use crate::agreed::{header, protection};
use bench_suite::Bench;
use framing::format::{DataLength, TagLength};
use loopback::loopback;
use message::seal::seal;
use std::process::Abort;
use std::test::Fail;
use wire::parties::{Plane, Role};

const TAGS: [TagLength; 4] = [
    TagLength::Four,
    TagLength::Eight,
    TagLength::Twelve,
    TagLength::Sixteen,
];

const LENGTHS: [DataLength; 2] = [DataLength::One, DataLength::Two];

const ROLES: [Role; 2] = [Role::Logger, Role::Service];

fn round_trip(
    rt: &impl Abort,
    plane: Plane,
    lead: usize,
    sender: Role,
    tag: TagLength,
    length: DataLength,
) -> Result<(), Fail> {
    assert!(rt; lead <= 2);
    let p = protection(sender, tag, length);
    let h = header(plane, 5, 70_000, 0xF469);
    let content = [0x10, 0x20, 0x30, 0x40, 0x50];
    let mut buffer = [0u8; 64];
    // one octet, three of counter, two of ID
    assert_eq!(rt;
        seal(&Bench, p, h, &content, &mut buffer)?,
        6 + lead + 5 + tag.octets()
    );
    let opened = loopback(&Bench, p, h, &content, &mut buffer)?;
    assert_eq!(rt; opened.header, h);
    assert_eq!(rt; opened.place, 6 + lead);
    assert_eq!(rt; opened.length, 5);
    assert_eq!(rt; buffer[6 + lead], 0x10);
    assert_eq!(rt; buffer[10 + lead], 0x50);
    Ok(())
}

#[test]
fn every_format(rt: HostRuntime) -> Result<(), Fail> {
    for sender in ROLES {
        for tag in TAGS {
            for length in LENGTHS {
                round_trip(&rt, Plane::Control, 0, sender, tag, length)?;
            }
            round_trip(&rt, Plane::User, 1, sender, tag, DataLength::One)?;
            round_trip(&rt, Plane::User, 2, sender, tag, DataLength::Two)?;
        }
    }
    Ok(())
}
