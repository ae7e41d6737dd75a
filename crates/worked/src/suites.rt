// Messages of the AES suite and of the clear suite; their octets were reckoned with OpenSSL (tools/message_vectors.py does it again).
use crate::agreed::{header, protection, usual, worked};
use aes_suite::{Aes, Clear};
use framing::format::{DataLength, TagLength};
use message::open::open;
use message::seal::seal;
use refusal::{Fault, Refusal};
use std::test::Fail;
use wire::parties::{Plane, Role};

#[test]
fn the_level_with_aes(rt: HostRuntime) -> Result<(), Fail> {
    let octets = [0x89, 0x01, 0x01, 0x11, 0xA0, 0xC8, 0x61, 0xE2, 0x92, 0x6B];
    worked(
        &rt,
        &Aes,
        usual(),
        header(Plane::User, 1, 1, 0x01),
        &[0x41, 0x42],
        &octets,
    )
}

#[test]
fn the_level_in_clear(rt: HostRuntime) -> Result<(), Fail> {
    let octets = [0x89, 0x01, 0x01, 0x02, 0x41, 0x42, 0x61, 0xB2, 0x92, 0xEC];
    worked(
        &rt,
        &Clear,
        usual(),
        header(Plane::User, 1, 1, 0x01),
        &[0x41, 0x42],
        &octets,
    )
}

#[test]
fn manage_keys_with_aes(rt: HostRuntime) -> Result<(), Fail> {
    let p = protection(Role::Service, TagLength::Four, DataLength::Two);
    let octets = [
        0x3A, 0x01, 0x00, 0xF4, 0x69, 0xE9, 0x1C, 0x5E, 0x12, 0xA7, 0x40, 0x0A, 0x6A,
    ];
    worked(
        &rt,
        &Aes,
        p,
        header(Plane::Control, 7, 256, 0xF469),
        &[0x40, 0x09, 0x01, 0x82],
        &octets,
    )
}

// The tags of these suites have four octets, so no message can have a longer one.
#[test]
fn tags_longer_than_the_suite_has(rt: HostRuntime) {
    let p = protection(Role::Logger, TagLength::Eight, DataLength::One);
    let h = header(Plane::User, 1, 1, 0x01);
    let mut buffer = [0xEEu8; 20];
    let refused = Fault::new(Refusal::OutOfRange, 0);
    assert_eq!(rt; seal(&Aes, p, h, &[0x41], &mut buffer), Err(refused));
    assert_eq!(rt; open(&Clear, p, &mut buffer), Err(refused));
    assert_eq!(rt; buffer, [0xEEu8; 20]);
}
