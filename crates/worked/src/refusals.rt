// What sealing and opening refuse, with the buffer as it was.
use crate::agreed::{header, protection, usual};
use bench_suite::Bench;
use framing::format::{DataLength, Protection, TagLength};
use message::open::open;
use message::seal::seal;
use refusal::{Fault, Refusal};
use std::process::Abort;
use std::test::Fail;
use suite::Suite;
use wire::front::Header;
use wire::parties::{Plane, Role};

fn not_opened<const N: usize>(
    rt: &impl Abort,
    p: Protection,
    message: [u8; N],
    refusal: Refusal,
    place: usize,
) {
    let mut buffer = message;
    assert_eq!(rt;
        open(&Bench, p, &mut buffer),
        Err(Fault::new(refusal, place))
    );
    assert_eq!(rt; buffer, message);
}

fn not_sealed(
    rt: &impl Abort,
    p: Protection,
    h: Header,
    content: &[u8],
    room: usize,
    refusal: Refusal,
) {
    let mut buffer = [0xEEu8; 3000];
    assert!(rt; room <= 3000);
    assert_eq!(rt;
        seal(&Bench, p, h, content, &mut buffer[0..room]),
        Err(Fault::new(refusal, 0))
    );
    for x in buffer {
        assert_eq!(rt; x, 0xEE);
    }
}

#[test]
fn an_altered_tag(rt: HostRuntime) {
    let last = [0x89, 0x01, 0x01, 0x34, 0x76, 0x7A, 0x12, 0x16, 0x50, 0x51];
    not_opened(&rt, usual(), last, Refusal::TagDiffers, 6);
    let first = [0x89, 0x01, 0x01, 0x34, 0x76, 0x7A, 0x92, 0x16, 0x50, 0x50];
    not_opened(&rt, usual(), first, Refusal::TagDiffers, 6);
}

#[test]
fn altered_octets(rt: HostRuntime) {
    let data = [0x89, 0x01, 0x01, 0x34, 0x77, 0x7A, 0x12, 0x16, 0x50, 0x50];
    not_opened(&rt, usual(), data, Refusal::TagDiffers, 6);
    let counter = [0x89, 0x02, 0x01, 0x34, 0x76, 0x7A, 0x12, 0x16, 0x50, 0x50];
    not_opened(&rt, usual(), counter, Refusal::TagDiffers, 6);
    let session = [0x89, 0x01, 0x02, 0x34, 0x76, 0x7A, 0x12, 0x16, 0x50, 0x50];
    not_opened(&rt, usual(), session, Refusal::TagDiffers, 6);
    let plane = [0x09, 0x01, 0x01, 0x34, 0x76, 0x7A, 0x12, 0x16, 0x50, 0x50];
    not_opened(&rt, usual(), plane, Refusal::TagDiffers, 6);
}

#[test]
fn the_wrong_sender(rt: HostRuntime) {
    let octets = [0x89, 0x01, 0x01, 0x34, 0x76, 0x7A, 0x12, 0x16, 0x50, 0x50];
    let p = protection(Role::Service, TagLength::Four, DataLength::One);
    not_opened(&rt, p, octets, Refusal::TagDiffers, 6);
}

// Messages that end in their bodies, on both planes; the last is one octet longer, and its tag is looked at.
#[test]
fn too_short(rt: HostRuntime) {
    not_opened(
        &rt,
        usual(),
        [0x89, 0x01, 0x01, 0, 0, 0, 0],
        Refusal::EndsInBody,
        7,
    );
    not_opened(
        &rt,
        usual(),
        [0x09, 0x01, 0x01, 0, 0, 0, 0],
        Refusal::EndsInBody,
        7,
    );
    let p = protection(Role::Logger, TagLength::Eight, DataLength::Two);
    not_opened(
        &rt,
        p,
        [0x89, 0x01, 0x01, 0, 0, 0, 0, 0, 0, 0, 0, 0],
        Refusal::EndsInBody,
        12,
    );
    not_opened(
        &rt,
        p,
        [0x09, 0x01, 0x01, 0, 0, 0, 0, 0, 0, 0, 0, 0],
        Refusal::TagDiffers,
        4,
    );
}

// Sealed by hand with a right tag and a Data Length of 3 for two octets of Data.
#[test]
fn a_wrong_data_length(rt: HostRuntime) {
    let p = usual();
    let inputs = p.inputs(header(Plane::User, 1, 1, 0x01));
    let mut octets = [0x89, 0x01, 0x01, 0x03, 0x41, 0x42, 0, 0, 0, 0];
    let tag = Bench.tag(p.keys, inputs, &octets[2..6]);
    octets[6..10].copy_from_slice(&tag[0..4]);
    Bench.encipher(p.keys, inputs, &mut octets[3..10]);
    not_opened(&rt, p, octets, Refusal::DataLengthDiffers, 3);
}

#[test]
fn values_out_of_range(rt: HostRuntime) {
    let p = usual();
    not_sealed(
        &rt,
        p,
        header(Plane::User, 0, 1, 0x01),
        &[0x41],
        64,
        Refusal::OutOfRange,
    );
    not_sealed(
        &rt,
        p,
        header(Plane::User, 8, 1, 0x01),
        &[0x41],
        64,
        Refusal::OutOfRange,
    );
    not_sealed(
        &rt,
        p,
        header(Plane::User, 1, 1, 0x00),
        &[0x41],
        64,
        Refusal::OutOfRange,
    );
    not_sealed(
        &rt,
        p,
        header(Plane::User, 1, 1, 0x81),
        &[0x41],
        64,
        Refusal::OutOfRange,
    );
    not_sealed(
        &rt,
        p,
        header(Plane::User, 1, 1, 0x8182),
        &[0x41],
        64,
        Refusal::OutOfRange,
    );
    not_sealed(
        &rt,
        p,
        header(Plane::User, 1, 1, 0x0101),
        &[0x41],
        64,
        Refusal::OutOfRange,
    );
    not_sealed(
        &rt,
        p,
        header(Plane::Control, 1, 1, 0x01),
        &[],
        64,
        Refusal::OutOfRange,
    );
}

#[test]
fn too_much_data(rt: HostRuntime) -> Result<(), Fail> {
    let data = [0x55u8; 2100];
    let h = header(Plane::User, 1, 1, 0x01);
    not_sealed(&rt, usual(), h, &data[0..256], 3000, Refusal::TooMuchData);
    let wide = protection(Role::Logger, TagLength::Four, DataLength::Two);
    not_sealed(&rt, wide, h, &data[0..2040], 3000, Refusal::TooMuchData);
    not_sealed(&rt, wide, h, &data[0..2040], 0, Refusal::TooMuchData);
    not_sealed(&rt, wide, h, &data[0..2039], 2047, Refusal::OutputTooSmall);
    let mut out = [0u8; 2048];
    assert_eq!(rt; seal(&Bench, wide, h, &data[0..2039], &mut out)?, 2048);
    assert_eq!(rt; seal(&Bench, usual(), h, &data[0..255], &mut out)?, 263);
    Ok(())
}
