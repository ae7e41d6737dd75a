// Whole messages, reckoned by hand from the rules (tools/message_vectors.py does it again).
use crate::agreed::{header, protection, usual, worked};
use bench_suite::Bench;
use framing::format::{DataLength, TagLength};
use message::open::open;
use std::test::Fail;
use wire::parties::{Plane, Role};

#[test]
fn the_level(rt: HostRuntime) -> Result<(), Fail> {
    let octets = [0x89, 0x01, 0x01, 0x34, 0x76, 0x7A, 0x12, 0x16, 0x50, 0x50];
    worked(
        &rt,
        &Bench,
        usual(),
        header(Plane::User, 1, 1, 0x01),
        &[0x41, 0x42],
        &octets,
    )
}

#[test]
fn a_terminate_request(rt: HostRuntime) -> Result<(), Fail> {
    let octets = [0x09, 0x01, 0x01, 0x11, 0x36, 0x60, 0x37, 0x36];
    worked(
        &rt,
        &Bench,
        usual(),
        header(Plane::Control, 1, 1, 0x01),
        &[0x30],
        &octets,
    )
}

// A counter of 255 is FF.
#[test]
fn counter_255(rt: HostRuntime) -> Result<(), Fail> {
    let p = protection(Role::Service, TagLength::Eight, DataLength::Two);
    let octets = [
        0xB9, 0xFF, 0xF4, 0x69, 0x35, 0x34, 0x76, 0x7A, 0x26, 0xAE, 0x10, 0x11, 0x51, 0x53, 0x14,
        0x6B,
    ];
    worked(
        &rt,
        &Bench,
        p,
        header(Plane::User, 7, 255, 0xF469),
        &[0x41, 0x42],
        &octets,
    )
}

// A counter of 256 is 01 00, with length bits 010.
#[test]
fn counter_256(rt: HostRuntime) -> Result<(), Fail> {
    let p = protection(Role::Service, TagLength::Eight, DataLength::Two);
    let octets = [
        0xBA, 0x01, 0x00, 0xF4, 0x69, 0x36, 0x35, 0x79, 0x7B, 0x1A, 0xAE, 0x10, 0x13, 0x53, 0x51,
        0x6C, 0x6D,
    ];
    worked(
        &rt,
        &Bench,
        p,
        header(Plane::User, 7, 256, 0xF469),
        &[0x41, 0x42],
        &octets,
    )
}

#[test]
fn counter_0(rt: HostRuntime) -> Result<(), Fail> {
    let p = protection(Role::Service, TagLength::Sixteen, DataLength::Two);
    let octets = [
        0x19, 0x00, 0x82, 0xA5, 0x7F, 0x61, 0x2B, 0x22, 0xA6, 0xBF, 0x9B, 0xB0, 0x70, 0x08, 0x33,
        0xB1, 0x34, 0x35, 0x36, 0x37, 0x28, 0x29, 0x2A, 0x2B, 0x2C,
    ];
    worked(
        &rt,
        &Bench,
        p,
        header(Plane::Control, 3, 0, 0x82A57F),
        &[0x40, 0x09, 0x01, 0x82],
        &octets,
    )
}

#[test]
fn counter_4294967295(rt: HostRuntime) -> Result<(), Fail> {
    let p = protection(Role::Logger, TagLength::Twelve, DataLength::One);
    let octets = [
        0x94, 0xFF, 0xFF, 0xFF, 0xFF, 0x82, 0xA5, 0x7F, 0x34, 0x9F, 0xFB, 0x90, 0x10, 0x11, 0x12,
        0x13, 0x14, 0x15, 0x16, 0x17, 0x68,
    ];
    worked(
        &rt,
        &Bench,
        p,
        header(Plane::User, 2, 4_294_967_295, 0x82A57F),
        &[],
        &octets,
    )
}

// The level again, its counter written in four octets: a reader takes the zeros.
#[test]
fn leading_zeros_are_read(rt: HostRuntime) -> Result<(), Fail> {
    let mut octets = [
        0x8C, 0x00, 0x00, 0x00, 0x01, 0x01, 0x34, 0x76, 0x7A, 0x12, 0x16, 0x50, 0x50,
    ];
    let opened = open(&Bench, usual(), &mut octets)?;
    assert_eq!(rt; opened.header, header(Plane::User, 1, 1, 0x01));
    assert_eq!(rt; opened.place, 7);
    assert_eq!(rt; opened.length, 2);
    assert_eq!(rt; octets[7], 0x41);
    assert_eq!(rt; octets[8], 0x42);
    Ok(())
}
