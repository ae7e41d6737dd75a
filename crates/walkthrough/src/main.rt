// One reading on its way: sealed by the logger, opened by the service, and refused where it was altered.
#![tactic(auto)]

ghost use Rattle.std.specs.Prelude.{◌≡◌};
ghost use Rattle.framing.specs.declared.format.DataLength.TheVariants.{One};
ghost use Rattle.framing.specs.declared.format.TagLength.TheVariants.{Four};
ghost use Rattle.wire.specs.declared.parties.Role.TheVariants.{Logger};

use bench_suite::Bench;
use framing::format::{DataLength, Format, Protection, TagLength};
use loopback::loopback;
use message::open::open;
use message::seal::seal;
use std::io;
use suite::Keyset;
use wire::front::Header;
use wire::id::SessionId;
use wire::parties::{Plane, Role};

// The level, in millimetres, that the logger reports.
const LEVEL: u16 = 0x4142;

// A terminate request, without options.
const TERMINATE: [u8; 1] = [0x30];

// What logger and service agreed on for what the logger sends.
fn agreed() -> Protection
    ensures sender { result.sender ≡ Logger }
    ensures format { result.format ≡ record { tag = Four; length = One } }
{
    Protection {
        keys: Keyset::of_octets(0x10, 0x20),
        sender: Role::Logger,
        format: Format {
            tag: TagLength::Four,
            length: DataLength::One,
        },
    }
}

// The header of the logger's first message on a plane.
fn first(plane: Plane) -> Header
    ensures { result ≡ record { plane = plane; key = 1; counter = 1; id = record { number = 1 } } }
{
    Header {
        plane,
        key: 1,
        counter: 1,
        id: SessionId { number: 0x01 },
    }
}

fn print_octets(rt: &HostRuntime, title: &str, octets: &[u8]) -> io::Result<()> {
    print!(rt; "{title}:")?;
    for x in octets {
        print!(rt; " {x:02X}")?;
    }
    println!(rt; "")
}

fn print_header(rt: &HostRuntime, title: &str, header: Header) -> io::Result<()> {
    let Header {
        plane,
        key,
        counter,
        id,
    } = header;
    println!(rt; "{title}: {plane} plane, session {id}, key {key}, counter {counter}")
}

// Opens a message as the service, and prints what it says.
fn receive(rt: &HostRuntime, message: &mut [u8]) -> io::Result<()> {
    match open(&Bench, agreed(), message) {
        Ok(opened) => {
            print_header(rt, "service accepts", opened.header)?;
            let (start, end) = (opened.place, opened.place + opened.length);
            print_octets(rt, "content", &message[start..end])
        }
        Err(fault) => println!(rt; "service refuses: {fault}"),
    }
}

// Seals the level as the logger, and carries it to the service, altered or not: a flag, since a function that alters it would be no
// plainer.
fn report_level(rt: &HostRuntime, altered: bool) -> io::Result<()> {
    let mut buffer = [0u8; 32];
    match seal(
        &Bench,
        agreed(),
        first(Plane::User),
        &LEVEL.to_be_bytes(),
        &mut buffer,
    ) {
        Ok(n) => {
            if altered && n > 0 {
                buffer[n - 1] ^= 1;
            }
            print_octets(rt, "message", &buffer[0..n])?;
            receive(rt, &mut buffer[0..n])
        }
        Err(fault) => println!(rt; "logger refuses: {fault}"),
    }
}

// Seals a terminate request and opens it in the same buffer.
fn terminate(rt: &HostRuntime) -> io::Result<()> {
    let mut buffer = [0u8; 32];
    match loopback(
        &Bench,
        agreed(),
        first(Plane::Control),
        &TERMINATE,
        &mut buffer,
    ) {
        Ok(opened) => print_header(rt, "loopback accepts", opened.header),
        Err(fault) => println!(rt; "loopback refuses: {fault}"),
    }
}

fn main(rt: HostRuntime) -> io::Result<()> {
    println!(rt; "logger seals a level of {LEVEL} mm")?;
    report_level(&rt, false)?;
    println!(rt; "the same message with its last octet altered")?;
    report_level(&rt, true)?;
    println!(rt; "a terminate request, sealed and opened in one buffer")?;
    terminate(&rt)
}
