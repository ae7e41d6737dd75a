// Fronts read and refused: each field at its place.
use refusal::{Fault, RangeError, Refusal};
use std::process::Abort;
use std::test::Fail;
use wire::front::read_front;
use wire::id::SessionId;

fn refused(rt: &impl Abort, message: &[u8], refusal: Refusal, place: usize) {
    assert_eq!(rt; read_front(message), Err(Fault::new(refusal, place)));
}

fn id_read(
    rt: &impl Abort,
    message: &[u8],
    number: u32,
    from: usize,
    to: usize,
) -> Result<(), Fail> {
    let front = read_front(message)?;
    assert_eq!(rt; front.header.id.number, number);
    assert_eq!(rt; front.from, from);
    assert_eq!(rt; front.to, to);
    Ok(())
}

#[test]
fn ids_are_read_whole(rt: HostRuntime) -> Result<(), Fail> {
    id_read(&rt, &[0x89, 0x01, 0x01], 0x01, 2, 3)?;
    id_read(&rt, &[0x89, 0x01, 0xF4, 0x69], 0xF469, 2, 4)?;
    id_read(
        &rt,
        &[0x8A, 0x00, 0x01, 0x82, 0xA5, 0x7F, 0xFF],
        0x82A57F,
        3,
        6,
    )?;
    id_read(&rt, &[0x89, 0x01, 0x81, 0x82, 0x83, 0x04], 0x81828304, 2, 6)
}

#[test]
fn ids_that_are_none(rt: HostRuntime) {
    refused(
        &rt,
        &[0x89, 0x01, 0x81, 0x82, 0x83, 0x84],
        Refusal::NotASessionId,
        2,
    );
    refused(
        &rt,
        &[0x8C, 0x00, 0x00, 0x00, 0x01, 0x81, 0x82, 0x83, 0x84, 0x05],
        Refusal::NotASessionId,
        5,
    );
    refused(&rt, &[0x89, 0x01, 0x00], Refusal::NotASessionId, 2);
}

fn id(octets: &[u8]) -> Result<SessionId, RangeError> {
    SessionId::try_from(octets)
}

#[test]
fn ids_of_callers(rt: HostRuntime) {
    assert_eq!(rt; id(&[0xF4, 0x69]), Ok(SessionId { number: 0xF469 }));
    assert_eq!(rt; id(&[0x80, 0x00]), Ok(SessionId { number: 0x8000 }));
    assert_eq!(rt; id(&[0x81, 0x82, 0x83, 0x84]), Err(RangeError));
    assert_eq!(rt; id(&[0x01, 0x01]), Err(RangeError));
    assert_eq!(rt; id(&[0x81]), Err(RangeError));
    assert_eq!(rt; id(&[0x00]), Err(RangeError));
    assert_eq!(rt; id(&[]), Err(RangeError));
}

#[test]
fn fields_in_order(rt: HostRuntime) {
    refused(&rt, &[], Refusal::EndsInHeader, 0);
    refused(&rt, &[0xC0], Refusal::ReservedBitSet, 0);
    refused(&rt, &[0x88, 0x01, 0x01], Refusal::CounterLength, 0);
    refused(&rt, &[0x8D, 0, 0, 0, 0, 1, 1], Refusal::CounterLength, 0);
    refused(&rt, &[0x8A, 0x01], Refusal::EndsInHeader, 2);
    refused(&rt, &[0x89, 0x01], Refusal::EndsInHeader, 2);
    refused(&rt, &[0x89, 0x01, 0x81, 0x82], Refusal::EndsInHeader, 4);
}

#[test]
fn the_longest_message(rt: HostRuntime) -> Result<(), Fail> {
    let mut octets = [0x01u8; 2049];
    refused(&rt, &octets, Refusal::MessageTooLong, 0);
    id_read(&rt, &octets[0..2048], 0x01, 2, 3)?;
    octets[0] = 0x41;
    refused(&rt, &octets, Refusal::MessageTooLong, 0);
    Ok(())
}
