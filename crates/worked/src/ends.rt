// Two ends with the AES suite, and what requests ask for.
use aes_suite::Aes;
use arguments::RawSettings;
use commands::request::{Request, request_in};
use endpoint::end::Endpoint;
use endpoint::order::Heard;
use keys::id::KeyId;
use refusal::{Fault, Refusal};
use std::test::Fail;
use store::store::SessionStore;
use stores::one_place::OnePlace;
use suite::{Keyset, Suite};
use wire::parties::{Plane, Role};

const ID: [u8; 2] = [0xF4, 0x69];

// A manage-keys request with Key Management, and with Key Agreement of this length and octet.
fn manage(management: u8, agreement: u8, length: u8) -> [u8; 42] {
    let mut content = [0u8; 42];
    content[..7].copy_from_slice(&[0x40, 9, 1, management, 5, length, agreement]);
    content
}

#[test]
fn manage_keys_requests(rt: HostRuntime) {
    assert_eq!(rt;
        request_in(&manage(0x41, 0x02, 36)),
        Some(Request::Add(KeyId::Two))
    );
    assert_eq!(rt;
        request_in(&manage(0xC1, 0x82, 36)),
        Some(Request::Update(KeyId::Two, KeyId::One))
    );
    assert_eq!(rt;
        request_in(&manage(0x83, 0x02, 36)[0..4]),
        Some(Request::Delete(KeyId::Three))
    );
    // Key Agreement behind a delete, none behind an update, a length that is not its own, an octet too few
    assert_eq!(rt;
        request_in(&manage(0x83, 0x02, 36)),
        Some(Request::Senseless)
    );
    assert_eq!(rt;
        request_in(&manage(0xC1, 0x02, 36)[0..4]),
        Some(Request::Senseless)
    );
    assert_eq!(rt;
        request_in(&manage(0x41, 0x02, 35)),
        Some(Request::Senseless)
    );
    assert_eq!(rt;
        request_in(&manage(0x41, 0x02, 36)[0..41]),
        Some(Request::Senseless)
    );
}

#[test]
fn senseless_bits(rt: HostRuntime) {
    // Key ID 0 in either option, a zero bit set in either, no action
    assert_eq!(rt;
        request_in(&manage(0x40, 0x02, 36)),
        Some(Request::Senseless)
    );
    assert_eq!(rt;
        request_in(&manage(0x41, 0x80, 36)),
        Some(Request::Senseless)
    );
    assert_eq!(rt;
        request_in(&manage(0x49, 0x02, 36)),
        Some(Request::Senseless)
    );
    assert_eq!(rt;
        request_in(&manage(0x41, 0x0A, 36)),
        Some(Request::Senseless)
    );
    assert_eq!(rt;
        request_in(&manage(0x01, 0x02, 36)),
        Some(Request::Senseless)
    );
}

#[test]
fn other_contents(rt: HostRuntime) {
    assert_eq!(rt; request_in(&[0x30]), Some(Request::Terminate));
    assert_eq!(rt; request_in(&[0x30, 1, 0]), Some(Request::Terminate));
    assert_eq!(rt; request_in(&[0x40]), Some(Request::Senseless));
    assert_eq!(rt; request_in(&[0x41]), None);
    assert_eq!(rt; request_in(&[0x99]), None);
    assert_eq!(rt; request_in(&[]), None);
}

fn begin<S: SessionStore, C: Suite>(end: &mut Endpoint<S, C>, tag: u64) -> Result<(), Fault> {
    let raw = RawSettings {
        tag,
        length: 1,
        leap: 2,
    };
    let keyset = Keyset {
        integrity0: 1,
        integrity1: 2,
        encryption0: 3,
        encryption1: 4,
    };
    end.begin(&ID, raw, 1, keyset)
}

fn asked_by(heard: Heard) -> Option<Request> {
    heard.order.map(|order| order.request())
}

#[test]
fn a_terminate_request_with_aes(rt: HostRuntime) -> Result<(), Fail> {
    let mut logger = Endpoint::new(Role::Logger, OnePlace::new(), Aes);
    let mut service = Endpoint::new(Role::Service, OnePlace::new(), Aes);
    assert_eq!(rt;
        begin(&mut logger, 8),
        Err(Fault::new(Refusal::OutOfRange, 0))
    );
    begin(&mut logger, 4)?;
    begin(&mut service, 4)?;
    let mut buffer = [0xEEu8; 9];
    // first octet, counter, two octets of ID, command and tag
    assert_eq!(rt;
        service.seal(Plane::Control, &ID, &[0x30], &mut buffer[0..8]),
        Err(Fault::new(Refusal::OutputTooSmall, 0))
    );
    assert_eq!(rt; buffer, [0xEEu8; 9]);
    assert_eq!(rt; service.seal(Plane::Control, &ID, &[0x30], &mut buffer)?, 9);
    let sealed = buffer;
    buffer[8] ^= 1;
    let altered = buffer;
    assert_eq!(rt;
        logger.hear(&mut buffer).err(),
        Some(Fault::new(Refusal::TagDiffers, 5))
    );
    assert_eq!(rt; buffer, altered);
    buffer = sealed;
    assert_eq!(rt;
        asked_by(logger.hear(&mut buffer)?),
        Some(Request::Terminate)
    );
    assert_eq!(rt; buffer[4], 0x30);
    Ok(())
}
