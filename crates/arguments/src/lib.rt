// What a caller hands over, from raw numbers and octets to values that a session can have. What is out of its range is refused
// with 13.
#![tactic(auto)]

ghost use Rattle.std.specs.Prelude.{◌≡◌};
ghost use Rattle.arguments.specs.Arguments.{id_asked, key_asked, settings_asked, content_asked};

use commands::command::Command;
use framing::format::{DataLength, Format, TagLength};
use keys::id::KeyId;
use refusal::{Fault, RangeError};
use session::session::Settings;
use wire::id::SessionId;
use wire::parties::{Plane, Role};

// What a session is begun with, as its caller says it.
#[derive(Clone, Copy)]
pub struct RawSettings {
    // M
    pub tag: u64,
    // D
    pub length: u64,
    pub leap: u64,
}

// The ID that raw octets are. No more than `try_from` and `?`, like `key_id`: kept, since the calls of an end are defined by what these
// answer.
pub fn session_id(octets: &[u8]) -> Result<SessionId, Fault>
    ensures { result ≡ id_asked octets.now }
{
    Ok(SessionId::try_from(octets)?)
}

pub fn key_id(number: u64) -> Result<KeyId, Fault>
    ensures { result ≡ key_asked number }
{
    Ok(KeyId::try_from(number)?)
}

// The settings of a session, with a suite whose tags have `most` octets.
pub fn settings(role: Role, most: usize, raw: RawSettings) -> Result<Settings, Fault>
    ensures { result ≡ settings_asked role most raw }
{
    let tag = TagLength::try_from(raw.tag)?;
    let length = DataLength::try_from(raw.length)?;
    let leap = u32::try_from(raw.leap).map_err(|_| RangeError)?;
    if tag.octets() > most || leap < 1 {
        return Err(RangeError.into());
    }
    Ok(Settings {
        role,
        format: Format { tag, length },
        leap,
    })
}

// Whether content can be sealed on a plane: a control message begins with a command of the list.
pub fn content(plane: Plane, octets: &[u8]) -> Result<(), Fault>
    ensures { result ≡ content_asked plane octets.now }
{
    match plane {
        Plane::User => Ok(()),
        Plane::Control => {
            let first = octets.first().ok_or(RangeError)?;
            Command::try_from(*first)?;
            Ok(())
        }
    }
}
