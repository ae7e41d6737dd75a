// What a terminate or manage-keys request asks for.
ghost use Rattle.std.specs.Prelude.{◌≡◌};
ghost use Rattle.std.specs.Option.{ok_or};
ghost use Rattle.refusal.specs.Refusals.{range_error};
ghost use Rattle.commands.specs.Requests.{action_of, management_in, agreement_in, added, updated, asked_by, key_request, request_in};

use crate::command::Command;
use keys::id::KeyId;
use refusal::RangeError;

// What is to be done with a key, by the action bits of Key Management.
#[derive(Clone, Copy, PartialEq, Eq, Debug)]
pub enum KeyAction {
    Add = 1,
    Delete = 2,
    Update = 3,
}

// The octet of Key Management, taken apart.
#[derive(Clone, Copy)]
struct Management {
    action: KeyAction,
    key: KeyId,
}

// What a request asks the end that hears it to do.
#[derive(Clone, Copy, PartialEq, Eq, Debug)]
pub enum Request {
    Terminate,
    // Gives a key under this Key ID.
    Add(KeyId),
    // Swaps the first in for the second.
    Update(KeyId, KeyId),
    Delete(KeyId),
    // A manage-keys request whose options are not those of its action.
    Senseless,
}

// A list of its own and no generic search: a trait with all values and their numbers would say each list again.
impl TryFrom<u8> for KeyAction {
    type Error = RangeError;

    ghost try_from_gives = { λ bits r. r ≡ ok_or (action_of bits) range_error };

    fn try_from(bits: u8) -> Result<KeyAction, RangeError> {
        match bits {
            1 => Ok(KeyAction::Add),
            2 => Ok(KeyAction::Delete),
            3 => Ok(KeyAction::Update),
            _ => Err(RangeError),
        }
    }
}

// Two action bits, three zero bits, a Key ID.
fn management_in(octet: u8) -> Option<Management>
    ensures { result ≡ management_in octet }
{
    if octet / 8 % 8 != 0 {
        return None;
    }
    let action = KeyAction::try_from(octet / 64).ok()?;
    let key = KeyId::try_from((octet % 8) as u64).ok()?;
    Some(Management { action, key })
}

// The Key ID of Key Agreement, which has to be all that is left: a confirm bit, four zero bits, the Key ID, and 35 octets that are
// not read.
fn agreement_in(options: &[u8]) -> Option<KeyId>
    ensures { result ≡ agreement_in options.now }
{
    match options {
        [5, 36, octet, unread @ ..] if unread.len() == 35 && octet / 8 % 16 == 0 => KeyId::try_from(
            (octet % 8) as u64,
        ).ok(),
        _ => None,
    }
}

fn added(new: Option<KeyId>) -> Request
    ensures { result ≡ added new }
{
    new.map_or(Request::Senseless, Request::Add)
}

fn updated(old: KeyId, new: Option<KeyId>) -> Request
    ensures { result ≡ updated old new }
{
    new.map_or(Request::Senseless, |new| Request::Update(new, old))
}

// What Key Management asks for, given the options behind it.
fn asked(management: Management, rest: &[u8]) -> Request
    ensures { result ≡ asked_by management.action management.key rest.now }
{
    match management.action {
        KeyAction::Add => added(agreement_in(rest)),
        KeyAction::Update => updated(management.key, agreement_in(rest)),
        KeyAction::Delete => {
            if rest.is_empty() {
                Request::Delete(management.key)
            } else {
                Request::Senseless
            }
        }
    }
}

// What the options of a manage-keys request ask for: Key Management, and behind it Key Agreement unless a key is deleted.
fn key_request(options: &[u8]) -> Request
    ensures { result ≡ key_request options.now }
{
    let [9, 1, octet, rest @ ..] = options else {
        return Request::Senseless;
    };
    management_in(*octet).map_or(Request::Senseless, |management| asked(management, rest))
}

// What the content of a control message asks for; none where it is no request, or one that needs no doing.
pub fn request_in(content: &[u8]) -> Option<Request>
    ensures { result ≡ request_in content.now }
{
    let [command, options @ ..] = content else {
        return None;
    };
    match Command::try_from(*command) {
        Ok(Command::TerminateRequest) => Some(Request::Terminate),
        Ok(Command::ManageKeysRequest) => Some(key_request(options)),
        _ => None,
    }
}
