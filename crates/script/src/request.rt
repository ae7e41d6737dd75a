// The request that a line makes.
ghost use Rattle.std.specs.Prelude.{◌≡◌, [], ◌∷◌, length, map, IfOk};
ghost use Rattle.std.specs.Option.{option_map};
ghost use Rattle.script.specs.Asked.{asked, asked_line};
ghost use Rattle.script.specs.Pieces.{fields_of};
ghost use Rattle.script.specs.Requests.{key_read, begin_read, request_with, request_read, line_read};
ghost use Rattle.script.specs.Words.{field_count};

use crate::digits::{read_number, read_octet, read_octets};
use crate::fields::{Fields, field};
use crate::words::{Side, Verb, side_of, verb_of};
use std::alloc::{AllocError, Global};

// The octets of the longest line.
pub const LONGEST_LINE: usize = 4608;

// A key as a line gives it: its Key ID, and one octet for each of its two keys, which is meant sixteen times.
#[derive(Clone, Copy, PartialEq, Eq, Debug)]
pub struct KeyFields {
    pub key: u64,
    pub integrity: u8,
    pub encryption: u8,
}

// What a session begins with: a type of its own, since a script knows nothing of ends.
#[derive(Clone, Copy, PartialEq, Eq, Debug)]
pub struct BeginFields {
    // M.
    pub tag: u64,
    // D.
    pub length: u64,
    // How far a counter may be above the last accepted.
    pub leap: u64,
    pub key: KeyFields,
}

// What a line asks for. The first octets are the Session ID, but of Hear, which has only a message.
#[derive(PartialEq, Eq, Debug, Drop)]
pub enum Request {
    Begin(Vec<u8>, BeginFields),
    Give(Vec<u8>, KeyFields),
    Choose(Vec<u8>, u64),
    Drop(Vec<u8>, u64),
    Data(Vec<u8>, Vec<u8>),
    Command(Vec<u8>, Vec<u8>),
    Report(Vec<u8>),
    End(Vec<u8>),
    Hear(Vec<u8>),
}

#[derive(PartialEq, Eq, Debug, Drop)]
pub struct Line {
    pub side: Side,
    pub request: Request,
}

// A key from the three fields that give it.
fn read_key(key: &[u8], integrity: &[u8], encryption: &[u8]) -> Option<KeyFields>
    ensures { result ≡ key_read (key.now ∷ integrity.now ∷ encryption.now ∷ []) 0 }
{
    Some(KeyFields {
        key: read_number(key)?,
        integrity: read_octet(integrity)?,
        encryption: read_octet(encryption)?,
    })
}

fn read_begin(fields: &[&[u8]]) -> Option<BeginFields>
    requires { length fields.now ≡ field_count Verb.Begin }
    ensures { result ≡ begin_read (map (λ field. field.now) fields.now) }
{
    Some(BeginFields {
        tag: read_number(fields[3])?,
        length: read_number(fields[4])?,
        leap: read_number(fields[5])?,
        key: read_key(fields[6], fields[7], fields[8])?,
    })
}

// What a verb asks for with its first octets and the fields of its line. By places: how many fields there are was tested by the verb.
fn request_with(
    heap: Global,
    verb: Verb,
    first: Vec<u8>,
    fields: &[&[u8]],
) -> Result<Option<Request>, AllocError>
    requires { length fields.now ≡ field_count verb }
    ensures { IfOk result (λ o. option_map asked o ≡ request_with verb first.items (map (λ field. field.now) fields.now)) }
{
    match verb {
        Verb::Begin => Ok(read_begin(fields).map(|begin| Request::Begin(first, begin))),
        Verb::Give => {
            let key = read_key(fields[3], fields[4], fields[5]);
            Ok(key.map(|key| Request::Give(first, key)))
        }
        Verb::Choose => Ok(read_number(fields[3]).map(|key| Request::Choose(first, key))),
        Verb::Drop => Ok(read_number(fields[3]).map(|key| Request::Drop(first, key))),
        // Alike but for what they make, as Choose and Drop are: one arm for both would have to ask for the verb again.
        Verb::Data => {
            let content = read_octets(heap, fields[3])?;
            Ok(content.map(|content| Request::Data(first, content)))
        }
        Verb::Command => {
            let content = read_octets(heap, fields[3])?;
            Ok(content.map(|content| Request::Command(first, content)))
        }
        Verb::Report => Ok(Some(Request::Report(first))),
        Verb::End => Ok(Some(Request::End(first))),
        Verb::Hear => Ok(Some(Request::Hear(first))),
    }
}

// The verb is looked at before the line is cut, so that a line with a bad one is not read to its end.
fn read_request(heap: Global, line: &[u8]) -> Result<Option<Request>, AllocError>
    ensures { IfOk result (λ o. option_map asked o ≡ request_read (fields_of line.now)) }
{
    let Some(verb) = verb_of(field(line, 1)) else {
        return Ok(None);
    };
    let Some(fields) = Fields::of(line) else {
        return Ok(None);
    };
    let fields = fields.as_slice();
    let [_, _, first, ..] = fields else {
        return Ok(None);
    };
    if fields.len() != verb.field_count() {
        return Ok(None);
    }
    match read_octets(heap, first)? {
        Some(first) => request_with(heap, verb, first, fields),
        None => Ok(None),
    }
}

// Reads a line without its newline; None if it is bad. That is an answer, to be told as one, and no error, so it stands beside the error
// of memory and is passed on by `let else` or `match`, here and wherever a part of a line is read.
pub fn read_line(heap: Global, line: &[u8]) -> Result<Option<Line>, AllocError>
    ensures { IfOk result (λ o. option_map asked_line o ≡ line_read line.now) }
{
    if line.len() > LONGEST_LINE {
        return Ok(None);
    }
    let Some(side) = side_of(field(line, 0)) else {
        return Ok(None);
    };
    let request = read_request(heap, line)?;
    Ok(request.map(|request| Line { side, request }))
}
