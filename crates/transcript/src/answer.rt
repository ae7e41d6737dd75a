// Answers to the lines of a script.
ghost use Rattle.std.specs.Prelude.{◌≡◌, ◌++◌, is_ok, if◌then◌else◌, Some, string_bytes};
ghost use Rattle.transcript.specs.Outcomes.{counts_text, heard_text, message_of, text_of, outcome_of, line_of};

use refusal::Fault;
use std::alloc::AllocError;
use std::fmt;
use wire::hex::Hex;
use wire::parties::Plane;

// A message that was accepted. Its ID is any octets, so that a transcript can tell those that are none.
#[derive(Clone, Copy, PartialEq, Eq, Debug)]
pub struct Message<'a> {
    pub id: &'a [u8],
    pub plane: Plane,
    pub key: u8,
    pub counter: u32,
    pub content: &'a [u8],
}

// What was counted on one plane, as an end reports it: a type of its own, since a transcript knows nothing of ends.
#[derive(Clone, Copy, PartialEq, Eq, Debug)]
pub struct Counts {
    pub sealed: u32,
    pub accepted: u32,
    pub missed: u32,
}

// The answer to one line.
#[derive(Clone, Copy, PartialEq, Eq, Debug)]
pub enum Answer<'a> {
    // The line is bad.
    Bad,
    // Done, with nothing more to say.
    Done,
    // Let pass, and nothing has changed.
    Ignored,
    // The octets of a sealed message.
    Sealed(&'a [u8]),
    // What an accepted message says.
    Heard(Message<'a>),
    // The counts of the control plane and of the user plane.
    Counted(Counts, Counts),
    Refused(Fault),
}

impl fmt::Display for Counts {
    ghost output = { λ c. Some (counts_text c) };

    fn fmt<W: fmt::Write>(&self, f: &mut fmt::Formatter<W>) -> fmt::Result {
        let Counts {
            sealed,
            accepted,
            missed,
        } = *self;
        write!(f, "{sealed},{accepted},{missed}")
    }
}

impl fmt::Display for Message<'_> {
    ghost output = { λ m. Some (heard_text (message_of m)) };

    fn fmt<W: fmt::Write>(&self, f: &mut fmt::Formatter<W>) -> fmt::Result {
        let id = Hex { octets: self.id };
        let Message {
            plane,
            key,
            counter,
            ..
        } = *self;
        let content = Hex {
            octets: self.content,
        };
        write!(f, "{id},{plane},{key},{counter},{content}")
    }
}

impl fmt::Display for Answer<'_> {
    ghost output = { λ a. Some (text_of (outcome_of a)) };

    fn fmt<W: fmt::Write>(&self, f: &mut fmt::Formatter<W>) -> fmt::Result {
        match *self {
            Answer::Bad => write!(f, "bad"),
            Answer::Done => write!(f, "ok"),
            Answer::Ignored => write!(f, "ignored"),
            Answer::Sealed(octets) => {
                let message = Hex { octets };
                write!(f, "ok,{message}")
            }
            Answer::Heard(message) => write!(f, "ok,{message}"),
            Answer::Counted(control, user) => write!(f, "ok,{control},{user}"),
            Answer::Refused(fault) => {
                let number = fault.refusal.number();
                let layer = fault.layer;
                let place = fault.place;
                write!(f, "no,{number},{layer},{place}")
            }
        }
    }
}

// Appends the line that tells an answer. Where there is no memory for it, nothing is appended.
pub fn append_line(out: &mut String, number: usize, answer: Answer<'_>) -> Result<(), AllocError>
    ensures { string_bytes out.new ≡ (if is_ok result then string_bytes out.old ++ line_of number (outcome_of answer.entry) else string_bytes out.old) }
{
    let heap = *out.allocator();
    let line = format!(in heap; "{number},{answer}\n")?;
    out.push_str(&line)
}
