// Where the parts of a message stand in its buffer.
ghost use Rattle.std.specs.Prelude.{◌≡◌};
ghost use Rattle.framing.specs.Formats.{least_of};
ghost use Rattle.framing.specs.Layouts.{data_fits, planned, located, LaidIn, OrderedIn};
ghost use Rattle.wire.specs.Fronts.{Within};

use crate::format::Format;
use octets::width;
use refusal::{Fault, Refusal};
use wire::front::{Front, Header, LONGEST_MESSAGE};
use wire::parties::Plane;

// The Session ID stands at `from`, the Data Length, if any, at `to`, the content at `content`, and the tag from `tag` to `end`.
#[derive(Clone, Copy)]
pub struct Layout {
    pub from: usize,
    pub to: usize,
    pub content: usize,
    pub tag: usize,
    pub end: usize,
}

impl Format {
    fn data_fits(self, plane: Plane, len: usize) -> bool
        ensures { result ≡ data_fits self plane len }
    {
        match plane {
            Plane::Control => true,
            Plane::User => len < 1 << (8 * self.length.octets()),
        }
    }

    // The fewest octets that stand between a Session ID and a tag.
    fn least(self, plane: Plane) -> usize
        ensures { result ≡ least_of self plane }
    {
        match plane {
            Plane::Control => 1,
            Plane::User => self.length.octets(),
        }
    }

    // The places of a message that is to be written, if it is not too long and there is room for it.
    pub fn plan(self, header: Header, len: usize, room: usize) -> Result<Layout, Fault>
        ensures value { result ≡ planned self header len room }
        ensures laid { LaidIn self header len room result }
    {
        if !self.data_fits(header.plane, len) {
            return Err(Fault::new(Refusal::TooMuchData, 0));
        }
        if len > LONGEST_MESSAGE {
            return Err(Fault::new(Refusal::TooMuchData, 0));
        }
        let to = header.length();
        let content = to + self.lead(header.plane);
        let tag = content + len;
        let end = tag + self.tag.octets();
        if end > LONGEST_MESSAGE {
            return Err(Fault::new(Refusal::TooMuchData, 0));
        }
        if end > room {
            return Err(Fault::new(Refusal::OutputTooSmall, 0));
        }
        let from = 1 + width(header.counter);
        Ok(Layout {
            from,
            to,
            content,
            tag,
            end,
        })
    }

    // The places of a message of `len` octets whose front was read, if it is long enough for its body.
    pub fn locate(self, front: Front, len: usize) -> Result<Layout, Fault>
        requires within { Within front len }
        ensures value { result ≡ located self front len }
        ensures ordered { OrderedIn len result }
    {
        let plane = front.header.plane;
        if len < front.to + self.least(plane) + self.tag.octets() {
            return Err(Fault::new(Refusal::EndsInBody, len));
        }
        Ok(Layout {
            from: front.from,
            to: front.to,
            content: front.to + self.lead(plane),
            tag: len - self.tag.octets(),
            end: len,
        })
    }
}
