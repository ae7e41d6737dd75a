// What an accepted message says, and what it orders.
ghost use Rattle.std.specs.Prelude.{◌≡◌, ◌+◌, ◌≤◌, length};
ghost use Rattle.endpoint.specs.Orders.{order_in, heard_of};

use commands::request::{Request, request_in};
use message::open::Opened;
use wire::front::Header;
use wire::id::SessionId;
use wire::parties::Plane;

// An order that came with a terminate or manage-keys request: plain numbers. It may be let go, but not copied.
#[derive(Drop)]
pub struct Order {
    id: SessionId,
    request: Request,
}

// What an accepted message says, where its content stands in clear, and the order that it brings. A place and no slice: the octets are in
// the buffer that its caller lent, and there is no heap.
#[derive(Drop)]
pub struct Heard {
    pub header: Header,
    pub place: usize,
    pub length: usize,
    pub order: Option<Order>,
}

impl Order {
    // The session that the order came in.
    pub fn session(&self) -> SessionId
        ensures { result ≡ self.now.id }
    {
        self.id
    }

    // What is asked for.
    pub fn request(&self) -> Request
        ensures { result ≡ self.now.request }
    {
        self.request
    }
}

fn order_in(header: Header, content: &[u8]) -> Option<Order>
    ensures { result ≡ order_in header.plane header.id content.now }
{
    match header.plane {
        Plane::User => None,
        Plane::Control => request_in(content).map(|request| Order {
            id: header.id,
            request,
        }),
    }
}

impl Heard {
    // What an opened message says, given its clear octets.
    pub(crate) fn new(opened: Opened, clear: &[u8]) -> Heard
        requires inside { opened.place + opened.length ≤ length clear.now }
        ensures { result ≡ heard_of opened clear.now }
    {
        let (start, end) = (opened.place, opened.place + opened.length);
        Heard {
            header: opened.header,
            place: opened.place,
            length: opened.length,
            order: order_in(opened.header, &clear[start..end]),
        }
    }
}
