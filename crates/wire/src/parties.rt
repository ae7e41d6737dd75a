// The planes of a session and the roles of its two ends.
ghost use Rattle.std.specs.Prelude.{◌≡◌, Some};
ghost use Rattle.wire.specs.Parties.{bearer_of, direction_of, other_role, plane_name};

use std::fmt;

// What a message carries; the number is the bearer that the suite is told.
#[derive(Clone, Copy, PartialEq, Eq, Debug)]
pub enum Plane {
    Control = 0,
    User = 21,
}

// Which end of a session; the number is the direction of what this end sends.
#[derive(Clone, Copy, PartialEq, Eq, Debug)]
pub enum Role {
    Logger = 0,
    Service = 1,
}

impl Plane {
    // By `as` and a name: a plane is no number, its bearer is one.
    pub fn bearer(self) -> u8
        ensures { result ≡ bearer_of self }
    {
        self as u8
    }
}

impl fmt::Display for Plane {
    ghost output = { λ p. Some (plane_name p) };

    fn fmt<W: fmt::Write>(&self, f: &mut fmt::Formatter<W>) -> fmt::Result {
        match *self {
            Plane::Control => write!(f, "control"),
            Plane::User => write!(f, "user"),
        }
    }
}

impl Role {
    // By `as` and a name: a role is no number, the direction of what it sends is one.
    pub fn direction(self) -> u8
        ensures { result ≡ direction_of self }
    {
        self as u8
    }

    // The other end of a session.
    pub fn other(self) -> Role
        ensures { result ≡ other_role self }
    {
        match self {
            Role::Logger => Role::Service,
            Role::Service => Role::Logger,
        }
    }
}
