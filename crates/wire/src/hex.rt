// Octets as pairs of upper-case hexadecimal digits.
ghost use Rattle.std.specs.Prelude.{Some};
ghost use Rattle.wire.specs.Hex.{hex_of};

use std::fmt;

// Octets one after the other, with nothing between them.
#[derive(Clone, Copy, PartialEq, Eq, Debug)]
pub struct Hex<'a> {
    pub octets: &'a [u8],
}

impl fmt::Display for Hex<'_> {
    ghost output = { λ h. Some (hex_of h.octets.now) };

    fn fmt<W: fmt::Write>(&self, f: &mut fmt::Formatter<W>) -> fmt::Result {
        for octet in self.octets {
            let octet = *octet;
            write!(f, "{octet:02X}")?;
        }
        Ok(())
    }
}
