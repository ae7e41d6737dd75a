// A suite with the keys and the inputs of one message.
ghost use Rattle.std.specs.Prelude.{◌≡◌, ◌-◌, ◌≤◌, ◌++◌, length, take, drop};
ghost use Rattle.std.specs.List.{between};
ghost use Rattle.suite.specs.Ciphers.{enciphered, padded};
ghost use Rattle.framing.specs.Formats.{inputs_of};
ghost use Rattle.framing.specs.Layouts.{Ordered};
ghost use Rattle.message.specs.Opens.{cleared};

use framing::format::Protection;
use framing::layout::Layout;
use suite::{Inputs, Keyset, Suite};
use wire::front::Header;

#[derive(Drop)]
pub(crate) struct Cipher<'a, C> {
    pub(crate) suite: &'a C,
    pub(crate) keys: Keyset,
    pub(crate) inputs: Inputs,
}

impl<'a, C: Suite> Cipher<'a, C> {
    // What seals and opens the message with this header.
    pub(crate) fn new(suite: &'a C, protection: Protection, header: Header) -> Cipher<'a, C>
        ensures suite { result.suite.now ≡ suite.now }
        ensures keys { result.keys ≡ protection.keys }
        ensures inputs { result.inputs ≡ inputs_of protection header }
    {
        Cipher {
            suite,
            keys: protection.keys,
            inputs: protection.inputs(header),
        }
    }

    // Deciphers what stands from `to` on, or enciphers it again.
    pub(crate) fn decipher(&self, to: usize, message: &mut [u8])
        requires { to ≤ length message.old }
        ensures { message.new ≡ cleared (C.keystream self.now.suite.now self.now.keys self.now.inputs) to message.old }
    {
        self.suite
            .encipher(self.keys, self.inputs, &mut message[to..]);
    }

    // The tag behind the content, and all from `to` on enciphered.
    pub(crate) fn protect(&self, w: Layout, out: &mut [u8])
        requires ordered { Ordered w w.end }
        requires room { w.end ≤ length out.old }
        ensures { out.new ≡ take w.to out.old ++ (enciphered (C.keystream self.now.suite.now self.now.keys self.now.inputs) 0 (between w.to w.tag out.old ++ take (w.end - w.tag) (padded (C.tag_of self.now.suite.now self.now.keys self.now.inputs (between w.from w.tag out.old)))) ++ drop w.end out.old) }
    {
        let tag = self.suite.tag(self.keys, self.inputs, &out[w.from..w.tag]);
        out[w.tag..w.end].copy_from_slice(&tag[0..w.end - w.tag]);
        self.suite
            .encipher(self.keys, self.inputs, &mut out[w.to..w.end]);
    }
}
