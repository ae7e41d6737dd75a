// What holds of every message, with every suite.
ghost use Rattle.loopback.specs.MessageLaws.{OpenedAsSealed};

use suite::Suite;

// What is opened is just what was sealed: the octets of a message are read by the definition that they are written by.
pub fn messages_are_opened_as_sealed<C: Suite>(suite: &C)
    ensures { OpenedAsSealed (C.keystream suite.now) (C.tag_of suite.now) (C.size suite.now) }
{}
