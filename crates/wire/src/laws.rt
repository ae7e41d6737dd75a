// What holds of every front.
ghost use Rattle.wire.specs.FrontLaws.{ReadAsWritten};

// A front is read exactly where it is written, and a header as its writer writes it is read back.
pub fn fronts_are_read_as_written()
    ensures { ReadAsWritten }
{}
