// What holds of the field that the S-box is defined by.
ghost use Rattle.aes.specs.FieldLaws.{Inverses};

// Every octet but 0 has the inverse that the S-box takes.
pub fn octets_have_inverses()
    ensures { Inverses }
{}
