// Numbers in octets, the most significant first.
#![tactic(auto)]

ghost use Rattle.std.specs.Prelude.{◌≡◌, ◌*◌, ◌/◌, ◌%◌, ◌^◌, ◌<◌, ◌≤◌, length};
ghost use Rattle.std.specs.Int.Digits.{number_from_digits};
ghost use Rattle.octets.specs.Octets.{octets, widest, width_of, Fewest};

// The fewest octets that hold a number, at least one.
pub fn width(c: u32) -> usize
    ensures value { result ≡ width_of c }
    ensures fewest { Fewest c result }
    ensures bound { (1 ≤ result) × (result ≤ widest) }
{
    if c <= 0xFF {
        1
    } else if c <= 0xFFFF {
        2
    } else if c <= 0xFF_FFFF {
        3
    } else {
        4
    }
}

// Fills `out` with the last octets of a number.
pub fn write_number(c: u32, out: &mut [u8])
    requires { length out.old ≤ widest }
    ensures { out.new ≡ octets (length out.old) c }
{
    let all = c.to_be_bytes();
    out.copy_from_slice(&all[all.len() - out.len()..]);
}

// The number that some octets write, at most four; the first of them may be 0.
pub fn read_number(from: &[u8]) -> u32
    requires { length from.now ≤ widest }
    ensures { result ≡ number_from_digits 256 from.now }
{
    let mut c = 0u32;
    for x in from {
        c = c * 256 + *x as u32;
    }
    c
}
