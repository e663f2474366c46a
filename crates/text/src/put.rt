// Two digits put at a place of a lent buffer, and how many bytes the pieces of a text have that `Out` puts.
ghost use Rattle.text.specs.Put.{Room, Put, Count, mark};
ghost use Rattle.text.specs.Digits.{decimal, number, fraction, Span};
ghost use Rattle.std.specs.Prelude.{◌<◌};

use crate::out::Out;

// A number below 100 in two digits.
pub fn write_padded_u8(buf: &mut [u8], at: usize, n: u8) -> usize
    requires room { Room buf.old at (decimal 2 n) }
    requires n_bound { n < 100 }
    ensures { Put buf.old at (decimal 2 n) buf.new result }
{
    buf[at] = b'0' + n / 10;
    buf[at + 1] = b'0' + n % 10;
    at + 2
}

// How many bytes a mark has.
pub fn mark_bytes(on: bool, b: u8) -> usize
    ensures { Count (mark on b) 1 result }
{
    if on { 1 } else { 0 }
}

// How many bytes a fraction of k digits has.
#[tactic(auto, using(crate::proofs::DigitLaws::fraction_none))]
pub fn fraction_bytes(ds: [u8; 9], k: usize) -> usize
    requires { Span ds 0 k }
    ensures { Count (fraction k ds) 10 result }
{
    if k == 0 { 0 } else { 1 + k }
}

// How many digits a number has, 1 to 20.
pub fn number_bytes(n: u64) -> usize
    ensures { Count (number n) 20 result }
{
    let mut rest = n;
    let mut count = 1;
    while 10 <= rest {
        rest = rest / 10;
        count += 1;
    }
    count
}

// A number put at a place of a lent buffer.
pub fn put_number(buf: &mut [u8], at: usize, n: u64) -> usize
    requires { Room buf.old at (number n) }
    ensures { Put buf.old at (number n) buf.new result }
{
    let mut out = Out { buf, at };
    out.number(n);
    out.at
}
