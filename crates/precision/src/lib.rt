// How a precision shows the fraction of a second: times, offsets and durations write theirs by it.
#![tactic(auto)]

ghost use Rattle.std.specs.Prelude.{true, [], ◌∷◌, ◌≡◌};
ghost use Rattle.text.specs.Put.{Count};
ghost use Rattle.text.specs.Out.{Fits, Puts};
ghost use Rattle.text.specs.Digits.{decimal};
ghost use Rattle.precision.specs.Precision.{digits_shown, precision_ok, sub_second};

use record::Precision;
use text::out::Out;

// How many digits are shown, given the place of the last that is not 0.
pub fn digits_shown(p: Precision, last: usize) -> usize
    ensures { result ≡ digits_shown p last }
{
    match p {
        Precision::Auto => last,
        Precision::Minute => 0,
        Precision::Digit(d) => d as usize,
    }
}

pub fn precision_ok(p: Precision) -> bool
    ensures { result ≡ precision_ok p }
{
    match p {
        Precision::Auto | Precision::Minute => true,
        Precision::Digit(d) => d <= 9,
    }
}

// The point and all nine digits are shown: they are asked for, or the last is not 0.
#[tactic(auto, using(crate::proofs::SubSecond::all_nine, crate::proofs::SubSecond::last_nine), unfolding(crate::specs::Precision::sub_second))]
fn shows_nine(p: Precision, nanosecond: u32) -> bool
    ensures { result ≡ true → sub_second p nanosecond ≡ 46 ∷ decimal 9 nanosecond }
{
    match p {
        Precision::Auto => nanosecond % 10 != 0,
        Precision::Minute => false,
        Precision::Digit(d) => 9 <= d,
    }
}

// Nothing is shown: no digit is asked for, or all are 0.
#[tactic(auto, using(text::proofs::DigitLaws::fraction_none, crate::proofs::SubSecond::last_none), unfolding(crate::specs::Precision::sub_second))]
fn shows_none(p: Precision, nanosecond: u32) -> bool
    ensures { result ≡ true → sub_second p nanosecond ≡ [] }
{
    match p {
        Precision::Auto => nanosecond == 0,
        Precision::Minute => true,
        Precision::Digit(d) => d == 0,
    }
}

// Any number of digits, from all nine of them.
#[tactic(auto, using(crate::proofs::SubSecond::shown_as))]
fn put_some(out: &mut Out<'_>, p: Precision, nanosecond: u32)
    requires { Fits out.old (sub_second p nanosecond) }
    ensures { Puts out.old (sub_second p nanosecond) out.new }
{
    let s = text::digits::u32_to_digits(nanosecond);
    let k = digits_shown(p, s.last).min(9);
    out.fraction(s.digits, k);
}

pub fn put_sub_second(out: &mut Out<'_>, p: Precision, nanosecond: u32)
    requires { Fits out.old (sub_second p nanosecond) }
    ensures { Puts out.old (sub_second p nanosecond) out.new }
{
    if shows_nine(p, nanosecond) {
        out.byte(b'.');
        out.nine(nanosecond);
    } else if !shows_none(p, nanosecond) {
        put_some(out, p, nanosecond);
    }
}

// How many bytes any number of digits has, from all nine of them.
#[tactic(auto, using(crate::proofs::SubSecond::shown_as))]
fn some_bytes(p: Precision, nanosecond: u32) -> usize
    ensures { Count (sub_second p nanosecond) 10 result }
{
    let s = text::digits::u32_to_digits(nanosecond);
    let k = digits_shown(p, s.last).min(9);
    text::put::fraction_bytes(s.digits, k)
}

pub fn sub_second_bytes(p: Precision, nanosecond: u32) -> usize
    ensures { Count (sub_second p nanosecond) 10 result }
{
    if shows_nine(p, nanosecond) {
        return 10;
    }
    if shows_none(p, nanosecond) {
        return 0;
    }
    some_bytes(p, nanosecond)
}
