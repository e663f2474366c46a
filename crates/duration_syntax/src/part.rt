// A part of a duration at the front of a text: a number, a fraction where one may stand, and the unit's letter in either case.
ghost use Rattle.std.specs.Prelude.{◌≡◌};
ghost use Rattle.duration_syntax.specs.Read.{fraction_if, part_fits, part_at, past_part};

use crate::number::Number;
use time_syntax::fraction::Fraction;

#[derive(Clone, Copy, Debug, PartialEq, Eq)]
pub struct Part {
    pub number: Number,
    pub fraction: Option<Fraction>,
    pub letter: u8,
}

// The fraction at the front, where one may stand.
pub fn fraction_if(t: &[u8], fractional: bool) -> Option<Fraction>
    ensures { result ≡ fraction_if fractional t.now }
{
    if fractional {
        time_syntax::fraction::fraction_at(t)
    } else {
        None
    }
}

// There are digits, a point has digits too, and the letter is the unit's.
#[tactic(auto, unfolding(crate::specs::Read::part_fits))]
pub fn part_fits(upper: u8, p: Part) -> bool
    ensures { result ≡ part_fits upper p }
{
    0 < p.number.digits
        && time_syntax::fraction::has_digits(p.fraction)
        && p.letter.to_ascii_uppercase() == upper
}

// The part of one unit at the front, and what follows it: the whole text where there is none. Every unit is read by this one function.
#[tactic(auto, unfolding(crate::specs::Read::part_at, crate::specs::Read::part_of))]
pub fn part_at(t: &[u8], upper: u8, fractional: bool) -> (Option<Part>, &[u8])
    ensures part { result.0 ≡ part_at upper fractional t.now }
    ensures rest { result.1.now ≡ past_part upper fractional t.now }
{
    let number = super::number::number_at(t);
    let after_number = text::walk::rest(t, number.digits);
    let fraction = fraction_if(after_number, fractional);
    let left = time_syntax::fraction::past_fraction(after_number, fraction);
    let letter = text::walk::first(left);
    let part = Part {
        number,
        fraction,
        letter,
    };
    if part_fits(upper, part) {
        (Some(part), text::walk::rest(left, 1))
    } else {
        (None, t)
    }
}
