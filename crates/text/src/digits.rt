// A number's nine low digits by value, and the place of the last that is not 0.
ghost use Rattle.std.specs.Prelude.{◌≡◌};
ghost use Rattle.text.specs.Digits.{digits, last_nonzero};

// The nine low digits, the most significant first, and the 1-based place of the last that is not 0 (0: all are 0).
#[derive(Clone, Copy, Debug, PartialEq, Eq)]
pub struct NineDigits {
    pub digits: [u8; 9],
    pub last: usize,
}

fn low_nine(value: u32) -> [u8; 9]
    ensures { result ≡ digits 9 value }
{
    let mut out = [0u8; 9];
    let mut rest = value;
    for i in (0..9).rev() {
        out[i] = (rest % 10) as u8;
        rest /= 10;
    }
    out
}

#[tactic(auto, using(crate::proofs::DigitLaws::last_found, crate::proofs::DigitLaws::last_skip))]
fn last_nonzero(ds: [u8; 9]) -> usize
    ensures { result ≡ last_nonzero ds }
{
    for i in (0..9).rev() {
        if ds[i] != 0 {
            return i + 1;
        }
    }
    0
}

pub fn u32_to_digits(value: u32) -> NineDigits
    ensures { (result.digits ≡ digits 9 value) × (result.last ≡ last_nonzero (digits 9 value)) }
{
    let ds = low_nine(value);
    let last = last_nonzero(ds);
    NineDigits { digits: ds, last }
}
