// Fields of two digits.
ghost use Rattle.std.specs.Prelude.{◌≡◌};
ghost use Rattle.names.specs.Field.{digit, pair_of, field};

// A digit's value.
#[tactic(auto, unfolding(crate::specs::Field::digit))]
pub fn digit_of(b: u8) -> Option<u8>
    ensures { result ≡ digit b }
{
    b.is_ascii_digit().then(|| b - b'0')
}

// Two digits whose number is from lo to hi. Every hour and minute is read by this one function.
#[tactic(auto, unfolding(crate::specs::Field::digit, crate::specs::Field::pair_of))]
pub fn two_of(tens: u8, ones: u8, lo: u8, hi: u8) -> Option<u8>
    ensures { result ≡ pair_of lo hi (digit tens) (digit ones) }
{
    let n = digit_of(tens)? * 10 + digit_of(ones)?;
    (lo..=hi).contains(&n).then_some(n)
}

// The same at the front of a text.
#[tactic(auto, unfolding(crate::specs::Field::digit, crate::specs::Field::pair_of, crate::specs::Field::field))]
pub fn two(t: &[u8], lo: u8, hi: u8) -> Option<u8>
    ensures { result ≡ field lo hi t.now }
{
    let &[tens, ones, ..] = t else {
        return None;
    };
    two_of(tens, ones, lo, hi)
}
