// A number at the front of a text: how many digits it has, and its value up to 64 bits.
ghost use Rattle.std.specs.Prelude.{◌≡◌};
ghost use Rattle.duration_syntax.specs.Read.{value_more, number_at};

// A count of digits, which may be 0, and what they stand for: none where that is more than 64 bits hold.
#[derive(Clone, Copy, Debug, PartialEq, Eq)]
pub struct Number {
    pub digits: usize,
    pub value: Option<u64>,
}

// One digit more.
pub fn more(v: Option<u64>, d: u8) -> Option<u64>
    ensures { result ≡ value_more v d }
{
    v?.checked_mul(10)?.checked_add(d as u64)
}

// The digits at the front.
pub fn number_at(t: &[u8]) -> Number
    ensures { result ≡ number_at t.now }
{
    let mut digits = 0;
    let mut value = Some(0);
    for &b in t {
        let Some(d) = names::field::digit_of(b) else {
            break;
        };
        value = more(value, d);
        digits += 1;
    }
    Number { digits, value }
}
