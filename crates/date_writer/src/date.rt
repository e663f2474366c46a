// Dates: the year by Temporal's PadISOYear, month and day in two digits.
ghost use Rattle.std.specs.Prelude.{◌∷◌, ◌≡◌};
ghost use Rattle.text.specs.Put.{Count};
ghost use Rattle.text.specs.Out.{Fits, Puts};
ghost use Rattle.text.specs.Digits.{decimal};
ghost use Rattle.text.specs.Answer.{length_of, Wrote};
ghost use Rattle.date_writer.specs.Date.{year_text, dashed, date_text, date_ok, date_judged};

use record::Date;
use text::Refusal;
use text::out::Out;

// A sign and the six low digits of a number.
fn put_six(out: &mut Out<'_>, sign: u8, n: u32)
    requires { Fits out.old (sign ∷ decimal 6 n) }
    ensures { Puts out.old (sign ∷ decimal 6 n) out.new }
{
    out.byte(sign);
    out.pair(n / 10_000);
    out.four(n);
}

#[tactic(auto, using(crate::proofs::DateLaws::years))]
pub fn put_year(out: &mut Out<'_>, year: i32)
    requires { Fits out.old (year_text year) }
    ensures { Puts out.old (year_text year) out.new }
{
    let n = iso::magnitude(year);
    if year < 0 {
        put_six(out, b'-', n);
    } else if n < 10_000 {
        out.four(n);
    } else {
        put_six(out, b'+', n);
    }
}

// `-` and two digits: the month, the day.
pub fn put_dashed(out: &mut Out<'_>, n: u8)
    requires { Fits out.old (dashed n) }
    ensures { Puts out.old (dashed n) out.new }
{
    out.byte(b'-');
    out.pair(n as u32);
}

#[tactic(auto, using(text::proofs::OutLaws::stepwise, crate::proofs::DateLaws::years), unfolding(crate::specs::Date::date_text))]
pub fn put_date(out: &mut Out<'_>, d: Date)
    requires { Fits out.old (date_text d) }
    ensures { Puts out.old (date_text d) out.new }
{
    put_year(out, d.year);
    put_dashed(out, d.month);
    put_dashed(out, d.day);
}

#[tactic(auto, using(crate::proofs::DateLaws::years))]
pub fn year_bytes(year: i32) -> usize
    ensures { Count (year_text year) 7 result }
{
    let n = iso::magnitude(year);
    if year < 0 {
        7
    } else if n < 10_000 {
        4
    } else {
        7
    }
}

#[tactic(auto, using(text::proofs::OutLaws::stepwise, crate::proofs::DateLaws::years), unfolding(crate::specs::Date::date_text))]
pub fn date_bytes(d: Date) -> usize
    ensures { Count (date_text d) 13 result }
{
    year_bytes(d.year) + 6
}

#[tactic(auto, using(crate::proofs::DateLaws::years), unfolding(crate::specs::Date::date_ok))]
pub fn date_ok(d: Date) -> bool
    ensures { result ≡ date_ok d }
{
    (iso::magnitude(d.year) <= 999_999) & iso::is_valid_date(d.year, d.month, d.day)
}

// The exact length of a date's text; 2 for a date out of range.
#[tactic(auto, unfolding(crate::specs::Date::date_judged))]
pub fn date_length(d: Date) -> Result<usize, Refusal>
    ensures { result ≡ length_of (date_judged d) }
{
    text::check(date_ok(d), Refusal::BadField)?;
    Ok(date_bytes(d))
}

// Writes a date's text to the front of a buffer; refusals 2, then 1.
#[tactic(auto, using(text::proofs::OutLaws::at_front), unfolding(crate::specs::Date::date_judged))]
pub fn write_date(buf: &mut [u8], d: Date) -> Result<usize, Refusal>
    ensures { Wrote (date_judged d) buf.old buf.new result }
{
    text::write_with(buf, date_length(d), |out| put_date(out, d))
}
