// The digits and the checks: tags G, VD and VT.
use test_lines::answer::Answer;
use test_lines::fields::Fields;

// G value: nine digits and the place of the last that is not 0.
pub fn digits(fields: &mut Fields, answer: &mut Answer) -> Option<()> {
    let nine = text::digits::u32_to_digits(fields.number()?);
    for digit in nine.digits {
        answer.add(digit);
    }
    answer.add(nine.last);
    Some(())
}

// VD year month day: whether it is a date.
pub fn valid_date(fields: &mut Fields, answer: &mut Answer) -> Option<()> {
    let valid = iso::is_valid_date(fields.integer()?, fields.number()?, fields.number()?);
    answer.add(u8::from(valid));
    Some(())
}

// VT hour minute second millisecond microsecond nanosecond: whether it is a time.
pub fn valid_time(fields: &mut Fields, answer: &mut Answer) -> Option<()> {
    let valid = iso::is_valid_time(
        fields.number()?,
        fields.number()?,
        fields.number()?,
        fields.number()?,
        fields.number()?,
        fields.number()?,
    );
    answer.add(u8::from(valid));
    Some(())
}
