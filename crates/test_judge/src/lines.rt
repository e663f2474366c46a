// Demand 3 and the recogniser: tags S and C.
use test_answers::written::{BLANK, PAPER};
use test_lines::answer::Answer;
use test_lines::fields::{Fields, Text};
use test_readings::words::Words;
use test_records::records;

// S and each part of a stamp, after whether it is there: what the text written is read as, or its refusal alone.
pub fn there_and_back(fields: &mut Fields, answer: &mut Answer) -> Option<()> {
    let mut texts = Text::new();
    let stamp = records::stamp(fields, &mut texts)?;
    let mut paper = [BLANK; PAPER];
    match round_trip::there_and_back(&mut paper, texts.as_slice(), stamp) {
        Ok(shown) => answer.add(Words(shown)),
        Err(refusal) => answer.add(u8::from(refusal)),
    }
    Some(())
}

// C TEXT: whether it is one of our own texts.
pub fn recognised(fields: &mut Fields, answer: &mut Answer) -> Option<()> {
    let text = fields.text()?;
    answer.add(u8::from(recogniser::recognise(text.as_slice())));
    Some(())
}
