// The two functions that firmware calls from C, each the one of that name in `stamp`, with the same contract; a text is a pointer and a length there.
// It is built as the archive libstamp.a. Nothing is decided here.
#![tactic(auto)]

ghost use Rattle.std.specs.Prelude.{◌≡◌};
ghost use Rattle.reader.specs.Parts.{checked};
ghost use Rattle.stamp.specs.Export.{Answered};

// 1 if the text is one that this library writes of some stamp with a date, separators on; else 0.
#[unsafe(no_mangle)]
pub extern "C" fn stamp_recognise(text: &[u8]) -> u32
    ensures { Answered text.now result }
{
    stamp::stamp_recognise(text)
}

// 0 if the text is accepted for the goal of that number, else the refusal's number; 15 before all others for a goal above 6.
#[unsafe(no_mangle)]
pub extern "C" fn stamp_check(goal: u32, text: &[u8]) -> u32
    ensures { result ≡ checked goal text.now }
{
    stamp::stamp_check(goal, text)
}
