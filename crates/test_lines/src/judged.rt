// Why a vector line is not judged.

#[derive(Clone, Copy, Debug, PartialEq, Eq)]
pub enum NotJudged {
    // A tag that is not known.
    Unknown,
    // A line whose inputs do not read as what its tag asks for.
    Malformed,
}
