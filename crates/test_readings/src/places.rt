// Returned parts of a text, in the words of a vector line: place len. A returned part does not show its place: the place is that of the name
// that it must be, and is only said where the part is that name, byte by byte. What is none, or is refused, has place 0 and length 0.
use record::Name;
use test_lines::answer::Answer;
use text::walk::part;

// Whether a text ends where the value of a `u-ca` starts.
fn ends_key(text: &[u8]) -> bool {
    text.ends_with(b"[u-ca=") || text.ends_with(b"[!u-ca=")
}

// The name that a calendar, found in a text, must be: it stands where the value of the first `u-ca` starts. In a text of the grammar a `[`
// opens a zone or an annotation, and nothing else.
pub fn found_name(text: &[u8], found: &[u8]) -> Option<Name> {
    if found.is_empty() {
        return None;
    }
    let at = (0..text.len()).find(|&at| ends_key(part(text, 0, at)))?;
    Some(Name {
        at,
        len: found.len(),
    })
}

// place len; or a word that no line has, where the returned part is not that name.
pub fn add_part(answer: &mut Answer, text: &[u8], name: Option<Name>, returned: &[u8]) {
    let Name { at, len } = name.unwrap_or(Name { at: 0, len: 0 });
    if returned.len() == len && returned == part(text, at, len) {
        answer.add(at);
        answer.add(len);
    } else {
        answer.add("other");
    }
}
