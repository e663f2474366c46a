// What stands in brackets after a stamp, a zone or a calendar: hidden, plain, or critical.
ghost use Rattle.std.specs.Prelude.{◌+◌, ◌≤◌, length};
ghost use Rattle.text.specs.Put.{Count};
ghost use Rattle.text.specs.Out.{Fits, Puts};
ghost use Rattle.tail_writer.specs.Annotation.{name_in, NameFits, bracketed, annotation};

use record::Name;
use text::out::Out;

#[derive(Clone, Copy, Debug, PartialEq, Eq)]
pub enum Mark {
    Hidden,
    Plain,
    Critical,
}

#[tactic(auto, using(text::proofs::OutLaws::stepwise), unfolding(crate::specs::Annotation::bracketed))]
fn put_bracketed(out: &mut Out<'_>, critical: bool, key: &[u8], lent: &[u8], name: Name)
    requires { Fits out.old (bracketed critical key.now (name_in lent.now name)) }
    ensures { Puts out.old (bracketed critical key.now (name_in lent.now name)) out.new }
{
    out.byte(b'[');
    out.mark(critical, b'!');
    out.bytes(key);
    out.part(lent, name.at, name.len);
    out.byte(b']');
}

// A name of the lent text in brackets, after a key or none.
pub fn put_annotation(out: &mut Out<'_>, mark: Mark, key: &[u8], lent: &[u8], name: Name)
    requires { Fits out.old (annotation mark key.now (name_in lent.now name)) }
    ensures { Puts out.old (annotation mark key.now (name_in lent.now name)) out.new }
{
    match mark {
        Mark::Hidden => {}
        Mark::Plain => put_bracketed(out, false, key, lent, name),
        Mark::Critical => put_bracketed(out, true, key, lent, name),
    }
}

#[tactic(auto, using(text::proofs::OutLaws::stepwise, crate::proofs::AnnotationLaws::length_name), unfolding(crate::specs::Annotation::bracketed))]
pub fn annotation_bytes(mark: Mark, key: &[u8], lent: &[u8], name: Name) -> usize
    requires key_len_bound { length key.now ≤ 5 }
    requires name_fits { NameFits lent.now name }
    ensures { Count (annotation mark key.now (name_in lent.now name)) (67 + length key.now) result }
{
    match mark {
        Mark::Hidden => 0,
        Mark::Plain => 2 + key.len() + name.len,
        Mark::Critical => 3 + key.len() + name.len,
    }
}
