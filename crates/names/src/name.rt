// The name at the front of a text, and the public checks of a name that is kept as a place and a length.
ghost use Rattle.std.specs.Prelude.{◌≡◌};
ghost use Rattle.names.specs.Scan.{key_run, calendar_run, numeric_run, zone_run};
ghost use Rattle.names.specs.Name.{name_inside, zone_name_ok, calendar_name_ok};

// The bytes of the annotation key at the front.
#[tactic(auto, unfolding(crate::specs::Scan::key_run))]
pub fn key_run(t: &[u8]) -> Option<usize>
    ensures { result ≡ key_run t.now }
{
    super::scan::run_of::<super::scan::Key>(t)
}

// The bytes of the calendar name at the front.
#[tactic(auto, unfolding(crate::specs::Scan::calendar_run))]
pub fn calendar_run(t: &[u8]) -> Option<usize>
    ensures { result ≡ calendar_run t.now }
{
    super::scan::run_of::<super::scan::Value>(t)
}

// `HH:MM`, after a sign: six bytes with it.
#[tactic(auto, unfolding(crate::specs::Scan::numeric_run, crate::specs::Scan::numeric_of))]
fn numeric_run(t: &[u8]) -> Option<usize>
    ensures { result ≡ numeric_run t.now }
{
    let [_, _, _, b':', minute @ ..] = t else {
        return None;
    };
    super::field::two(&t[1..], 0, 23)?;
    super::field::two(minute, 0, 59)?;
    Some(6)
}

// The bytes of the zone name at the front.
#[tactic(auto, unfolding(crate::specs::Scan::zone_run))]
pub fn zone_run(t: &[u8]) -> Option<usize>
    ensures { result ≡ zone_run t.now }
{
    match t {
        [b'+' | b'-', ..] => numeric_run(t),
        _ => super::scan::run_of::<super::scan::Zone>(t),
    }
}

// 1 to 64 bytes from a place on that lie wholly inside a text, for any place and length.
#[tactic(auto, unfolding(crate::specs::Name::name_inside))]
fn name_inside(size: usize, at: usize, len: usize) -> bool
    ensures { result ≡ name_inside size at len }
{
    (1..=64).contains(&len) && len <= size && at <= size - len
}

// Whether the bytes from a place on are a zone name of at most 64 bytes, for any place and length.
#[tactic(auto, unfolding(crate::specs::Name::name_ok, crate::specs::Name::zone_name_ok))]
pub fn zone_name_ok(text: &[u8], at: usize, len: usize) -> bool
    ensures { result ≡ zone_name_ok text.now at len }
{
    name_inside(text.len(), at, len) && zone_run(text::walk::part(text, at, len)) == Some(len)
}

// Whether the bytes from a place on are a calendar name of at most 64 bytes, for any place and length.
#[tactic(auto, unfolding(crate::specs::Name::name_ok, crate::specs::Name::calendar_name_ok))]
pub fn calendar_name_ok(text: &[u8], at: usize, len: usize) -> bool
    ensures { result ≡ calendar_name_ok text.now at len }
{
    name_inside(text.len(), at, len) && calendar_run(text::walk::part(text, at, len)) == Some(len)
}
