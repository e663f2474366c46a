// What readers walk on: the first byte of a text, what is left of it, and its parts. Past the end a text reads as 0, which is no byte of the grammar.
ghost use Rattle.std.specs.Prelude.{◌≡◌, ◌-◌, length, take, drop};
ghost use Rattle.text.specs.Walk.{front};

// The first byte, or 0.
pub fn first(t: &[u8]) -> u8
    ensures { result ≡ front t.now }
{
    match t.first() {
        Some(&b) => b,
        None => 0,
    }
}

// What is left after n bytes.
pub fn rest(t: &[u8], n: usize) -> &[u8]
    ensures { result.now ≡ drop n t.now }
{
    if n <= t.len() { &t[n..] } else { &t[..0] }
}

// The n bytes from place `from` on, as many as there are.
pub fn part(t: &[u8], from: usize, n: usize) -> &[u8]
    ensures { result.now ≡ take n (drop from t.now) }
{
    let r = rest(t, from);
    if n <= r.len() { &r[..n] } else { r }
}

// The last n bytes, as many as there are.
pub fn last(t: &[u8], n: usize) -> &[u8]
    ensures { result.now ≡ drop (length t.now - n) t.now }
{
    if n <= t.len() {
        rest(t, t.len() - n)
    } else {
        rest(t, 0)
    }
}
