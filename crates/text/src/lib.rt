// Bytes and digits: what every writer puts into a buffer and answers, and what every reader walks on.
#![tactic(auto)]

ghost use Rattle.std.specs.Prelude.{cond, Ok, Err, ℕ, length, ◌≡◌, ◌≤◌, ◌<◌};
ghost use Rattle.text.specs.Answer.{fit_of};
ghost use Rattle.text.specs.Out.{AtFront};
ghost use Rattle.text.specs.declared.out.Out.{Out};
ghost use Rattle.text.specs.declared.refusal.Refusal.TheVariants.{NoRoom};

pub mod digits;
pub mod out;
pub mod put;
pub mod refusal;
pub mod walk;

use out::Out;
pub use refusal::Refusal;

// A test that a record has to pass, and its refusal if it does not.
pub fn check(ok: bool, refusal: Refusal) -> Result<(), Refusal>
    ensures { result ≡ cond ok (Ok tt) (Err refusal) }
{
    if ok { Ok(()) } else { Err(refusal) }
}

// A writer's answer from its length function's and the room that the buffer has. A refusal goes on as it came, as a `Refusal` or as a number.
pub fn fit<K: From<Refusal>>(length: Result<usize, K>, room: usize) -> Result<usize, K>
    ensures fits { (n : ℕ) → length ≡ Ok n → n ≤ room → result ≡ Ok n }
    ensures no_room { (n : ℕ) → length ≡ Ok n → room < n → (k : K) × (result ≡ Err k) × K.from_gives NoRoom k }
    ensures refused { (k : K) → length ≡ Err k → result ≡ Err k }
{
    let n = length?;
    if n <= room {
        Ok(n)
    } else {
        Err(K::from(Refusal::NoRoom))
    }
}

// Writes to the front of a buffer by `put` what has a length and room there; a refusal leaves the buffer as it was.
#[tactic(auto, using(crate::proofs::Answers::fitted))]
pub fn write_with<F: FnOnce(&mut Out<'_>)>(
    buf: &mut [u8],
    count: Result<usize, Refusal>,
    put: F,
) -> Result<usize, Refusal>
    requires { (n : _) → Ok n ≡ fit_of count (length buf.old) → ((out : Out) → AtFront buf.old out → ((lent : _) → lent.now ≡ out → F.pre put lent)) }
    ensures answer { result ≡ fit_of count (length buf.old) }
    ensures refused { (k : _) → result ≡ Err k → buf.new ≡ buf.old }
    ensures put_there { (n : _) → result ≡ Ok n → ((lent : _) × (left : _) × AtFront buf.old lent.now × F.post put lent tt left × (left.now.buf.ghost_name ≡ lent.now.buf.ghost_name → buf.new ≡ left.now.buf.now)) }
{
    let n = fit(count, buf.len())?;
    put(&mut Out { buf, at: 0 });
    Ok(n)
}
