// Where a text is written: a buffer that the caller lends, and the place of the next byte. Each step puts a piece there and moves on.
ghost use Rattle.std.specs.Prelude.{[], ◌∷◌, ◌<◌, take, drop};
ghost use Rattle.std.proofs.Math.Seq.{slice};
ghost use Rattle.text.specs.Put.{mark};
ghost use Rattle.text.specs.Out.{Fits, Puts};
ghost use Rattle.text.specs.Digits.{decimal, number, shown, fraction, Span};

#[derive(Drop)]
pub struct Out<'a> {
    pub buf: &'a mut [u8],
    pub at: usize,
}

impl Out<'_> {
    pub fn byte(&mut self, b: u8)
        requires { Fits self.old (b ∷ []) }
        ensures { Puts self.old (b ∷ []) self.new }
    {
        self.buf[self.at] = b;
        self.at += 1;
    }

    // A byte where it is on; else nothing.
    pub fn mark(&mut self, on: bool, b: u8)
        requires { Fits self.old (mark on b) }
        ensures { Puts self.old (mark on b) self.new }
    {
        if on {
            self.byte(b);
        }
    }

    // A number below 100 in two digits.
    pub fn two(&mut self, n: u8)
        requires room { Fits self.old (decimal 2 n) }
        requires n_bound { n < 100 }
        ensures { Puts self.old (decimal 2 n) self.new }
    {
        self.at = crate::put::write_padded_u8(self.buf, self.at, n);
    }

    // The two low digits of a number.
    pub fn pair(&mut self, n: u32)
        requires { Fits self.old (decimal 2 n) }
        ensures { Puts self.old (decimal 2 n) self.new }
    {
        self.two((n % 100) as u8);
    }

    // The four low digits of a number.
    pub fn four(&mut self, n: u32)
        requires { Fits self.old (decimal 4 n) }
        ensures { Puts self.old (decimal 4 n) self.new }
    {
        self.pair(n / 100);
        self.pair(n);
    }

    // The nine low digits of a number.
    pub fn nine(&mut self, n: u32)
        requires { Fits self.old (decimal 9 n) }
        ensures { Puts self.old (decimal 9 n) self.new }
    {
        self.pair(n / 10_000_000);
        self.pair(n / 100_000);
        self.pair(n / 1000);
        self.pair(n / 10);
        self.byte(b'0' + (n % 10) as u8);
    }

    // A text that the caller lends.
    pub fn bytes(&mut self, s: &[u8])
        requires { Fits self.old s.now }
        ensures { Puts self.old s.now self.new }
    {
        let at = self.at;
        let buf = &mut *self.buf;
        for (i, &b) in s.iter().enumerate() {
            buf[at + i] = b;
        }
        self.at = at + s.len();
    }

    // The part of a lent text of n bytes from place `from` on, as many as there are.
    pub fn part(&mut self, s: &[u8], from: usize, n: usize)
        requires { Fits self.old (take n (drop from s.now)) }
        ensures { Puts self.old (take n (drop from s.now)) self.new }
    {
        self.bytes(crate::walk::part(s, from, n));
    }

    // The digits of ds from place `from` up to, not including, place `to`.
    #[tactic(auto, using(crate::proofs::OutLaws::stepwise, crate::proofs::DigitLaws::span_more, crate::proofs::DigitLaws::length_span))]
    pub fn digits(&mut self, ds: [u8; 9], from: usize, to: usize)
        requires room { Fits self.old (shown (slice from to ds)) }
        requires span { Span ds from to }
        ensures { Puts self.old (shown (slice from to ds)) self.new }
    {
        for i in from..to {
            self.byte(b'0' + ds[i]);
        }
    }

    // The first k of nine digits as a fraction, with its point; nothing where k is 0.
    #[tactic(auto, using(crate::proofs::OutLaws::stepwise, crate::proofs::DigitLaws::fraction_some, crate::proofs::DigitLaws::fraction_none))]
    pub fn fraction(&mut self, ds: [u8; 9], k: usize)
        requires room { Fits self.old (fraction k ds) }
        requires span { Span ds 0 k }
        ensures { Puts self.old (fraction k ds) self.new }
    {
        if k != 0 {
            self.byte(b'.');
            self.digits(ds, 0, k);
        }
    }

    // A number in as many digits as it has: its quotient by ten first, then the last digit.
    #[tactic(auto, using(crate::proofs::OutLaws::stepwise, crate::proofs::NumberLaws::number_small, crate::proofs::NumberLaws::number_more))]
    pub fn number(&mut self, n: u64)
        requires { Fits self.old (number n) }
        ensures { Puts self.old (number n) self.new }
    {
        if n < 10 {
            self.byte(b'0' + n as u8);
        } else {
            self.number(n / 10);
            self.byte(b'0' + (n % 10) as u8);
        }
    }
}
