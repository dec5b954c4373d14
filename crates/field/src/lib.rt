// GF(2^128) of NIST SP 800-38D: polynomials over GF(2) modulo t^128 + t^7 + t^2 + t + 1, bit i the coefficient of t^i.
// The words are private and the definitions that the contracts cite are shut: a crate above computes by these methods and
// reasons by the field's laws (specs/Lib.antt says where each law stands).
#![tactic(auto)]

ghost use Rattle.std.specs.Prelude.{◌≡◌, cond, ◌/◌, ◌^◌};
ghost use Rattle.field.specs.Gf.{of_words, low, high, value, element, zero, one, same, is_bit, added, product, shifted, power, odd};

// The low word has the coefficients of t^0 to t^63.
#[derive(Clone, Copy, Debug, PartialEq, Eq)]
pub struct Gf128 {
    lo: u64,
    hi: u64,
}

impl Gf128 {
    pub fn of_words(lo: u64, hi: u64) -> Gf128
        ensures { result ≡ of_words lo hi }
    {
        Gf128 { lo, hi }
    }

    pub fn zero() -> Gf128
        ensures { result ≡ zero }
    {
        Gf128::of_words(0, 0)
    }

    pub fn one() -> Gf128
        ensures { result ≡ one }
    {
        Gf128::of_words(1, 0)
    }

    pub fn low(self) -> u64
        ensures { result ≡ low self }
    {
        self.lo
    }

    pub fn high(self) -> u64
        ensures { result ≡ high self }
    {
        self.hi
    }

    // 0 or 1. No branch between the two tests, as no processor could predict which of the two it is.
    pub fn is_bit(self) -> bool
        ensures { result ≡ is_bit self }
    {
        (self.hi == 0) & (self.lo < 2)
    }

    pub fn add(self, rhs: Gf128) -> Gf128
        ensures { result ≡ added self rhs }
    {
        Gf128 {
            lo: self.lo ^ rhs.lo,
            hi: self.hi ^ rhs.hi,
        }
    }

    // The bits move up by k; those that pass bit 127 are dropped.
    pub fn shl(self, k: u32) -> Gf128
        ensures { result ≡ shifted self k }
    {
        if k == 0 {
            return self;
        }
        if k < 64 {
            return Gf128 {
                lo: self.lo << k,
                hi: (self.hi << k) | (self.lo >> (64 - k)),
            };
        }
        if k < 128 {
            return Gf128 {
                lo: 0,
                hi: self.lo << (k - 64),
            };
        }
        Gf128::zero()
    }

    // The bits move down by k; those that pass bit 0 are dropped.
    fn shr(self, k: u32) -> Gf128
        ensures { result ≡ element (value self / 2 ^ k) }
    {
        if k == 0 {
            return self;
        }
        if k < 64 {
            return Gf128 {
                lo: (self.hi << (64 - k)) | (self.lo >> k),
                hi: self.hi >> k,
            };
        }
        if k < 128 {
            return Gf128 {
                lo: self.hi >> (k - 64),
                hi: 0,
            };
        }
        Gf128::zero()
    }

    // t is `power 1`. The bit that passes bit 127 comes back as t^7 + t^2 + t + 1.
    pub fn times_t(self) -> Gf128
        ensures { result ≡ product self (power 1) }
    {
        let back = Gf128 {
            lo: 0x87 * (self.hi >> 63),
            hi: 0,
        };
        self.shl(1).add(back)
    }

    // A shift where nothing passes bit 127, which is nearly always so where bits are packed; else step by step.
    pub fn times_power(self, k: u32) -> Gf128
        ensures { result ≡ product self (power k) }
    {
        if k == 0 {
            return self;
        }
        if k >= 128 {
            return Gf128::zero();
        }
        if self.shr(128 - k) == Gf128::zero() {
            return self.shl(k);
        }
        let mut r = self;
        for _ in 0..k {
            r = r.times_t();
        }
        r
    }

    // A factor 0 or 1 is the usual one, so it is looked for first.
    pub fn mul(self, rhs: Gf128) -> Gf128
        ensures { result ≡ product self rhs }
    {
        if self.is_bit() {
            return rhs.times_bit(self.is_odd());
        }
        if rhs.is_bit() {
            return self.times_bit(rhs.is_odd());
        }
        self.shift_and_add(rhs)
    }

    // SP 800-38D, Algorithm 1, which ends here as soon as the rest of b is zero: so no range of 128 turns, which a small factor would go
    // through whole.
    fn shift_and_add(self, rhs: Gf128) -> Gf128
        ensures { result ≡ product self rhs }
    {
        let mut a = self;
        let mut b = rhs;
        let mut sum = Gf128::zero();
        while b != Gf128::zero() {
            sum = sum.add(a.times_bit(b.is_odd()));
            a = a.times_t();
            b = b.shr(1);
        }
        sum
    }

    fn times_bit(self, bit: bool) -> Gf128
        ensures { result ≡ cond bit self zero }
    {
        if bit {
            return self;
        }
        Gf128::zero()
    }

    fn is_odd(self) -> bool
        ensures { result ≡ odd self }
    {
        self.lo & 1 == 1
    }
}
