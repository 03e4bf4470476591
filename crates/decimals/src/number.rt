ghost use Rattle.std.specs.Prelude.{◌≡◌, ℕ, Bool, false, List, decimal, refl, unsigned_abs};
ghost use Rattle.std.specs.Int.{is_negative};
ghost use Rattle.std.specs.Fmt.{signed_decimal};
ghost use Rattle.decimals.specs.Spelling.{spelled, signed_spelled};

// A whole number of at most 64 bits, as it is written.
pub trait Number: Copy {
    ghost negative: { Self → Bool };

    ghost size: { Self → ℕ };

    // Its digits, with no leading zero, after a minus where it is below zero.
    ghost text: { Self → List ℕ };

    // Whether it is below zero.
    fn is_negative(self) -> bool
        ensures { result ≡ negative self };

    // How far it is from zero.
    fn size(self) -> u64
        ensures { result ≡ size self };

    ghost spells: { (number : Self) → text number ≡ spelled (negative number) (size number) };
}

impl Number for u64 {
    ghost negative = { λ _. false };

    ghost size = { λ number. number };

    ghost text = { decimal };

    ghost spells = { λ _. refl };

    fn is_negative(self) -> bool {
        false
    }

    fn size(self) -> u64 {
        self
    }
}

impl Number for i64 {
    ghost negative = { is_negative };

    ghost size = { unsigned_abs };

    ghost text = { signed_decimal };

    ghost spells = { signed_spelled };

    fn is_negative(self) -> bool {
        self < 0
    }

    fn size(self) -> u64 {
        self.unsigned_abs()
    }
}
