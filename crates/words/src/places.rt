ghost use Rattle.std.specs.Prelude.{◌≡◌, MatchOption};
ghost use Rattle.std.specs.Int.Count.{count_trailing_zeros};
ghost use Rattle.std.specs.Iterator.{at_most};
ghost use Rattle.words.specs.Words.{Lowest};

// the lowest place of a word, and 64 if it has none
fn lowest(w: u64) -> usize
    ensures { result ≡ count_trailing_zeros 64 w }
{
    // `as`, since no From leads from u32 to usize
    w.trailing_zeros() as usize
}

// The places of a word, taken in rising number.
#[derive(Clone, Copy)]
pub struct Places(pub u64);

impl Iterator for Places {
    type Item = usize;

    ghost next_gives = { λ s r t. MatchOption r (s.0 ≡ 0) (λ k. Lowest s.0 k t.0) };

    ghost remaining = { λ s. at_most s.0 };

    // The lowest place that is left, which is then no longer there.
    #[tactic(auto, using(crate::proofs::Digits::lowest_place))]
    fn next(&mut self) -> Option<usize> {
        if self.0 == 0 {
            return None;
        }
        let k = lowest(self.0);
        self.0 &= self.0 - 1;
        Some(k)
    }
}
