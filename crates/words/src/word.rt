ghost use Rattle.std.specs.Prelude.{◌≡◌, ℕ, ◌+◌, ◌-◌, ◌*◌, ◌^◌, ◌<◌, ◌≤◌, Bool, true, false, not, ◌&&◌, if◌then◌else◌, nat_eq, nat_lt};
ghost use Rattle.words.specs.Words.{bit, marked};

// A set is a plain word, as the plan call takes permission words, and the one for C with it; a place is a plain number below
// 64, which its clause says: a type of places would be made and taken apart at each call.

// Whether place k is taken.
#[tactic(auto, using(crate::proofs::Digits::digit_at))]
pub fn has(w: u64, k: usize) -> bool
    requires { k < 64 }
    ensures { result ≡ bit w k }
{
    w >> k & 1 == 1
}

// The word with place k taken.
#[tactic(auto, using(crate::proofs::Digits::with_word))]
pub fn with(w: u64, k: usize) -> u64
    requires { k < 64 }
    ensures { (j : ℕ) → bit result j ≡ (if nat_eq j k then true else bit w j) }
{
    w | 1 << k
}

// The word with place k left out.
#[tactic(auto, using(crate::proofs::Digits::without_word))]
pub fn without(w: u64, k: usize) -> u64
    requires { k < 64 }
    ensures { (j : ℕ) → bit result j ≡ (if nat_eq j k then false else bit w j) }
{
    w & !(1 << k)
}

// The places of a that b does not take.
#[tactic(auto, using(crate::proofs::Digits::less_word))]
pub fn except(a: u64, b: u64) -> u64
    ensures { (j : ℕ) → bit result j ≡ (bit a j && not (bit b j)) }
{
    a & !b
}

// The places that both take.
#[tactic(auto, using(crate::proofs::Digits::bit_of_and))]
pub fn both(a: u64, b: u64) -> u64
    ensures { (j : ℕ) → bit result j ≡ (bit a j && bit b j) }
{
    a & b
}

// The places below n.
#[tactic(auto, using(crate::proofs::Digits::all_places, crate::proofs::Digits::first_places, crate::proofs::Digits::first_number))]
pub fn first(n: usize) -> u64
    requires { n ≤ 64 }
    ensures places { (j : ℕ) → bit result j ≡ nat_lt j n }
    ensures number { result ≡ 2 ^ n - 1 }
{
    if n == 64 { u64::MAX } else { (1 << n) - 1 }
}

// The word with place k taken or left out, by its places alone.
fn marks(w: u64, k: usize, on: bool) -> u64
    requires { k < 64 }
    ensures { (j : ℕ) → bit result j ≡ (if nat_eq j k then on else bit w j) }
{
    if on { with(w, k) } else { without(w, k) }
}

// The word with place k taken or left out.
pub fn put(w: u64, k: usize, on: bool) -> u64
    requires { k < 64 }
    ensures places { (j : ℕ) → bit result j ≡ (if nat_eq j k then on else bit w j) }
    ensures number { result ≡ marked w k on }
{
    marks(w, k, on)
}
