ghost use Rattle.std.specs.Prelude.{◌≡◌, ◌+◌, ◌%◌, ◌<◌, [], ◌∷◌, decimal};
ghost use Rattle.decimals.specs.Spelling.{found, spelled};
ghost use Rattle.decimals.specs.Texts.{Puts};

use crate::digits::Digits;
use crate::number::Number;
use crate::texts::put;
use refusals::Refusal;

impl Digits {
    fn none() -> Digits
        ensures { found result ≡ [] }
    {
        Digits {
            bytes: [0; 21],
            first: 21,
        }
    }

    // Puts a byte before those found.
    #[tactic(auto, using(crate::proofs::Spelled::stored))]
    fn push(&mut self, byte: u8)
        requires { 0 < self.old.first }
        ensures { found self.new ≡ byte ∷ found self.old }
    {
        self.first -= 1;
        self.bytes[self.first] = byte;
    }

    #[tactic(auto, using(crate::proofs::Spelled::to_the_end))]
    fn as_slice(&self) -> &[u8]
        ensures { result.now ≡ found self.now }
    {
        &self.bytes[self.first..]
    }
}

// The last digit of a number.
fn last_digit(number: u64) -> u8
    ensures { result ≡ 48 + number % 10 }
{
    // `as` loses no bit of a digit, which is proved; `try_from` would answer a `Result` to take apart.
    b'0' + (number % 10) as u8
}

// The digits of a number, found from the last to the first until one is left; an iterator over them would be this loop with
// its state in a struct.
#[tactic(auto, using(crate::proofs::Spelled::room, crate::proofs::Spelled::one_more))]
fn spell(number: u64) -> Digits
    ensures { found result ≡ decimal number }
{
    let mut digits = Digits::none();
    let mut rest = number;
    while rest >= 10 {
        digits.push(last_digit(rest));
        rest /= 10;
    }
    digits.push(last_digit(rest));
    digits
}

// The text of a number: its digits, after a minus where it is below zero.
#[tactic(auto, using(crate::proofs::Spelled::minus_room))]
fn text_of<N: Number>(number: N) -> Digits
    ensures { found result ≡ spelled (N.negative number) (N.size number) }
{
    let mut digits = spell(number.size());
    if number.is_negative() {
        digits.push(b'-');
    }
    digits
}

// Writes a number into a buffer from a place on, and answers the place after it. Where it would pass the buffer's end it
// is refused, and the buffer stays as found.
pub fn put_number<N: Number>(buffer: &mut [u8], at: usize, number: N) -> Result<usize, Refusal>
    ensures { Puts buffer.old at (N.text number) result buffer.new }
{
    put(buffer, at, text_of(number).as_slice())
}
