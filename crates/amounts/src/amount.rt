ghost use Rattle.std.specs.Prelude.{◌≡◌, ◌≤◌, true, length, if◌then◌else◌};
ghost use Rattle.std.specs.Ordering.{is_gt};
ghost use Rattle.refusals.specs.Judged.{judged, left};
ghost use Rattle.groups.specs.Sums.{lesser as lesser_element};
ghost use Rattle.groups.specs.Sums.{minus};
ghost use Rattle.amounts.specs.Kind.{Kind, Lawful, StandsFor, order, compared, Reaches, Sum, Difference, text_refusal};
ghost use Rattle.decimals.specs.Texts.{over};

use refusals::Refusal;
use std::cmp::Ordering;

// The limit of what is held, 10^18.
pub(crate) const MOST: u64 = 1_000_000_000_000_000_000;

// What a text needs at most.
const TEXT_BUFFER: usize = 40;

// A kind of amount. Its values are plain numbers that stand for elements of an ordered group; a number
// that is no value may be handed to every call, and is treated as the call says.
pub trait Amount: Copy {
    // The letter by which printed lines name the kind.
    const LETTER: u8;

    ghost kind: { Kind Self };

    // `LETTER`, for callers that have to know which letter it is.
    // Each kind writes it: a ghost constant and a law that tie `LETTER` to `kind.letter` are no plainer than this line.
    fn line_letter() -> u8
        ensures { result ≡ kind.letter };

    // The value that stands for zero.
    fn zero() -> Self
        ensures { StandsFor kind result kind.group.nil };

    // Whether the number is a value of the kind.
    fn is_value(self) -> bool
        ensures { result ≡ kind.value self };

    // Below, equal or above by the order of the elements for which two values stand; of what is no value nothing is said.
    fn ranked(self, other: Self) -> Ordering
        ensures { kind.value self ≡ true → kind.value other ≡ true → result ≡ order kind.group (kind.element self) (kind.element other) };

    // Below, equal or above by the group's order; equal where one is no value, as the rules say, for which there is no derive.
    fn compare(self, other: Self) -> Ordering
        ensures { result ≡ compared kind self other }
    {
        if self.is_value() && other.is_value() {
            self.ranked(other)
        } else {
            Ordering::Equal
        }
    }

    // The sum in the machine's numbers, a value only where it is held; nothing where they have no such number. Nothing is asked of
    // the two, so that a kind needs to look at no limit twice.
    fn checked_add(self, other: Self) -> Option<Self>
        ensures { Reaches kind (kind.group.plus (kind.element self) (kind.element other)) result };

    // The same of the difference.
    fn checked_sub(self, other: Self) -> Option<Self>
        ensures { Reaches kind (minus kind.group (kind.element self) (kind.element other)) result };

    // The sum; nothing where one is no value or the sum is not held.
    fn sum(self, other: Self) -> Option<Self>
        ensures { Sum kind self other result }
    {
        if !self.is_value() || !other.is_value() {
            return None;
        }
        self.checked_add(other).filter(|total| total.is_value())
    }

    // The difference; nothing where one is no value or the difference is not held.
    fn difference(self, other: Self) -> Option<Self>
        ensures { Difference kind self other result }
    {
        if !self.is_value() || !other.is_value() {
            return None;
        }
        self.checked_sub(other).filter(|rest| rest.is_value())
    }

    // Writes the text of a value at the start of a buffer that has room for it, and answers its length.
    // The buffer is the caller's, since there is no heap; `write!` into it may fail, which no clause rules out.
    fn write_text(self, buffer: &mut [u8]) -> usize
        requires value { kind.value self ≡ true }
        requires room { length (kind.text self) ≤ length buffer.old }
        ensures size { result ≡ length (kind.text self) }
        ensures bytes { buffer.new ≡ over (kind.text self) buffer.old };

    // Writes the text at the start of a buffer of at least 40 bytes, the rest untouched, and answers its
    // length. A shorter buffer and a number that is no value are refused, the buffer as found.
    fn text(self, buffer: &mut [u8]) -> Result<usize, Refusal>
        ensures answer { result ≡ judged (text_refusal kind self buffer.old) (length (kind.text self)) }
        ensures after { buffer.new ≡ left (text_refusal kind self buffer.old) buffer.old (over (kind.text self) buffer.old) }
    {
        if buffer.len() < TEXT_BUFFER {
            return Err(Refusal::Length);
        }
        if !self.is_value() {
            return Err(Refusal::NotAnAmount);
        }
        Ok(self.write_text(buffer))
    }

    ghost lawful: { Lawful kind };
}

// The lesser of two amounts; the first where they are equal or one is no value.
pub fn lesser<K: Amount>(a: K, b: K) -> K
    ensures value { result ≡ (if is_gt (compared K.Amount.kind a b) then b else a) }
    ensures stands { K.Amount.kind.value a ≡ true → K.Amount.kind.value b ≡ true → StandsFor K.Amount.kind result (lesser_element K.Amount.kind.group (K.Amount.kind.element a) (K.Amount.kind.element b)) }
{
    if a.compare(b).is_gt() { b } else { a }
}
