ghost use Rattle.decimals.specs.Texts.{Puts};

use refusals::Refusal;

// Writes a text into a buffer from a place on, and answers the place after it. Where it would pass
// the buffer's end it is refused, and the buffer stays as found.
// A buffer and a place in it, and no text that grows: it is a part of a caller's buffer, with no heap.
pub fn put(buffer: &mut [u8], at: usize, text: &[u8]) -> Result<usize, Refusal>
    ensures { Puts buffer.old at text.now result buffer.new }
{
    let room = buffer.len();
    let end = at
        .checked_add(text.len())
        .filter(|&end| end <= room)
        .ok_or(Refusal::Length)?;
    buffer[at..end].copy_from_slice(text);
    Ok(end)
}
