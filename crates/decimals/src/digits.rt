ghost use Rattle.std.specs.Prelude.{◌≡◌, ◌≤◌, length};

// The end of a number's text: it stands at the end of the bytes, from `first` on. There is no heap to put it on, so the
// bytes are as many as the longest text of 64 bits needs, a minus and twenty digits. The digits are found here, and not by
// the toolchain's crate `itoa`, whose statements would be more to trust.
#[derive(Drop)]
pub(crate) struct Digits {
    pub(crate) bytes: [u8; 21],
    pub(crate) first: usize,
    ghost long: { length bytes ≡ 21 },
    ghost within: { first ≤ 21 },
}
