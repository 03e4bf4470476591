ghost use Rattle.std.specs.Prelude.{decimal};
ghost use Rattle.std.specs.Fmt.{signed_decimal};
ghost use Rattle.decimals.specs.Texts.{Puts};

use crate::put_number;
use refusals::Refusal;

// What the call promises of a number without a sign.
fn put_unsigned(buffer: &mut [u8], at: usize, number: u64) -> Result<usize, Refusal>
    ensures { Puts buffer.old at (decimal number) result buffer.new }
{
    put_number(buffer, at, number)
}

// What the call promises of a number with a sign.
fn put_signed(buffer: &mut [u8], at: usize, number: i64) -> Result<usize, Refusal>
    ensures { Puts buffer.old at (signed_decimal number) result buffer.new }
{
    put_number(buffer, at, number)
}

#[test]
fn numbers_without_a_sign(rt: HostRuntime) {
    let mut buffer = [b'.'; 21];
    assert_eq!(rt; put_unsigned(&mut buffer, 0, 0), Ok(1));
    assert!(rt; &buffer[0..2] == b"0.".as_slice());
    assert_eq!(rt; put_unsigned(&mut buffer, 1, u64::MAX), Ok(21));
    assert!(rt; &buffer[0..21] == b"018446744073709551615".as_slice());
    assert_eq!(rt;
        put_unsigned(&mut buffer, 2, u64::MAX),
        Err(Refusal::Length)
    );
    assert_eq!(rt;
        put_unsigned(&mut buffer, usize::MAX, 7),
        Err(Refusal::Length)
    );
}

#[test]
fn numbers_with_a_sign(rt: HostRuntime) {
    let mut buffer = [b'.'; 21];
    assert_eq!(rt; put_signed(&mut buffer, 1, i64::MIN), Ok(21));
    assert!(rt; &buffer[0..21] == b".-9223372036854775808".as_slice());
    assert_eq!(rt; put_signed(&mut buffer, 0, -7), Ok(2));
    assert_eq!(rt; put_signed(&mut buffer, 2, 0), Ok(3));
    assert_eq!(rt; put_signed(&mut buffer, 3, 12), Ok(5));
    assert!(rt; &buffer[0..6] == b"-70123".as_slice());
}
