// Numbers and bytes in digits.
ghost use Rattle.std.specs.Prelude.{◌≡◌, ◌/◌, ◌%◌, ◌∷◌, length, decimal};
ghost use Rattle.line.specs.Digits.{hex_text};

use itoa::Buffer;

const HEX_DIGITS: &[u8; 16] = b"0123456789abcdef";

/// How many digits `n` has.
pub fn count_digits(n: u64) -> usize
    ensures { result ≡ length (decimal n) }
{
    Buffer::new().format(n).len()
}

// The two hexadecimal digits of a byte.
pub(crate) fn hex_digits(byte: u8) -> [u8; 2]
    ensures { result ≡ hex_text byte }
{
    [
        HEX_DIGITS[usize::from(byte / 16)],
        HEX_DIGITS[usize::from(byte % 16)],
    ]
}
