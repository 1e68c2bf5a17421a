// One pair of characters of a hex capture.
ghost use Rattle.std.specs.Prelude.{◌≡◌, ◌<◌, IfSome};
ghost use Rattle.cells.specs.Hex.{hex_digit, pair_of};

/// What a pair of characters says. An enum of its own, and no Option: `--` says something, and `None` is no pair.
#[derive(Clone, Copy)]
pub enum Pair {
    // two hexadecimal digits, and their byte
    Digits(u8),
    // `--`, a lost cell
    Dashes,
}

// The value of a hexadecimal digit of either case. By ranges: `to_digit`, which serves every base,
// takes a tenth more instructions for letters.
fn hex_digit(c: u8) -> Option<u8>
    ensures value { result ≡ hex_digit c }
    ensures small { IfSome result (λ d. d < 16) }
{
    match c {
        b'0'..=b'9' => Some(c - b'0'),
        b'a'..=b'f' => Some(c - b'a' + 10),
        b'A'..=b'F' => Some(c - b'A' + 10),
        _ => None,
    }
}

/// The pair that two characters are, unless it is bad.
pub fn read_pair(x: u8, y: u8) -> Option<Pair>
    ensures { result ≡ pair_of x y }
{
    if x == b'-' && y == b'-' {
        return Some(Pair::Dashes);
    }
    match (hex_digit(x), hex_digit(y)) {
        (Some(high), Some(low)) => Some(Pair::Digits(high * 16 + low)),
        _ => None,
    }
}
