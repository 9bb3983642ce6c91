// Hexadecimal digits with capital letters.
ghost use Rattle.std.specs.Prelude.{◌≡◌, ◌<◌, ◌≤◌, length};
ghost use Rattle.symbols.specs.Hex.{hex_value, hex_digit, hex_number};

// The value of a digit.
fn hex_value(digit: u8) -> Option<u16>
    ensures { result ≡ hex_value digit }
{
    match digit {
        b'0'..=b'9' => Some((digit - b'0') as u16),
        b'A'..=b'F' => Some((digit - b'A' + 10) as u16),
        _ => None,
    }
}

// The number that up to four digits write.
pub(crate) fn hex_number(digits: &[u8]) -> Option<u16>
    requires { length digits.now ≤ 4 }
    ensures { result ≡ hex_number digits.now }
{
    let mut n: u16 = 0;
    for digit in digits {
        n = n * 16 + hex_value(*digit)?;
    }
    Some(n)
}

// The digit of a value.
pub(crate) fn hex_digit(v: u16) -> u8
    requires { v < 16 }
    ensures { result ≡ hex_digit v }
{
    if v < 10 {
        v as u8 + b'0'
    } else {
        v as u8 - 10 + b'A'
    }
}
