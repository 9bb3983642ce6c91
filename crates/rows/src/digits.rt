// The number that digits of a line write.
ghost use Rattle.std.specs.Prelude.{◌≡◌, ◌^◌, ◌<◌};
ghost use Rattle.rows.specs.Entries.{digit_of, Digit, decimal};

// The digit at a place.
fn digit_of(line: &[u8], at: usize) -> Option<usize>
    ensures value { result ≡ digit_of line.now at }
    ensures small { Digit result }
{
    match line.get(at)? {
        digit @ b'0'..=b'9' => Some((*digit - b'0') as usize),
        _ => None,
    }
}

// The number that the digits at a place write, of which four count.
pub fn decimal(line: &[u8], at: usize) -> usize
    requires { at < 2 ^ 34 }
    ensures { result ≡ decimal line.now at }
{
    let mut number = 0;
    for place in at..at + 4 {
        let Some(digit) = digit_of(line, place) else {
            break;
        };
        number = number * 10 + digit;
    }
    number
}
