//! Decimal numbers in the words of a line.

ghost use Rattle.std.specs.Prelude.{◌≡◌};
ghost use Rattle.command.specs.Number.{decimal_number};

/// The number of a text of decimal digits. None if it is greater than `most`, or the text is empty or has another byte.
pub fn read_number(text: &[u8], most: u32) -> Option<u32>
    ensures { result ≡ decimal_number most text.now }
{
    if text.is_empty() {
        return None;
    }
    let mut number = 0;
    for byte in text {
        if !byte.is_ascii_digit() {
            return None;
        }
        let longer = u64::from(number) * 10 + u64::from(*byte - b'0');
        if longer > u64::from(most) {
            return None;
        }
        number = longer as u32;
    }
    Some(number)
}
