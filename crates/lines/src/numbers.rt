// Numbers in decimal and hexadecimal, read from a text: those of a bench script (01 Bench cards), of a plan (02 j) and of a program's arguments. Any bytes are taken. Meaning: specs/Numbers.antt.
// Refusals: none; a text that spells no number is None.
ghost use Rattle.std.specs.Prelude.{◌≡◌, [], ◌∷◌};
ghost use Rattle.lines.specs.Numbers.{number_after, number_read, digit_value, hexadecimal_read};

// the most digits of a number below 2^64
const DIGITS_MOST: usize = 20;

// the most hexadecimal digits of a number below 2^64
const HEXADECIMAL_MOST: usize = 16;

// Gives the number below 2^64 that 1 to 20 decimal digits spell, zeros in front among them. Anything else is None.
// Tables: text is only read. Refusals: none.
pub fn read_decimal(text: &[u8]) -> Option<u64>
    ensures number { result ≡ number_read text.now }
{
    if text.is_empty() || text.len() > DIGITS_MOST {
        return None;
    }
    let mut value = 0;
    for byte in text {
        value = with_digit(value, *byte)?;
    }
    Some(value)
}

// Gives the number with one digit more, or None where the byte is no digit or the number does not fit.
fn with_digit(value: u64, byte: u8) -> Option<u64>
    ensures number { result ≡ number_after value (byte ∷ []) }
{
    if !byte.is_ascii_digit() {
        return None;
    }
    value.checked_mul(10)?.checked_add(u64::from(byte - b'0'))
}

// Gives the value of a hexadecimal digit in either case, or None of a byte that is none.
// Tables: none. Refusals: none.
pub fn read_digit(byte: u8) -> Option<u8>
    ensures value { result ≡ digit_value byte }
{
    let digit = char::from(byte).to_digit(16)?;
    Some(digit as u8)
}

// Another rule than that of `read_decimal`: so many digits always fit, and there the sum is asked.
// Gives the number that exactly so many hexadecimal digits spell, 1 to 16 of them, in either case. Anything else is None.
// Tables: text is only read. Refusals: none.
pub fn read_hexadecimal(text: &[u8], digits: usize) -> Option<u64>
    ensures number { result ≡ hexadecimal_read text.now digits }
{
    if text.len() != digits || digits == 0 || digits > HEXADECIMAL_MOST {
        return None;
    }
    let mut value = 0;
    for byte in text {
        let digit = read_digit(*byte)?;
        value = value * 16 + u64::from(digit);
    }
    Some(value)
}
