// Hexadecimal digits, bytes of two digits and words of eight.
ghost use Rattle.std.specs.Prelude.{◌≡◌, ◌/◌, ◌%◌, ◌<◌, length};
ghost use Rattle.lines.specs.Hex.{hex_value, hex_code, digit_of, no_digit, Hex, text, word_of, word_text, find};

// The value of a digit, 0 to 9 or A to F: upper case alone, which no method of a character says.
pub fn digit(c: char) -> Option<u8>
    ensures { result ≡ digit_of c }
{
    match c {
        '0'..='9' => Some(c as u8 - b'0'),
        'A'..='F' => Some(c as u8 - b'A' + 10),
        _ => None,
    }
}

// The value of a byte, and 16 where it is no digit: it is public, and callers may rest on the 16.
pub fn value(byte: u8) -> u8
    ensures { result ≡ hex_value byte }
{
    digit(byte as char).unwrap_or(16)
}

// The place of the first byte that is no digit.
pub fn first_no_digit(bytes: &[u8]) -> Option<usize>
    ensures { result ≡ find no_digit bytes.now }
{
    bytes.iter().position(|b| value(*b) > 15)
}

// The digit of the lowest four bits.
fn low(n: u32) -> u8
    ensures { result ≡ hex_code (n % 16) }
{
    let v = (n % 16) as u8;
    if v < 10 { b'0' + v } else { b'A' + (v - 10) }
}

// The two digits of a byte.
pub fn byte_digits(byte: u8) -> [u8; 2]
    ensures { result ≡ text 2 byte }
{
    let n = byte as u32;
    [low(n / 16), low(n)]
}

// The eight digits of a word.
pub fn word_digits(word: i32) -> [u8; 8]
    ensures { result ≡ word_text word }
{
    let [[a, b], [c, d], [e, f], [g, h]] = word.to_be_bytes().map(byte_digits);
    [a, b, c, d, e, f, g, h]
}

// The word that eight digits write.
#[tactic(auto, using(crate::proofs::Digits::word_steps))]
pub(crate) fn word(digits: &[u8]) -> i32
    requires eight { length digits.now ≡ 8 }
    requires hex { Hex digits.now }
    ensures { result ≡ word_of digits.now }
{
    let mut n: u32 = 0;
    for b in digits {
        n = n * 16 + value(*b) as u32;
    }
    n.cast_signed()
}
