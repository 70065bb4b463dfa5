// The numbers of a rule file: decimal, or hexadecimal after `0x`; signed ones may begin with `-`.
// Linear in the word's length; a number past its limit is refused at the digit that passes it.
ghost use Rattle.std.specs.Prelude.{◌≡◌, ◌≤◌, pos, neg_ℤ};
ghost use Rattle.rulefile.specs.Numbers.{digit_of, digits_up_to, unsigned_up_to, signed_up_to};

// The value of a digit in base 10 or 16.
fn digit(base: u64, byte: u8) -> Option<u64>
    requires { base ≤ 16 }
    ensures { result ≡ digit_of base byte }
{
    let value = match byte {
        b'0'..=b'9' => byte - b'0',
        b'a'..=b'f' => byte - b'a' + 10,
        b'A'..=b'F' => byte - b'A' + 10,
        _ => return None,
    };
    let value = u64::from(value);
    (value < base).then_some(value)
}

// What digits stand for, where that is at most `limit`.
fn digits(base: u64, word: &[u8], limit: u32) -> Option<u32>
    requires { (1 ≤ base) × (base ≤ 16) }
    ensures { result ≡ digits_up_to base limit word.now }
{
    if word.is_empty() {
        return None;
    }
    let mut value: u64 = 0;
    for byte in word {
        let next = digit(base, *byte)?;
        value = value * base + next;
        if value > u64::from(limit) {
            return None;
        }
    }
    Some(value as u32)
}

// A number from 0 to `limit`.
pub(crate) fn unsigned(word: &[u8], limit: u32) -> Option<u32>
    ensures { result ≡ unsigned_up_to limit word.now }
{
    match word {
        [b'0', b'x', hexadecimal @ ..] => digits(16, hexadecimal, limit),
        _ => digits(10, word, limit),
    }
}

// A number of 16 bits. This and the signed two below are a line each with a cast that is proved to lose nothing: one function over
// `TryFrom` is no shorter, and adds a refusal that cannot come.
pub(crate) fn number16(word: &[u8]) -> Option<u16>
    ensures { result ≡ unsigned_up_to 65535 word.now }
{
    unsigned(word, 65535).map(|value| value as u16)
}

// A number below zero, from its distance to zero.
fn minus(size: u32) -> i32
    requires { size ≤ 65536 }
    ensures { result ≡ neg_ℤ (pos size) }
{
    -(size as i32)
}

// A number from -(limit + 1) to `limit`.
fn signed(word: &[u8], limit: u16) -> Option<i32>
    ensures { result ≡ signed_up_to limit word.now }
{
    match word {
        [b'-', size @ ..] => unsigned(size, u32::from(limit) + 1).map(minus),
        _ => unsigned(word, u32::from(limit)).map(|size| size as i32),
    }
}

// A signed number of 16 bits.
pub(crate) fn signed16(word: &[u8]) -> Option<i16>
    ensures { result ≡ signed_up_to 32767 word.now }
{
    signed(word, 32767).map(|value| value as i16)
}

// A signed number of 8 bits.
pub(crate) fn signed8(word: &[u8]) -> Option<i8>
    ensures { result ≡ signed_up_to 127 word.now }
{
    signed(word, 127).map(|value| value as i8)
}
