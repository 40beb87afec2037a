ghost use Rattle.std.specs.Prelude.{◌≡◌, ℕ, ◌<◌, ◌≤◌, length, if◌then◌else◌, Some, None, decimal};
ghost use Rattle.jobtext.specs.Numbers.{digits, value, plain, number_in};

/// Whether a word has 1 to 10 bytes, and no 0 in front but in "0" itself.
fn plain(word: &[u8]) -> bool
    ensures { result ≡ plain word.now }
{
    match word {
        [] | [b'0', _, ..] => false,
        _ => word.len() <= 10,
    }
}

/// The value of a word of at most 10 digits; None where a byte is no digit.
fn digits_value(word: &[u8]) -> Option<u64>
    requires { length word.now ≤ 10 }
    ensures { result ≡ (if digits word.now then Some (value 0 word.now) else None) }
{
    // By hand and in one pass: by the library's `from_utf8` and `parse` it takes twice as long.
    word.iter().try_fold(0, |number: u64, b| match b {
        b'0'..=b'9' => Some(10 * number + u64::from(b - b'0')),
        _ => None,
    })
}

/// The number of 32 bits that a word writes in decimal, if it writes one; a number's decimal is read back as that number.
pub fn read_number(word: &[u8]) -> Option<u32>
    ensures value { result ≡ number_in word.now }
    ensures back { (n : ℕ) → n < 4294967296 → word.now ≡ decimal n → result ≡ Some n }
{
    if !plain(word) {
        return None;
    }
    let number = digits_value(word)?;
    u32::try_from(number).ok()
}
