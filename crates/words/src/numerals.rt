// Numbers as a script writes them: one to five digits, with no leading zero but 0 itself.
ghost use Rattle.std.specs.Prelude.{◌≡◌, ◌≤◌, length};
ghost use Rattle.words.specs.Numerals.{onward, numeral};

pub const MAX_DIGITS: usize = 5;

// The number that the word writes, if it writes one.
pub fn read_number(word: &[u8]) -> Option<u32>
    ensures { result ≡ numeral word.now }
{
    match word {
        [] | [b'0', _, ..] => None,
        _ if word.len() > MAX_DIGITS => None,
        _ => digits_value(word),
    }
}

// The number that at most five bytes write, if they are digits.
fn digits_value(word: &[u8]) -> Option<u32>
    requires { length word.now ≤ 5 }
    ensures { result ≡ onward 0 word.now }
{
    // No `try_fold`: its closure would have to show for any value that the sum fits.
    let mut value = 0;
    for byte in word {
        value = value * 10 + char::from(*byte).to_digit(10)?;
    }
    Some(value)
}
