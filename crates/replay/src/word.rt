// The words of a line: numbers in capital hexadecimal digits.
ghost use Rattle.std.specs.Prelude.{◌≡◌, ◌+◌, ◌*◌, ◌/◌, ◌%◌, ◌<◌, IfSome};
ghost use Rattle.replay.specs.Word.{digit_of, value_of};

// The value of a digit. (`char::to_digit` takes small letters too, and `from_str_radix` a sign as well: no
// line has them.)
fn digit(b: u8) -> Option<u64>
    ensures is { result ≡ digit_of b }
    ensures small { IfSome result (λ d. d < 16) }
{
    match b {
        b'0'..=b'9' => Some((b - b'0').into()),
        b'A'..=b'F' => Some((b - b'A' + 10).into()),
        _ => None,
    }
}

// The number of a word of at most 16 digits. Of none it is 0.
pub fn value(word: &[u8]) -> Option<u64>
    ensures { result ≡ value_of word.now }
{
    if word.len() > 16 {
        return None;
    }
    let mut value = 0;
    for b in word {
        value = 16 * value + digit(*b)?;
    }
    Some(value)
}

// The number that two decimal digits are as a word: a line tells a refusal's number by them.
pub fn in_decimal(number: u32) -> u64
    ensures { result ≡ 16 * (number / 10) + number % 10 }
{
    let number = u64::from(number);
    16 * (number / 10) + number % 10
}
