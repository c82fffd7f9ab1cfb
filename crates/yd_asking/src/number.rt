//! Numbers among the words.

ghost use Rattle.std.specs.Prelude.{◌≡◌};
ghost use Rattle.yd_asking.specs.Table.{number_in, number_with};

use itoa::Buffer;

/// The number below this that the word writes, in decimal digits without a zero in front.
pub fn number_of(word: &str, end: u64) -> Option<u64>
    ensures { result ≡ number_in end word.now }
{
    match word.parse::<u64>() {
        Ok(number) => number_with(word, number, end),
        Err(_) => None,
    }
}

// The number, if it is below this and the word writes it so.
fn number_with(word: &str, number: u64, end: u64) -> Option<u64>
    ensures { result ≡ number_with end word.now number }
{
    if number >= end {
        return None;
    }
    let mut digits = Buffer::new();
    if word == digits.format(number) {
        return Some(number);
    }
    None
}
