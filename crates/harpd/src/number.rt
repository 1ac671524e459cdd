//! Words that are numbers.

ghost use Rattle.std.specs.Prelude.{◌≡◌, ℕ, ◌<◌, ◌≤◌, ◌^◌, MatchOption, decimal};

use itoa::Buffer;

/// The number that a word is the decimal spelling of, without leading zeros.
fn number_of(word: &str) -> Option<u64>
    ensures { MatchOption result ((n : ℕ) → n < 2 ^ 64 → word.now ≡ decimal n → ⊥)
        (λ n. word.now ≡ decimal n) }
{
    let Ok(number) = word.parse::<u64>() else {
        return None;
    };
    let mut buffer = Buffer::new();
    if buffer.format(number) == word {
        Some(number)
    } else {
        None
    }
}

/// The number that a word spells, where it is from the least to the most.
pub fn number_within(word: &str, least: u64, most: u64) -> Option<u64>
    ensures { MatchOption result
        ((n : ℕ) → least ≤ n → n ≤ most → word.now ≡ decimal n → ⊥)
        (λ n. (least ≤ n) × (n ≤ most) × (word.now ≡ decimal n)) }
{
    let number = number_of(word)?;
    if number < least {
        return None;
    }
    if number > most {
        return None;
    }
    Some(number)
}
