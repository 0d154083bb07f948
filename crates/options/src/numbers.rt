//! The numbers of options.

ghost use Rattle.std.specs.Prelude.{ℕ, MatchOption, option_map};
ghost use Rattle.options.specs.Values.{IsChosen, IsNumber, IsNumberIn};

/// The number that 1 to 10 decimal digits write; `None` where the text is no such number.
pub fn number(text: &str) -> Option<u64>
    ensures { MatchOption result ((n : ℕ) → IsNumber text.now n → ⊥) (IsNumber text.now) }
{
    if text.len() > 10 {
        return None;
    }
    if text.starts_with('+') {
        return None;
    }
    text.parse::<u64>().ok()
}

/// The same of a number from `least` to `most`.
pub fn number_in(text: &str, least: u32, most: u32) -> Option<u32>
    ensures { MatchOption result ((n : ℕ) → IsNumberIn least most text.now n → ⊥) (IsNumberIn least most text.now) }
{
    let value = number(text)?;
    if value < u64::from(least) || value > u64::from(most) {
        return None;
    }
    Some(value as u32)
}

/// The same of an option's text, or the default where there is none.
pub fn chosen(text: Option<&str>, default: u32, least: u32, most: u32) -> Option<u32>
    ensures { MatchOption result
        ((n : ℕ) → IsChosen default least most (option_map (λ s. s.now) text.entry) n → ⊥)
        (IsChosen default least most (option_map (λ s. s.now) text.entry)) }
{
    match text {
        None => Some(default),
        Some(text) => number_in(text, least, most),
    }
}
