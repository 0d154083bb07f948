//! The front of a text: a word, a run of bytes, a number.

ghost use Rattle.std.specs.Prelude.{◌≡◌, ◌<◌, ◌≤◌, ◌^◌, ◌++◌, ◌∷◌, [], ℕ, true, false, List, MatchOption, length, slice_index};
ghost use Rattle.std.specs.Char.{is_ascii_digit};
ghost use Rattle.std.specs.Fmt.{decimal};
ghost use Rattle.report.specs.Report.{line_of};
ghost use Rattle.report.specs.Runs.{passes, fails, is_of};

/// Which bytes a run has: digits, or any but this one.
#[derive(Clone, Copy)]
pub enum Run {
    Digits,
    UpTo(u8),
}

impl Run {
    fn has(self, byte: u8) -> bool
        ensures { result ≡ is_of self byte }
    {
        match self {
            Run::Digits => byte.is_ascii_digit(),
            Run::UpTo(end) => byte != end,
        }
    }
}

/// The run at the front of a text, and the rest, which begins with a byte that is none of it. `None` where all bytes are of it.
pub fn split_run(text: &[u8], run: Run) -> Option<(&[u8], &[u8])>
    ensures { MatchOption result (passes (is_of run) text.now ≡ true)
        (λ parts. (text.now ≡ parts.0.now ++ parts.1.now) × (passes (is_of run) parts.0.now ≡ true) × (fails (is_of run) parts.1.now ≡ true)) }
{
    for (at, byte) in text.iter().enumerate() {
        if !run.has(*byte) {
            return Some(text.split_at(at));
        }
    }
    None
}

/// What stands behind a word at the front of a text.
pub fn behind<'a>(text: &'a [u8], word: &[u8]) -> Option<&'a [u8]>
    ensures { MatchOption result ((rest : List ℕ) → text.now ≡ word.now ++ rest → ⊥) (λ rest. text.now ≡ word.now ++ rest.now) }
{
    text.strip_prefix(word)
}

/// What stands in front of a word at the end of a text.
pub fn in_front<'a>(text: &'a [u8], word: &[u8]) -> Option<&'a [u8]>
    ensures { MatchOption result ((front : List ℕ) → text.now ≡ front ++ word.now → ⊥) (λ front. text.now ≡ front.now ++ word.now) }
{
    text.strip_suffix(word)
}

/// Whether there is a digit behind a zero at the front.
fn has_leading_zero(digits: &[u8]) -> bool
    ensures yes { result ≡ true → (1 < length digits.now) × (slice_index digits.now 0 ≡ 48) }
    ensures no { result ≡ false → slice_index digits.now 0 ≡ 48 → length digits.now ≤ 1 }
{
    digits.len() > 1 && digits[0] == b'0'
}

/// The number below 2^64 that a text is, in decimal without leading zeros.
pub fn value_of(digits: &[u8]) -> Option<u64>
    ensures { MatchOption result ((n : ℕ) → n < 2 ^ 64 → digits.now ≡ decimal n → ⊥) (λ n. (digits.now ≡ decimal n) × (n < 2 ^ 64)) }
{
    if let Some((_front, _rest)) = split_run(digits, Run::Digits) {
        return None;
    }
    if has_leading_zero(digits) {
        return None;
    }
    let Ok(shown) = str::from_utf8(digits) else {
        return None;
    };
    match shown.parse::<u64>() {
        Ok(value) => Some(value),
        Err(_) => None,
    }
}

/// The number below 2^64 at the front of a text, in decimal without leading zeros, and what stands behind its digits.
pub fn number(text: &[u8]) -> Option<(u64, &[u8])>
    ensures { MatchOption result
        ((n : ℕ) (rest : List ℕ) → n < 2 ^ 64 → fails is_ascii_digit rest ≡ true → text.now ≡ decimal n ++ rest → ⊥)
        (λ r. (fails is_ascii_digit r.1.now ≡ true) × (text.now ≡ decimal r.0 ++ r.1.now) × (r.0 < 2 ^ 64)) }
{
    let (digits, rest) = split_run(text, Run::Digits)?;
    let value = value_of(digits)?;
    Some((value, rest))
}

/// The same of a number below 2^32.
pub fn small_number(text: &[u8]) -> Option<(u32, &[u8])>
    ensures { MatchOption result
        ((n : ℕ) (rest : List ℕ) → n < 2 ^ 32 → fails is_ascii_digit rest ≡ true → text.now ≡ decimal n ++ rest → ⊥)
        (λ r. (fails is_ascii_digit r.1.now ≡ true) × (text.now ≡ decimal r.0 ++ r.1.now) × (r.0 < 2 ^ 32)) }
{
    let (value, rest) = number(text)?;
    if value > MOST {
        return None;
    }
    Some((value as u32, rest))
}

/// The greatest number below 2^32.
const MOST: u64 = 4_294_967_295;

/// Whether nothing but the newline of a line is left.
pub fn is_line_end(text: &[u8]) -> bool
    ensures yes { result ≡ true → text.now ≡ 10 ∷ [] }
    ensures no { result ≡ false → text.now ≡ 10 ∷ [] → ⊥ }
{
    matches!(text, [b'\n'])
}

/// The number below 2^32 that is all of a line.
pub fn last_number(text: &[u8]) -> Option<u32>
    ensures { MatchOption result ((n : ℕ) → n < 2 ^ 32 → text.now ≡ line_of (decimal n) → ⊥) (λ n. (text.now ≡ line_of (decimal n)) × (n < 2 ^ 32)) }
{
    let (value, rest) = small_number(text)?;
    if is_line_end(rest) { Some(value) } else { None }
}
