// The length of the word at the front of a text, or how many bytes one could begin with.
ghost use Rattle.std.specs.Prelude.{◌≡◌, ℕ, ◌≤◌, Bool, length};
ghost use Rattle.std.specs.Result.{MatchResult};
ghost use Rattle.sheets.specs.Sheet.{Name, CellWord, Delay};
ghost use Rattle.sheets.specs.Recogniser.{Item};
ghost use Rattle.grammar.specs.Fronts.{ByteFront, Front, WordFront, NoWordFront};

use names::{is_digit, is_letter, is_name_byte, is_star};

// How many bytes at the front pass the test, at most so many.
fn front_len<F: Fn(u8) -> bool>(s: &[u8], most: usize, test: F) -> usize
    requires { F.IsAlwaysCallable test }
    ensures few { result ≤ most }
    ensures within { result ≤ length s.now }
    ensures front { (passes : ℕ → Bool) → ((b : ℕ) (r : Bool) → F.post test b r → r ≡ passes b) → Front passes most s.now result }
{
    s.iter().take(most).take_while(|b| test(**b)).count()
}

// The length of this byte, where it is the first.
pub(crate) fn byte_len(s: &[u8], byte: u8) -> Result<usize, usize>
    ensures { ByteFront byte s.now result }
{
    if s.first() == Some(&byte) {
        Ok(1)
    } else {
        Err(0)
    }
}

pub(crate) fn name_len(s: &[u8]) -> Result<usize, usize>
    ensures { MatchResult result (λ n. WordFront Name Item.name s.now n) (λ k. NoWordFront Item.name s.now k) }
{
    match s {
        [first, rest @ ..] if is_letter(*first) => Ok(1 + front_len(rest, 7, is_name_byte)),
        _ => Err(0),
    }
}

pub(crate) fn cell_word_len(s: &[u8]) -> Result<usize, usize>
    ensures { MatchResult result (λ n. WordFront CellWord (Item.word 7) s.now n) (λ k. NoWordFront (Item.word 7) s.now k) }
{
    let n = front_len(s, 7, is_star);
    match &s[n..] {
        [first, rest @ ..] if is_letter(*first) => Ok(n + 1 + front_len(rest, 7 - n, is_name_byte)),
        _ => Err(n),
    }
}

pub(crate) fn delay_len(s: &[u8]) -> Result<usize, usize>
    ensures { MatchResult result (λ n. WordFront Delay Item.delay s.now n) (λ k. NoWordFront Item.delay s.now k) }
{
    match s {
        [b'0', ..] => Ok(1),
        [first, rest @ ..] if is_digit(*first) => Ok(1 + front_len(rest, 6, is_digit)),
        _ => Err(0),
    }
}
