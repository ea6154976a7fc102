// Names and cell words: which bytes are lawful, and when two are the same.
#![tactic(auto)]

ghost use Rattle.std.specs.Prelude.{◌≡◌, ℕ, ◌+◌, ◌-◌, ◌<◌, ◌≤◌, Bool, length};
ghost use Rattle.std.specs.List.{list_all};
ghost use Rattle.names.specs.Names.{letter, digit, name_byte, star, letter_first, starred, lawful_name, lawful_word, same_word};

pub mod keeping;
pub mod name;

// The most bytes of a name, and of a cell word.
pub const MAX_NAME: usize = 8;

// Whether a byte can begin a name.
pub fn is_letter(b: u8) -> bool
    ensures { result ≡ letter b }
{
    b.is_ascii_lowercase()
}

pub fn is_digit(b: u8) -> bool
    ensures { result ≡ digit b }
{
    b.is_ascii_digit()
}

// Whether a byte can go on with a name.
pub fn is_name_byte(b: u8) -> bool
    ensures { result ≡ name_byte b }
{
    is_letter(b) || is_digit(b)
}

// Whether a byte is one of those that may stand before the name in a cell word.
pub fn is_star(b: u8) -> bool
    ensures { result ≡ star b }
{
    b == b'*'
}

// Whether each byte can go on with a name.
fn are_name_bytes(s: &[u8]) -> bool
    ensures { result ≡ list_all name_byte s.now }
{
    s.iter().all(|b| is_name_byte(*b))
}

// Whether the bytes are letters or digits, the first a letter.
fn is_letter_first(s: &[u8]) -> bool
    ensures { result ≡ letter_first s.now }
{
    match s {
        [first, rest @ ..] => is_letter(*first) && are_name_bytes(rest),
        [] => false,
    }
}

// Whether the bytes are a name.
pub fn is_name(s: &[u8]) -> bool
    ensures { result ≡ lawful_name s.now }
{
    s.len() <= MAX_NAME && is_letter_first(s)
}

// Whether the bytes are some stars, or none, and then letters or digits, the first a letter.
fn is_starred(s: &[u8]) -> bool
    ensures { result ≡ starred s.now }
{
    match s {
        [first, rest @ ..] if is_star(*first) => is_starred(rest),
        _ => is_letter_first(s),
    }
}

// Whether the bytes are a cell word.
pub fn is_cell_word(s: &[u8]) -> bool
    ensures { result ≡ lawful_word s.now }
{
    s.len() <= MAX_NAME && is_starred(s)
}

// Whether two names, or two cell words, are the same.
pub fn is_same_word(a: &[u8], b: &[u8]) -> bool
    ensures { result ≡ same_word a.now b.now }
{
    a == b
}
