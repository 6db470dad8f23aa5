ghost use Rattle.std.specs.Prelude.{◌≡◌, ◌≤◌, ◌+◌, ◌==◌, codes, MatchOption, Some, ⊤, true};
ghost use Rattle.std.specs.List.{list_all, list_any, slice_split};
ghost use Rattle.std.specs.Str.{bytes_eq};
ghost use Rattle.lvish_syntax.specs.Words.{is_digit, is_letter, is_name_byte, begins_name, is_reserved, is_name};
ghost use Rattle.lvish_checks.specs.Form.{is_number_word, number_spelled, value_of_number, is_bad_number};

use lvish_syntax::MOST_IN_NAME;

/// What digits may come to with one more behind them, and still be far from 64 bits.
const MOST_BEFORE_ONE_MORE: u64 = 100_000_000_000_000_000;

/// Whether a word is this text.
pub fn is(word: &[u8], text: &[u8]) -> bool
    ensures { result ≡ bytes_eq word.now text.now }
{
    word == text
}

fn is_digit(b: u8) -> bool
    ensures { result ≡ is_digit b }
{
    b >= b'0' && b <= b'9'
}

fn is_letter(b: u8) -> bool
    ensures { result ≡ is_letter b }
{
    (b >= b'A' && b <= b'Z') || (b >= b'a' && b <= b'z')
}

fn is_name_byte(b: u8) -> bool
    ensures { result ≡ is_name_byte b }
{
    is_letter(b) || is_digit(b) || b == b'_'
}

fn begins_name(word: &[u8]) -> bool
    ensures { result ≡ begins_name word.now }
{
    match word {
        [] => false,
        [b, ..] => is_letter(*b),
    }
}

fn has_name_bytes(word: &[u8]) -> bool
    ensures { result ≡ list_all is_name_byte word.now }
{
    for b in word {
        if !is_name_byte(*b) {
            return false;
        }
    }
    true
}

fn is_reserved_of_2(word: &[u8]) -> bool
    ensures { result ≡ list_any (λ r. bytes_eq r word.now) (slice_split (λ b. b == 32) (codes "in if")) }
{
    is(b"in", word) || is(b"if", word)
}

fn is_reserved_of_3(word: &[u8]) -> bool
    ensures { result ≡ list_any (λ r. bytes_eq r word.now) (slice_split (λ b. b == 32) (codes "set max map end let put get any has")) }
{
    is(b"set", word)
        || is(b"max", word)
        || is(b"map", word)
        || is(b"end", word)
        || is(b"let", word)
        || is(b"put", word)
        || is(b"get", word)
        || is(b"any", word)
        || is(b"has", word)
}

fn is_reserved_of_4(word: &[u8]) -> bool
    ensures { result ≡ list_any (λ r. bytes_eq r word.now) (slice_split (λ b. b == 32) (codes "cell pair pool proc fork call each else")) }
{
    is(b"cell", word)
        || is(b"pair", word)
        || is(b"pool", word)
        || is(b"proc", word)
        || is(b"fork", word)
        || is(b"call", word)
        || is(b"each", word)
        || is(b"else", word)
}

fn is_reserved_of_5(word: &[u8]) -> bool
    ensures { result ≡ list_any (λ r. bytes_eq r word.now) (slice_split (λ b. b == 32) (codes "least after while")) }
{
    is(b"least", word) || is(b"after", word) || is(b"while", word)
}

fn is_reserved_of_6(word: &[u8]) -> bool
    ensures { result ≡ list_any (λ r. bytes_eq r word.now) (slice_split (λ b. b == 32) (codes "handle freeze")) }
{
    is(b"handle", word) || is(b"freeze", word)
}

/// Whether a word is reserved: it is compared with those of its length alone, since each name of a
/// script comes here.
fn is_reserved(word: &[u8]) -> bool
    ensures { result ≡ is_reserved word.now }
{
    match word.len() {
        2 => is_reserved_of_2(word),
        3 => is_reserved_of_3(word),
        4 => is_reserved_of_4(word),
        5 => is_reserved_of_5(word),
        6 => is_reserved_of_6(word),
        _ => false,
    }
}

/// Whether a word is a name.
#[tactic(auto, unfolding(lvish_syntax::specs::Words::is_name))]
pub fn is_name(word: &[u8]) -> bool
    ensures { result ≡ is_name word.now }
{
    begins_name(word) && word.len() <= MOST_IN_NAME && has_name_bytes(word) && !is_reserved(word)
}

/// Whether a word is a number word, which may still be no number.
pub fn is_number_word(word: &[u8]) -> bool
    ensures { result ≡ is_number_word word.now }
{
    match word {
        [] => false,
        [b, rest @ ..] => is_digit(*b) || (*b == b'-' && !rest.is_empty()),
    }
}

/// The value of a digit.
fn digit(b: u8) -> u64
    requires { is_digit b ≡ true }
    ensures value { result + 48 ≡ b }
    ensures most { result ≤ 9 }
{
    u64::from(b - b'0')
}

/// The number that a few digits write, as nearly all number words are; `None` for any other word.
fn few_digits(word: &[u8]) -> Option<i64>
    ensures { MatchOption result ⊤ (λ n. number_spelled word.now ≡ Some n) }
{
    if word.is_empty() {
        return None;
    }
    let mut value = 0;
    for b in word {
        if !is_digit(*b) || value > MOST_BEFORE_ONE_MORE {
            return None;
        }
        value = value * 10 + digit(*b);
    }
    i64::try_from(value).ok()
}

/// The number that a word writes, if it is one within 64 bits.
pub fn number_of(word: &[u8]) -> Option<i64>
    ensures { result ≡ number_spelled word.now }
{
    match few_digits(word) {
        Some(number) => Some(number),
        None => number_by_text(word),
    }
}

/// The same, of any word.
fn number_by_text(word: &[u8]) -> Option<i64>
    ensures { result ≡ number_spelled word.now }
{
    if word.starts_with(b"+") {
        return None;
    }
    match str::from_utf8(word) {
        Ok(text) => text.parse().ok(),
        Err(_) => None,
    }
}

/// The value of a number word; 0 for one that is no number, which is a fault before its value is used.
pub fn value_of_number(word: &[u8]) -> i64
    ensures { result ≡ value_of_number word.now }
{
    number_of(word).unwrap_or(0)
}

/// Whether a word is a number word that is no number.
pub fn is_bad_number(word: &[u8]) -> bool
    ensures { result ≡ is_bad_number word.now }
{
    is_number_word(word) && number_of(word).is_none()
}
