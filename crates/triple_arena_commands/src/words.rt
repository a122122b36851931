//! Numbers and links, read from the front of a line.

ghost use Rattle.std.specs.Prelude.{◌≡◌, ◌==◌, ◌+◌, ◌^◌, ◌<◌, ◌≤◌, ◌++◌, ◌∷◌, ℕ, List, false, length, take, slice_index, IfSome, IfNone};
ghost use Rattle.std.specs.Char.{is_ascii_digit};
ghost use Rattle.std.specs.List.{list_any};
ghost use Rattle.std.specs.Option.{option_copied};
ghost use Rattle.std.specs.Str.Parse.{AllDigits, digits_value};
ghost use Rattle.triple_arena_commands.specs.Lines.{words_of, parts_after};
ghost use Rattle.triple_arena_commands.specs.CommandText.{number_of, link_of};
ghost use Rattle.triple_arena_commands.specs.Words.{FirstIs, FirstIsNone};

/// The link that the first word of a line writes, a dash for none, and what follows the word.
pub(crate) fn read_link(line: &[u8]) -> Option<(Option<usize>, Option<&[u8]>)>
    ensures some { IfSome result (λ r. FirstIs link_of line.now r.0 (option_copied r.1)) }
    ensures none { IfNone result (FirstIsNone link_of line.now) }
{
    if !line.is_empty() && line[0] == b'-' {
        let rest = after_word(line, 1)?;
        return Some((None, rest));
    }
    let (name, rest) = read_number(line)?;
    Some((Some(name as usize), rest))
}

/// The number that the first word of a line writes, and what follows the word.
pub(crate) fn read_number(line: &[u8]) -> Option<(u64, Option<&[u8]>)>
    ensures some { IfSome result (λ r. FirstIs number_of line.now r.0 (option_copied r.1)) }
    ensures none { IfNone result (FirstIsNone number_of line.now) }
{
    let (number, count) = read_digits(line)?;
    if count == 0 {
        return None;
    }
    let rest = after_word(line, count)?;
    Some((number, rest))
}

/// The link that a word writes, a dash for none.
pub(crate) fn parse_link(word: &[u8]) -> Option<Option<usize>>
    ensures { result ≡ link_of word.now }
{
    if word == b"-".as_slice() {
        return Some(None);
    }
    Some(Some(parse_number(word)? as usize))
}

/// The number that a word writes.
pub(crate) fn parse_number(word: &[u8]) -> Option<u64>
    ensures { result ≡ number_of word.now }
{
    let (number, count) = read_digits(word)?;
    if count == 0 || count < word.len() {
        return None;
    }
    Some(number)
}

// The number that the digits at the front write, and how many they are. `None` where it is above
// `u64::MAX`.
fn read_digits(text: &[u8]) -> Option<(u64, usize)>
    ensures within { IfSome result (λ r. r.1 ≤ length text.now) }
    ensures digits { IfSome result (λ r. AllDigits 10 (take r.1 text.now)) }
    ensures value { IfSome result (λ r. digits_value 10 (take r.1 text.now) ≡ r.0) }
    ensures end { IfSome result
        (λ r. r.1 < length text.now → is_ascii_digit (slice_index text.now r.1) ≡ false) }
    ensures large { IfNone result ((count : ℕ) × (count ≤ length text.now)
        × AllDigits 10 (take count text.now) × (2 ^ 64 ≤ digits_value 10 (take count text.now))) }
{
    let (mut number, mut count) = read_front(text);
    'digits: while count < text.len() && text[count].is_ascii_digit() {
        let digit = (text[count] - b'0') as u64;
        number = number.checked_mul(10)?.checked_add(digit)?;
        count += 1;
    }
    Some((number, count))
}

// The number of the digits at the front, or of the first 19 where there are more, and how many it was made of.
// So many write a number below 10 ^ 19, which needs no test for one that is too large.
fn read_front(text: &[u8]) -> (u64, usize)
    ensures within { result.1 ≤ length text.now }
    ensures digits { AllDigits 10 (take result.1 text.now) }
    ensures value { digits_value 10 (take result.1 text.now) ≡ result.0 }
{
    let mut number = 0u64;
    let mut count = 0;
    let most = text.len().min(19);
    'digits: while count < most && text[count].is_ascii_digit() {
        number = number * 10 + (text[count] - b'0') as u64;
        count += 1;
    }
    (number, count)
}

// What follows the first word of a line, where that is just so many bytes: `None` inside where nothing does.
fn after_word(line: &[u8], size: usize) -> Option<Option<&[u8]>>
    requires { (size ≤ length line.now) × (list_any (λ byte. byte == 32) (take size line.now) ≡ false) }
    ensures some { IfSome result (λ rest.
        words_of line.now ≡ take size line.now ∷ parts_after 32 (option_copied rest)) }
    ensures none { IfNone result ((more : List ℕ) × (words : List (List ℕ)) × (size < length line.now)
        × (words_of line.now ≡ (take size line.now ++ slice_index line.now size ∷ more) ∷ words)) }
{
    if size == line.len() {
        Some(None)
    } else if line[size] == b' ' {
        Some(Some(&line[size + 1..]))
    } else {
        None
    }
}
