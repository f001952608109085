//! The bytes for which a word stands.
ghost use Rattle.std.specs.Prelude.{◌≡◌, ◌<◌, ◌≤◌, None, length, IsTrue, IfOk, IfSome, MatchOption, option_map};
ghost use Rattle.std.specs.Cow.{cow_slice_items};
ghost use Rattle.frs_text.specs.Scripts.{is_hex, hex_value, with_byte, escape_meaning, word_meaning, name_meaning};

use frs_types::NoMemory;
use std::alloc::Global;
use std::borrow::CowSlice;

fn is_hex_digit(byte: u8) -> bool
    ensures { result ≡ is_hex byte }
{
    (byte >= b'0' && byte <= b'9')
        || (byte >= b'A' && byte <= b'F')
        || (byte >= b'a' && byte <= b'f')
}

fn digit_value(digit: u8) -> u8
    requires { IsTrue (is_hex digit) }
    ensures value { result ≡ hex_value digit }
    ensures small { result < 16 }
{
    if digit <= b'9' {
        digit - b'0'
    } else if digit <= b'F' {
        digit - (b'A' - 10)
    } else {
        digit - (b'a' - 10)
    }
}

// The first byte for which a word stands, and what is behind its spelling. None: a `%` has no two digits behind it.
fn next_byte(word: &[u8]) -> Option<(u8, &[u8])>
    requires { 0 < length word.now }
    ensures found { MatchOption result (escape_meaning word.now ≡ None)
        (λ found. escape_meaning word.now ≡ with_byte found.0 (escape_meaning found.1.now)) }
    ensures shorter { IfSome result (λ found. length found.1.now < length word.now) }
{
    if word[0] != b'%' {
        return Some((word[0], &word[1..]));
    }
    if word.len() < 3 {
        return None;
    }
    let (high, low) = (word[1], word[2]);
    if !is_hex_digit(high) || !is_hex_digit(low) {
        return None;
    }
    let byte = 16 * digit_value(high) + digit_value(low);
    Some((byte, &word[3..]))
}

// The bytes for which a word stands that isn't `%` alone. None: a `%` has no two digits behind it.
fn unescape(alloc: Global, word: &[u8]) -> Result<Option<Vec<u8>>, NoMemory>
    ensures { IfOk result (λ found. option_map (λ v. v.items) found ≡ escape_meaning word.now) }
{
    let mut bytes = Vec::new(alloc);
    let mut rest = word;
    while !rest.is_empty() {
        let Some((byte, behind)) = next_byte(rest) else {
            return Ok(None);
        };
        bytes.push(byte)?;
        rest = behind;
    }
    Ok(Some(bytes))
}

/// The bytes for which a word stands. A word without `%` is not copied.
pub(crate) fn meaning(alloc: Global, word: &[u8]) -> Result<Option<CowSlice<'_, u8>>, NoMemory>
    ensures { IfOk result (λ found. option_map cow_slice_items found ≡ word_meaning word.now) }
{
    if !word.contains(&b'%') {
        return Ok(Some(CowSlice::Borrowed(word)));
    }
    if word == b"%".as_slice() {
        return Ok(Some(CowSlice::Borrowed(&word[..0])));
    }
    Ok(unescape(alloc, word)?.map(|bytes| CowSlice::Owned(bytes)))
}

/// The same of an id or a key, which has at least one byte.
pub(crate) fn name_meaning(alloc: Global, word: &[u8]) -> Result<Option<CowSlice<'_, u8>>, NoMemory>
    ensures found { IfOk result (λ found. option_map cow_slice_items found
        ≡ name_meaning word.now) }
    ensures filled { IfOk result (λ found. IfSome found
        (λ bytes. 1 ≤ length (cow_slice_items bytes))) }
{
    match meaning(alloc, word)? {
        Some(bytes) if bytes.len() > 0 => Ok(Some(bytes)),
        _ => Ok(None),
    }
}
