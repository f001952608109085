//! The lines of a file, and the words of a line.
ghost use Rattle.std.specs.Prelude.{◌≡◌, ◌==◌, ◌<◌, [], ◌∷◌, Some, None, length, not, position, MatchOption};
ghost use Rattle.std.specs.List.{position_or_len};
ghost use Rattle.std.specs.Str.Lines.{lines, strip_carriage_return};
ghost use Rattle.frs_text.specs.Scripts.{is_blank, words_of, one, two, three};

fn without_return(line: &[u8]) -> &[u8]
    ensures { result.now ≡ strip_carriage_return line.now }
{
    match line {
        [front @ .., b'\r'] => front,
        _ => line,
    }
}

// The place of the first line feed.
fn feed_at(bytes: &[u8]) -> Option<usize>
    ensures { result ≡ position (λ b. b == 10) bytes.now }
{
    bytes.iter().position(|byte| *byte == b'\n')
}

/// The first line, and what stands behind its line feed.
pub(crate) fn first_line(bytes: &[u8]) -> (&[u8], &[u8])
    requires { 0 < length bytes.now }
    ensures lines { lines bytes.now ≡ result.0.now ∷ lines result.1.now }
    ensures shorter { length result.1.now < length bytes.now }
{
    match feed_at(bytes) {
        None => (bytes, &bytes[..0]),
        Some(end) => (without_return(&bytes[..end]), &bytes[end + 1..]),
    }
}

fn is_blank_byte(byte: u8) -> bool
    ensures { result ≡ is_blank byte }
{
    byte == b' ' || byte == b'\t'
}

// The place of the first byte that is no blank.
fn filled_at(line: &[u8]) -> Option<usize>
    ensures { result ≡ position (λ b. not (is_blank b)) line.now }
{
    line.iter().position(|byte| *byte != b' ' && *byte != b'\t')
}

// The place of the first blank.
fn blank_at(line: &[u8]) -> Option<usize>
    ensures { result ≡ position is_blank line.now }
{
    line.iter().position(|byte| is_blank_byte(*byte))
}

/// The first word, and what stands behind it.
pub(crate) fn next_word(line: &[u8]) -> Option<(&[u8], &[u8])>
    ensures { MatchOption result (words_of line.now ≡ [])
        (λ found. words_of line.now ≡ found.0.now ∷ words_of found.1.now) }
{
    let start = filled_at(line)?;
    let line = &line[start..];
    match blank_at(line) {
        None => Some((line, &line[..0])),
        Some(end) => Some((&line[..end], &line[end..])),
    }
}

/// The only word.
pub(crate) fn one_word(line: &[u8]) -> Option<&[u8]>
    ensures { MatchOption result (one (words_of line.now) ≡ None)
        (λ word. one (words_of line.now) ≡ Some word.now) }
{
    let (word, rest) = next_word(line)?;
    if next_word(rest).is_some() {
        return None;
    }
    Some(word)
}

/// The two words, where there are two.
pub(crate) fn two_words(line: &[u8]) -> Option<(&[u8], &[u8])>
    ensures { MatchOption result (two (words_of line.now) ≡ None)
        (λ words. two (words_of line.now) ≡ Some (words.0.now, words.1.now)) }
{
    let (first, rest) = next_word(line)?;
    let second = one_word(rest)?;
    Some((first, second))
}

/// The three words, where there are three.
pub(crate) fn three_words(line: &[u8]) -> Option<(&[u8], &[u8], &[u8])>
    ensures { MatchOption result (three (words_of line.now) ≡ None)
        (λ words. three (words_of line.now) ≡ Some (words.0.now, words.1.now, words.2.now)) }
{
    let (first, rest) = next_word(line)?;
    let (second, third) = two_words(rest)?;
    Some((first, second, third))
}
