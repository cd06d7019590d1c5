//! A text's lines end with LF; a CR before it is dropped, and the last line may lack its end. A line's words are
//! separated by spaces and tabs.

ghost use Rattle.std.specs.Prelude.{◌≡◌, ◌+◌, ◌<◌, ◌≤◌, ◌==◌, ◌||◌, not, [], ◌∷◌, length, drop};
ghost use Rattle.std.specs.List.{list_all, position_or_len, prefix_len, slice_index_or};
ghost use Rattle.std.specs.Str.Lines.{lines, strip_carriage_return};
ghost use Rattle.rds_script.specs.Text.{is_blank, is_end, is_text, words};
ghost use Rattle.rds_script.specs.Line.{is_named as named};

/// The first line of a text that isn't empty, and the text after it.
pub(crate) fn first_line(text: &[u8]) -> (&[u8], &[u8])
    requires { 0 < length text.now }
    ensures lines { lines text.now ≡ result.0.now ∷ lines result.1.now }
    ensures shorter { length result.1.now < length text.now }
{
    let end = line_end(text);
    if end == text.len() {
        return (text, &[]);
    }
    (without_return(&text[..end]), &text[end + 1..])
}

/// Where the first LF stands, or the length where there is none.
fn line_end(text: &[u8]) -> usize
    ensures place { result ≡ position_or_len is_end text.now }
    ensures within { result ≤ length text.now }
{
    text.iter().take_while(|b| **b != b'\n').count()
}

fn without_return(line: &[u8]) -> &[u8]
    ensures { result.now ≡ strip_carriage_return line.now }
{
    match line {
        [front @ .., b'\r'] => front,
        _ => line,
    }
}

/// Whether each byte is a tab or a printable character of ASCII. It looks at all of them, so that it can look at many at
/// once.
pub(crate) fn is_text_line(line: &[u8]) -> bool
    ensures { result ≡ list_all is_text line.now }
{
    let mut all = true;
    for byte in line {
        all &= is_text_byte(*byte);
    }
    all
}

fn is_text_byte(byte: u8) -> bool
    ensures { result ≡ is_text byte }
{
    byte == b'\t' || (byte >= 0x20 && byte <= 0x7e)
}

/// How many blanks a line begins with.
fn blanks(line: &[u8]) -> usize
    ensures count { result ≡ prefix_len is_blank line.now }
    ensures within { result ≤ length line.now }
{
    line.iter()
        .take_while(|b| **b == b' ' || **b == b'\t')
        .count()
}

/// Where the first blank stands, or the length where there is none.
fn word_end(line: &[u8]) -> usize
    ensures place { result ≡ position_or_len is_blank line.now }
    ensures within { result ≤ length line.now }
{
    line.iter()
        .take_while(|b| **b != b' ' && **b != b'\t')
        .count()
}

/// The first word of a line and what follows it; the word is empty where there is none.
pub(crate) fn first_word(line: &[u8]) -> (&[u8], &[u8])
    ensures word { result.0.now ≡ slice_index_or (words line.now) 0 [] }
    ensures rest { words result.1.now ≡ drop 1 (words line.now) }
    ensures none { length result.0.now ≡ 0 → words line.now ≡ [] }
    ensures shorter { length result.0.now + length result.1.now ≤ length line.now }
{
    let rest = &line[blanks(line)..];
    rest.split_at(word_end(rest))
}

/// Whether a first word is one: a line whose first word is empty or begins with # is skipped.
pub(crate) fn is_named(word: &[u8]) -> bool
    ensures { result ≡ named word.now }
{
    !word.is_empty() && word[0] != b'#'
}

/// Whether a line has so many words.
pub(crate) fn has_words(line: &[u8], count: usize) -> bool
    ensures { result ≡ (length (words line.now) == count) }
{
    let mut rest = line;
    'words: for _ in 0..count {
        let (word, after) = first_word(rest);
        if word.is_empty() {
            return false;
        }
        rest = after;
    }
    first_word(rest).0.is_empty()
}
