//! How a source is cut into lines, and a line into words.
ghost use Rattle.std.specs.Prelude.{◌≡◌, ◌+◌, ◌<◌, ◌≤◌, [], ◌∷◌, MatchOption, length};
ghost use Rattle.std.specs.List.{position_or_len};
ghost use Rattle.std.specs.Str.Lines.{strip_carriage_return};
ghost use Rattle.pb_script.specs.Words.{is_line_end, is_blank, is_field_byte, lines, words};

/// The first line of a source, and what stands after it.
pub fn cut_line(source: &[u8]) -> (&[u8], &[u8])
    requires { 0 < length source.now }
    ensures cut { lines source.now ≡ result.0.now ∷ lines result.1.now }
    ensures shorter { length result.1.now < length source.now }
    ensures within { length result.0.now ≤ length source.now }
{
    let (line, rest) = source.split_at(line_len(source));
    match rest {
        [] => (line, rest),
        _ => (line, rest.split_at(1).1),
    }
}

/// A line without the one CR at its end, if it has one.
pub fn without_return(line: &[u8]) -> &[u8]
    ensures { result.now ≡ strip_carriage_return line.now }
{
    match line {
        [prefix @ .., b'\r'] => prefix,
        _ => line,
    }
}

/// The first word of a text and what stands after it, if it has a word.
pub fn cut_word(text: &[u8]) -> Option<(&[u8], &[u8])>
    ensures { MatchOption result (words text.now ≡ []) (λ cut. words text.now ≡ cut.0.now ∷ words cut.1.now) }
{
    let text = text.split_at(blanks_len(text)).1;
    if text.is_empty() {
        return None;
    }
    Some(text.split_at(word_len(text)))
}

fn line_len(text: &[u8]) -> usize
    ensures len { result ≡ position_or_len is_line_end text.now }
    ensures within { result ≤ length text.now }
{
    text.iter()
        .position(|byte| *byte == b'\n')
        .unwrap_or(text.len())
}

fn blanks_len(text: &[u8]) -> usize
    ensures len { result ≡ position_or_len is_field_byte text.now }
    ensures within { result ≤ length text.now }
{
    text.iter()
        .position(|byte| *byte != b' ' && *byte != b'\t')
        .unwrap_or(text.len())
}

fn word_len(text: &[u8]) -> usize
    ensures len { result ≡ position_or_len is_blank text.now }
    ensures within { result ≤ length text.now }
{
    text.iter()
        .position(|byte| *byte == b' ' || *byte == b'\t')
        .unwrap_or(text.len())
}
