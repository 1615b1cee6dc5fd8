//! The words of a line.

ghost use Rattle.std.specs.Prelude.{◌≡◌, ◌<◌, ◌∷◌, ◌||◌, ◌==◌, [], length, position, IfSome, IfNone};
ghost use Rattle.opb_text.specs.Words.{is_space, is_comment, words_of};
ghost use Rattle.opb_tokens.specs.Breaks.{is_break};

/// Whether a byte is a space, a tab or a carriage return.
fn is_space(byte: u8) -> bool
    ensures { result ≡ is_space byte }
{
    byte == b' ' || byte == b'\t' || byte == b'\r'
}

/// Whether a line is a comment, which has no words.
pub fn is_comment(line: &[u8]) -> bool
    ensures { result ≡ is_comment line.now }
{
    matches!(line, [b'*', ..])
}

/// Where the first space or semicolon stands.
fn end_of_word(text: &[u8]) -> Option<usize>
    ensures { result ≡ position is_break text.now }
{
    text.iter().position(|b| is_space(*b) || *b == b';')
}

/// The word at the front of a text that begins with no space and no semicolon, and what follows it.
fn cut_word(text: &[u8]) -> (&[u8], &[u8])
    requires some { 0 < length text.now }
    requires begins { IfSome (position is_break text.now) (λ end. 0 < end) }
    ensures words { words_of text.now ≡ result.0.now ∷ words_of result.1.now }
    ensures shorter { length result.1.now < length text.now }
{
    match end_of_word(text) {
        Some(end) => (&text[..end], &text[end..]),
        None => (text, &[]),
    }
}

/// The first word of a line that is no comment, and what follows it; none where the line has no words.
pub fn first_word(line: &[u8]) -> Option<(&[u8], &[u8])>
    ensures first { IfSome result (λ parts. words_of line.now ≡ parts.0.now ∷ words_of parts.1.now) }
    ensures shorter { IfSome result (λ parts. length parts.1.now < length line.now) }
    ensures none { IfNone result (words_of line.now ≡ []) }
{
    let mut rest = line;
    while let [first, more @ ..] = rest {
        if *first == b';' {
            return Some((&rest[..1], more));
        }
        if !is_space(*first) {
            return Some(cut_word(rest));
        }
        rest = more;
    }
    None
}
