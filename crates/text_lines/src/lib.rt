//! The lines of a text, cut off one after the other.
#![tactic(auto)]

ghost use Rattle.std.specs.Prelude.{◌≡◌, ◌==◌, ◌<◌, ◌∷◌, ◌++◌, length, position, IfSome, IfNone};
ghost use Rattle.text_lines.specs.Lines.{IsUnfed, without_return, lines_of, raw_lines_of};

mod fault;

pub use fault::Fault;

/// Where the first line feed stands.
fn line_feed(text: &[u8]) -> Option<usize>
    ensures { result ≡ position (λ b. b == 10) text.now }
{
    text.iter().position(|b| *b == b'\n')
}

/// What stands before the first line feed of a text and what follows it; nothing where there is no line feed.
fn cut(text: &[u8]) -> Option<(&[u8], &[u8])>
    ensures whole { IfSome result (λ parts. text.now ≡ parts.0.now ++ 10 ∷ parts.1.now) }
    ensures first { IfSome result (λ parts. IsUnfed parts.0.now) }
    ensures none { IfNone result (IsUnfed text.now) }
{
    match line_feed(text) {
        Some(end) => Some((&text[..end], &text[end + 1..])),
        None => None,
    }
}

/// A line without a carriage return at its end.
fn without_return(line: &[u8]) -> &[u8]
    ensures { result.now ≡ without_return line.now }
{
    match line {
        [before @ .., b'\r'] => before,
        _ => line,
    }
}

/// The first line of a text that is not empty, without the line feed that ends it and without a carriage return before
/// that, and what follows it.
pub fn first_line(text: &[u8]) -> (&[u8], &[u8])
    requires { 0 < length text.now }
    ensures first { lines_of text.now ≡ result.0.now ∷ lines_of result.1.now }
    ensures shorter { length result.1.now < length text.now }
{
    let Some((line, rest)) = cut(text) else {
        return (text, &[]);
    };
    (without_return(line), rest)
}

/// The same where a carriage return is a byte like others.
pub fn first_raw_line(text: &[u8]) -> (&[u8], &[u8])
    requires { 0 < length text.now }
    ensures first { raw_lines_of text.now ≡ result.0.now ∷ raw_lines_of result.1.now }
    ensures shorter { length result.1.now < length text.now }
{
    match cut(text) {
        Some(parts) => parts,
        None => (text, &[]),
    }
}
