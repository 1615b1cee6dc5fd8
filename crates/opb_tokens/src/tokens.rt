//! Tokens.

ghost use Rattle.std.specs.Prelude.{◌≡◌, ◌<◌, ◌^◌, ◌∷◌, List, if◌then◌else◌};
ghost use Rattle.number_texts.specs.Read.{signed};
ghost use Rattle.number_texts.specs.Form.{is_minus, unsigned, number};
ghost use Rattle.opb_text.specs.Tokens.{is_name, is_negated, is_whole, number_token, literal_token, token_of};
ghost use Rattle.opb_text.specs.Tokens as texts;
ghost use Rattle.opb_text.specs.Statements.{last_number};
ghost use Rattle.opb_text.specs.Reading.{is_literal, plain_fault};
ghost use Rattle.opb_tokens.specs.Texts.{text_token};

use fractions::whole::Whole;
use number_texts::form::{is_digits, number, sign};
use opb_text::OpbFaultKind;

/// What a word is.
#[derive(Clone, Copy)]
pub enum Token<'a> {
    /// `min:`
    Minimum,
    /// `>=`
    AtLeast,
    /// `=`
    Equal,
    /// The semicolon at the end of a statement.
    End,
    /// A whole number.
    Number(Whole),
    /// A whole number past the range.
    Past,
    /// A literal that is a column, by its name.
    Plain(&'a [u8]),
    /// A literal that is 1 less a column, by the column's name.
    Negated(&'a [u8]),
    /// None of these.
    Odd,
}

impl Token<'_> {
    /// Whether it is a literal.
    pub fn is_literal(&self) -> bool
        ensures { result ≡ is_literal (text_token self.now) }
    {
        matches!(self, Token::Plain(_) | Token::Negated(_))
    }

    /// The number that it is, and 0 where it is none.
    pub fn number(&self) -> Whole
        ensures { (before : List texts.Token) → result ≡ last_number (text_token self.now ∷ before) }
    {
        match self {
            Token::Number(value) => *value,
            _ => Whole::natural(0),
        }
    }

    /// What is wrong with it by itself, or behind a literal.
    pub fn fault(&self, after_literal: bool) -> Option<OpbFaultKind>
        ensures { result ≡ plain_fault after_literal (text_token self.now) }
    {
        match self {
            Token::Odd => Some(OpbFaultKind::BadToken),
            Token::Past => Some(OpbFaultKind::NumberPast),
            Token::Plain(_) | Token::Negated(_) if after_literal => Some(OpbFaultKind::Product),
            _ => None,
        }
    }
}

/// Whether a word is a column's name: `x` and digits.
fn is_name(word: &[u8]) -> bool
    ensures { result ≡ is_name word.now }
{
    match word {
        [b'x', digits @ ..] => is_digits(digits),
        _ => false,
    }
}

/// The literal that a word is.
fn literal(word: &[u8]) -> Token<'_>
    ensures { text_token result ≡ literal_token word.now }
{
    if is_name(word) {
        return Token::Plain(word);
    }
    match word {
        [b'~', name @ ..] if is_name(name) => Token::Negated(name),
        _ => Token::Odd,
    }
}

/// The number of so many digits below 2^127, with its sign.
fn whole(negative: bool, size: u128) -> Whole
    requires { size < 2 ^ 127 }
    ensures { result ≡ signed negative size }
{
    if negative {
        Whole::natural(size).negated()
    } else {
        Whole::natural(size)
    }
}

/// The number or the literal that a word is.
fn number_or_literal(word: &[u8]) -> Token<'_>
    ensures { text_token result ≡ (if is_whole word.now then number_token (is_minus word.now) (number (unsigned word.now)) else literal_token word.now) }
{
    let (negative, digits) = sign(word);
    if !is_digits(digits) {
        return literal(word);
    }
    match number(digits, 1 << 127) {
        Some(size) => Token::Number(whole(negative, size)),
        None => Token::Past,
    }
}

/// The token that a word is.
pub fn read_token(word: &[u8]) -> Token<'_>
    ensures { text_token result ≡ token_of word.now }
{
    if word == b";".as_slice() {
        Token::End
    } else if word == b"min:".as_slice() {
        Token::Minimum
    } else if word == b">=".as_slice() {
        Token::AtLeast
    } else if word == b"=".as_slice() {
        Token::Equal
    } else {
        number_or_literal(word)
    }
}
