//! The parts of a number's text.

ghost use Rattle.std.specs.Prelude.{◌≡◌, ◌^◌, ◌<◌, ◌≤◌, ◌*◌, ◌+◌, ◌-◌, ◌++◌, ◌&&◌, IfSome, IfNone, SomeIff, List, ℕ, [], IsTrue, true, false, length};
ghost use Rattle.std.specs.Option.{option_map, ForSome};
ghost use Rattle.std.specs.Char.{is_ascii_digit};
ghost use Rattle.number_texts.specs.Form.{cut, is_slash, is_point, is_exponent, is_minus, unsigned, is_digits, parted, number_after, number, terms_of, exponent_of, by_point, with_exponent};
ghost use Rattle.number_texts.specs.Shorts.{leading};
ghost use Rattle.std.specs.List.{position, list_all};

fn parted(bytes: &[u8], at: Option<usize>) -> (&[u8], Option<&[u8]>)
    requires { ForSome at (λ k. k < length bytes.now) }
    ensures { (result.0.now, option_map (λ s. s.now) result.1) ≡ parted bytes.now at }
{
    match at {
        Some(at) => (&bytes[..at], Some(&bytes[at + 1..])),
        None => (bytes, None),
    }
}

fn slash(bytes: &[u8]) -> Option<usize>
    ensures value { result ≡ position is_slash bytes.now }
    ensures within { IfSome result (λ k. k < length bytes.now) }
{
    bytes.iter().position(|b| *b == b'/')
}

pub fn cut_slash(bytes: &[u8]) -> (&[u8], Option<&[u8]>)
    ensures { (result.0.now, option_map (λ s. s.now) result.1) ≡ cut is_slash bytes.now }
{
    parted(bytes, slash(bytes))
}

fn point(bytes: &[u8]) -> Option<usize>
    ensures value { result ≡ position is_point bytes.now }
    ensures within { IfSome result (λ k. k < length bytes.now) }
{
    bytes.iter().position(|b| *b == b'.')
}

pub fn cut_point(bytes: &[u8]) -> (&[u8], Option<&[u8]>)
    ensures { (result.0.now, option_map (λ s. s.now) result.1) ≡ cut is_point bytes.now }
{
    parted(bytes, point(bytes))
}

fn exponent(bytes: &[u8]) -> Option<usize>
    ensures value { result ≡ position is_exponent bytes.now }
    ensures within { IfSome result (λ k. k < length bytes.now) }
{
    bytes
        .iter()
        .position(|b| *b == b'e' || *b == b'E' || *b == b'd' || *b == b'D')
}

pub fn cut_exponent(bytes: &[u8]) -> (&[u8], Option<&[u8]>)
    ensures { (result.0.now, option_map (λ s. s.now) result.1) ≡ cut is_exponent bytes.now }
{
    parted(bytes, exponent(bytes))
}

/// Whether a minus stands before it, and what stands behind the sign.
pub fn sign(bytes: &[u8]) -> (bool, &[u8])
    ensures minus { result.0 ≡ is_minus bytes.now }
    ensures rest { result.1.now ≡ unsigned bytes.now }
{
    match bytes {
        [b'-', rest @ ..] => (true, rest),
        [b'+', rest @ ..] => (false, rest),
        _ => (false, bytes),
    }
}

pub fn are_digits(bytes: &[u8]) -> bool
    ensures { result ≡ list_all is_ascii_digit bytes.now }
{
    bytes.iter().all(|b| b.is_ascii_digit())
}

pub fn is_digits(bytes: &[u8]) -> bool
    ensures { result ≡ is_digits bytes.now }
{
    !bytes.is_empty() && are_digits(bytes)
}

/// The number that the digits at the front of a text make of a number before them, and what stands
/// behind them. There is none where it passes 64 bits.
pub(crate) fn leading_digits(before: u64, text: &[u8]) -> Option<(u64, &[u8])>
    requires { before < 10 ^ 19 }
    ensures value { IfSome result (λ r. leading before text.now ≡ (r.0, r.1.now)) }
    ensures small { IfSome result (λ r. r.0 < 10 ^ 19) }
    ensures shorter { IfSome result (λ r. length r.1.now ≤ length text.now) }
    ensures none { IfNone result (10 ^ 19 ≤ (leading before text.now).0) }
{
    let mut number = before;
    let mut rest = text;
    while let [digit, after @ ..] = rest {
        if !digit.is_ascii_digit() {
            return Some((number, rest));
        }
        if number >= 1_000_000_000_000_000_000 {
            return None;
        }
        number = number * 10 + (*digit - b'0') as u64;
        rest = after;
    }
    Some((number, rest))
}

/// A number with one digit more, below a limit.
fn with_digit(n: u128, digit: u8, limit: u128) -> Option<u128>
    requires digit { IsTrue (is_ascii_digit digit) }
    requires small { limit ≤ 2 ^ 127 }
    ensures { SomeIff result (n * 10 + (digit - 48) < limit) (n * 10 + (digit - 48)) }
{
    let more = (digit - 48) as u128;
    if limit <= more || n > (limit - 1 - more) / 10 {
        return None;
    }
    Some(n * 10 + more)
}

/// The number that digits are, if it is below a limit, digit by digit.
#[tactic(auto, unfolding(crate::specs::Form::number))]
fn long_number(digits: &[u8], limit: u128) -> Option<u128>
    requires digits { IsTrue (list_all is_ascii_digit digits.now) }
    requires positive { 0 < limit }
    requires small { limit ≤ 2 ^ 127 }
    ensures { SomeIff result (number digits.now < limit) (number digits.now) }
{
    let mut n = 0;
    let mut rest = digits;
    while let [digit, after @ ..] = rest {
        n = with_digit(n, *digit, limit)?;
        rest = after;
    }
    Some(n)
}

/// A number, if it is below a limit.
fn below(number: u64, limit: u128) -> Option<u128>
    ensures { SomeIff result (number < limit) number }
{
    let number = number as u128;
    if number < limit { Some(number) } else { None }
}

/// The number that digits are, if it is below a limit.
pub fn number(digits: &[u8], limit: u128) -> Option<u128>
    requires digits { IsTrue (list_all is_ascii_digit digits.now) }
    requires positive { 0 < limit }
    requires small { limit ≤ 2 ^ 127 }
    ensures { SomeIff result (number digits.now < limit) (number digits.now) }
{
    match leading_digits(0, digits) {
        Some((number, _)) => below(number, limit),
        None => long_number(digits, limit),
    }
}
