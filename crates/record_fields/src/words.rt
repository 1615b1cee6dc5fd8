//! The words of a line, read in place.

ghost use Rattle.std.specs.Prelude.{◌≡◌, ◌<◌, ◌≤◌, ◌^◌, IfSome, [], length};
ghost use Rattle.std.specs.List.{count_by, position};
ghost use Rattle.std.specs.Option.{option_map, ForSome};
ghost use Rattle.number_texts.specs.Form.{parted, cut};
ghost use Rattle.record_fields.specs.Words.{is_space, words_of, first, others, is_empty};
ghost use Rattle.record_fields.specs.Views.{words_left, IsNextPair};

/// The words of a line that are still to be read. A line is cut at each space.
#[derive(Clone, Copy)]
pub struct Words<'a> {
    rest: Option<&'a [u8]>,
}

/// Where the first space stands.
fn space(line: &[u8]) -> Option<usize>
    ensures value { result ≡ position is_space line.now }
    ensures within { IfSome result (λ k. k < length line.now) }
{
    line.iter().position(|b| *b == b' ')
}

/// The bytes before a place, and those after it, if there is one.
fn parted(line: &[u8], at: Option<usize>) -> (&[u8], Option<&[u8]>)
    requires { ForSome at (λ k. k < length line.now) }
    ensures { (result.0.now, option_map (λ s. s.now) result.1) ≡ parted line.now at }
{
    match at {
        Some(at) => (&line[..at], Some(&line[at + 1..])),
        None => (line, None),
    }
}

/// What stands before the first space, and what stands after it, if there is one.
fn cut_space(line: &[u8]) -> (&[u8], Option<&[u8]>)
    ensures { (result.0.now, option_map (λ s. s.now) result.1) ≡ cut is_space line.now }
{
    parted(line, space(line))
}

/// All words of a line.
pub fn words_of(line: &[u8]) -> Words<'_>
    ensures { words_left result ≡ words_of line.now }
{
    Words { rest: Some(line) }
}

/// Whether no word is left.
pub fn is_empty(words: &Words<'_>) -> bool
    ensures { result ≡ is_empty (words_left words.now) }
{
    match words.rest {
        None => true,
        Some(_) => false,
    }
}

/// The next word, and an empty one where none is left.
pub fn next_word<'a>(words: &mut Words<'a>) -> &'a [u8]
    ensures word { result.now ≡ first (words_left words.old) }
    ensures left { words_left words.new ≡ others (words_left words.old) }
{
    match words.rest {
        None => &[],
        Some(line) => {
            let (word, rest) = cut_space(line);
            words.rest = rest;
            word
        }
    }
}

/// All words that are left. None is left behind them.
pub fn all_words<'a>(words: &mut Words<'a>) -> Words<'a>
    ensures all { words_left result ≡ words_left words.old }
    ensures left { words_left words.new ≡ [] }
{
    let all = *words;
    words.rest = None;
    all
}

/// Two words.
#[derive(Clone, Copy)]
pub struct Pair<'a> {
    pub id: &'a [u8],
    pub value: &'a [u8],
}

/// The next two words, if there are two.
pub fn next_pair<'a>(words: &mut Words<'a>) -> Option<Pair<'a>>
    ensures { IsNextPair (words_left words.old) result (words_left words.new) }
{
    if is_empty(words) {
        return None;
    }
    let id = next_word(words);
    if is_empty(words) {
        return None;
    }
    let value = next_word(words);
    Some(Pair { id, value })
}

/// How many spaces a line has.
fn space_count(line: &[u8]) -> usize
    ensures value { result ≡ count_by is_space line.now }
    ensures few { result ≤ length line.now }
{
    let mut count = 0;
    let mut rest = line;
    while let [byte, after @ ..] = rest {
        if *byte == b' ' {
            count += 1;
        }
        rest = after;
    }
    count
}

/// How many words are left.
pub fn word_count(words: &Words<'_>) -> u128
    ensures few { result ≤ 2 ^ 64 }
    ensures value { result ≡ length (words_left words.now) }
{
    match words.rest {
        None => 0,
        Some(line) => space_count(line) as u128 + 1,
    }
}

/// The room for the pairs that are left.
pub fn pair_room(words: &Words<'_>) -> usize {
    match words.rest {
        None => 0,
        Some(line) => space_count(line) / 2 + 1,
    }
}
