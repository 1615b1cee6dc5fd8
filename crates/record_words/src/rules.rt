//! The rules of records, and the fields of each.

ghost use Rattle.std.specs.Prelude.{◌≡◌};
ghost use Rattle.record_words.specs.Rules.{rule_of, fields_of};

use record_fields::fields::Field;
use record_fields::fields::Field::{
    Bound, Entries, Entry, Fate, Id, LowerEnd, Number, SideLetter, UpperEnd,
};
use record_values::Rule;

/// The fields of a rule's record.
pub fn fields_of(rule: Rule) -> &'static [Field]
    ensures { result.now ≡ fields_of rule }
{
    match rule {
        Rule::K1 => &[Id],
        Rule::K2 => &[Id, Id, Entry, LowerEnd, UpperEnd],
        Rule::K3 => &[Id, Number, Number, Entries],
        Rule::K4 => &[Id],
        Rule::K5 => &[Id],
        Rule::K6 => &[Id],
        Rule::K7 => &[Id, SideLetter, Entries],
        Rule::K8 => &[Id, Id, Bound, Entries],
        Rule::K9 => &[Id, Id],
        Rule::K10 => &[Id],
        Rule::K11 => &[Id, Id, Id],
        Rule::K12 => &[
            Id, Id, Id, Entry, Entry, Number, LowerEnd, UpperEnd, Number, Entries,
        ],
        Rule::K13 => &[Id, Id, Entry, Number, Number, Entries],
        Rule::K14 => &[
            Id, Id, Entry, Number, LowerEnd, UpperEnd, LowerEnd, UpperEnd, Fate, Entries,
        ],
        Rule::K15 => &[Id, Id, Entry, LowerEnd, UpperEnd, Entries],
        Rule::K16 => &[Id, Id, Entry, LowerEnd, UpperEnd, LowerEnd, UpperEnd],
        Rule::K17 => &[Id],
    }
}

/// The rule that a word names.
pub fn rule_of(word: &[u8]) -> Option<Rule>
    ensures { result ≡ rule_of word.now }
{
    if word == b"K1".as_slice() {
        return Some(Rule::K1);
    }
    if word == b"K2".as_slice() {
        return Some(Rule::K2);
    }
    if word == b"K3".as_slice() {
        return Some(Rule::K3);
    }
    if word == b"K4".as_slice() {
        return Some(Rule::K4);
    }
    if word == b"K5".as_slice() {
        return Some(Rule::K5);
    }
    if word == b"K6".as_slice() {
        return Some(Rule::K6);
    }
    if word == b"K7".as_slice() {
        return Some(Rule::K7);
    }
    if word == b"K8".as_slice() {
        return Some(Rule::K8);
    }
    if word == b"K9".as_slice() {
        return Some(Rule::K9);
    }
    if word == b"K10".as_slice() {
        return Some(Rule::K10);
    }
    if word == b"K11".as_slice() {
        return Some(Rule::K11);
    }
    if word == b"K12".as_slice() {
        return Some(Rule::K12);
    }
    if word == b"K13".as_slice() {
        return Some(Rule::K13);
    }
    if word == b"K14".as_slice() {
        return Some(Rule::K14);
    }
    if word == b"K15".as_slice() {
        return Some(Rule::K15);
    }
    if word == b"K16".as_slice() {
        return Some(Rule::K16);
    }
    if word == b"K17".as_slice() {
        return Some(Rule::K17);
    }
    None
}
