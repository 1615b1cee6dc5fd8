//! Numbers as records keep them: in sixteen bytes each, and those with long parts on the heap.

ghost use Rattle.std.specs.Prelude.{◌≡◌, ◌^◌, ◌<◌, ◌+◌, ◌-◌, ℤ, pos, neg_ℤ, IfOk, IfSome, Some, unsigned_abs};
ghost use Rattle.fractions.specs.Lowest.{over_of, under_of, ratio};
ghost use Rattle.fractions.specs.Number.{Number};
ghost use Rattle.kept_numbers.specs.Kept.{number_of_form};

use lp_model::fractions::ext::Ext;
use lp_model::fractions::frac::Frac;
use lp_model::fractions::whole::Whole;
use std::alloc::{AllocError, Global};
use std::marker::Model;

/// A number or none, in the shortest form that has room for it.
#[derive(Drop)]
enum Form {
    /// No number.
    Nothing,
    /// A whole number.
    Whole(i64),
    /// The first number over one more than the second.
    Quotient(i32, u32),
    /// Any number.
    Long(Box<Frac>),
}

/// A number that is kept for long: in sixteen bytes, and thirty-two more on the heap where it has none of the short forms. In a contract
/// it is that number.
#[derive(Drop)]
pub struct KeptNumber {
    form: Form,
}

impl Model for KeptNumber {
    ghost use Rattle.fractions.specs.Number.{Number};
    ghost use Rattle.fractions.specs.Lowest.{number_code};

    ghost Value = { Number };

    ghost coded = { number_code };

    ghost use Rattle.kept_numbers.specs.Kept.{number_of_form, number_or_zero};

    ghost view = { λ k. number_or_zero (number_of_form k.form) };
}

impl KeptNumber {
    /// The same number, kept.
    pub fn new(alloc: Global, number: Frac) -> Result<KeptNumber, AllocError>
        ensures { IfOk result (λ kept. kept ≡ number) }
    {
        let form = form_of(alloc, &number)?;
        Ok(KeptNumber { form })
    }

    /// The number.
    pub fn get(&self) -> Frac
        ensures { result ≡ self.now }
    {
        match number_in(&self.form) {
            Some(number) => number,
            None => Frac::zero(),
        }
    }
}

/// An end of a range of numbers that is kept for long, as small as a kept number. In a contract it is an `Option Number`.
#[derive(Drop)]
pub struct KeptEnd {
    form: Form,
}

impl Model for KeptEnd {
    ghost use Rattle.std.specs.Prelude.{Option};
    ghost use Rattle.std.specs.Coded.{codes};
    ghost use Rattle.fractions.specs.Number.{Number};
    ghost use Rattle.fractions.specs.Lowest.{number_code};

    ghost Value = { Option Number };

    ghost coded = { Prim.hlevel (codes, number_code) };

    ghost use Rattle.kept_numbers.specs.Kept.{number_of_form};

    ghost view = { λ k. number_of_form k.form };
}

impl KeptEnd {
    /// The same end, kept.
    pub fn new(alloc: Global, end: Ext) -> Result<KeptEnd, AllocError>
        ensures { IfOk result (λ kept. kept ≡ end) }
    {
        match end.number() {
            None => Ok(KeptEnd {
                form: Form::Nothing,
            }),
            Some(number) => {
                let form = form_of(alloc, &number)?;
                Ok(KeptEnd { form })
            }
        }
    }

    /// The end.
    pub fn get(&self) -> Ext
        ensures { result ≡ self.now }
    {
        match number_in(&self.form) {
            Some(number) => Ext::at(number),
            None => Ext::none(),
        }
    }
}

/// The number of a form, if it is one.
fn number_in(form: &Form) -> Option<Frac>
    ensures { result ≡ number_of_form form.now }
{
    match form {
        Form::Nothing => None,
        Form::Whole(whole) => Some(Frac::ratio_of(Whole::new(*whole as i128), 1)),
        Form::Quotient(over, under) => {
            Some(Frac::ratio_of(Whole::new(*over as i128), *under as u128 + 1))
        }
        Form::Long(number) => Some(**number),
    }
}

/// A whole number in 64 bits, if it has room.
fn whole_in(whole: Whole) -> Option<i64>
    ensures { IfSome result (λ z. z ≡ whole) }
{
    let size = whole.size();
    if size >= 1 << 63 {
        return None;
    }
    if whole.is_negative() {
        Some(-(size as i64))
    } else {
        Some(size as i64)
    }
}

/// A short form of a number, if it has one.
fn short_form(number: &Frac) -> Option<Form>
    ensures { IfSome result (λ form. number_of_form form ≡ Some number.now) }
{
    let parts = number.parts();
    let whole = whole_in(parts.num)?;
    if parts.den == 1 {
        return Some(Form::Whole(whole));
    }
    if parts.den > 1 << 32 || parts.den == 0 || whole >= 1 << 31 || whole < -(1 << 31) {
        return None;
    }
    Some(Form::Quotient(whole as i32, (parts.den - 1) as u32))
}

/// The form of a number.
fn form_of(alloc: Global, number: &Frac) -> Result<Form, AllocError>
    ensures { IfOk result (λ form. number_of_form form ≡ Some number.now) }
{
    match short_form(number) {
        Some(form) => Ok(form),
        None => Ok(Form::Long(Box::new(alloc, *number)?)),
    }
}
