//! The forms of the ends of a problem's rows and columns.

ghost use Rattle.std.specs.Prelude.{◌≡◌, length, map, slice_index_or, slice_set, IfOk};
ghost use Rattle.std.specs.List.{range_with_len};
ghost use Rattle.problem_model.specs.declared.part.Part.TheVariants as part;
ghost use Rattle.dual_laws.specs.declared.form.Form.TheVariants as form;
ghost use Rattle.round_marks.specs.Forming.{form_at, form_on, form_put, forms_of, gives as gives_is, keeps, lets_by_cost as lets_by_cost_is, lets_in_pairs as lets_in_pairs_is, same_flag};

use dual_laws::form::Form;
use dual_rules::form::form_of;
use presolve_model::Part;
use sparse_problem::Problem;
use std::alloc::{AllocError, Global};
use std::marker::Model;

/// The forms of the sides by row, and of the bounds by column.
#[derive(Drop)]
pub struct Forms {
    sides: Vec<Form>,
    bounds: Vec<Form>,
}

impl Model for Forms {
    ghost use Rattle.round_marks.specs.Forming.{Formed};

    ghost Value = { Formed };

    ghost view = { λ f. record { sides = f.sides.items; bounds = f.bounds.items } };
}

fn of_sides(alloc: Global, problem: &Problem) -> Result<Vec<Form>, AllocError>
    ensures { IfOk result (λ forms. forms.items ≡ map (λ i. form_on problem.now (part.Sides i)) (range_with_len 0 (length problem.now.matrix.rows))) }
{
    let count = problem.row_count() as u32;
    let mut forms = Vec::with_capacity(alloc, count as usize)?;
    for row in 0..count {
        forms.push(form_of(problem, Part::Sides(row)))?;
    }
    Ok(forms)
}

fn of_bounds(alloc: Global, problem: &Problem) -> Result<Vec<Form>, AllocError>
    ensures { IfOk result (λ forms. forms.items ≡ map (λ j. form_on problem.now (part.Bounds j)) (range_with_len 0 (length problem.now.matrix.columns))) }
{
    let count = problem.column_count() as u32;
    let mut forms = Vec::with_capacity(alloc, count as usize)?;
    for column in 0..count {
        forms.push(form_of(problem, Part::Bounds(column)))?;
    }
    Ok(forms)
}

fn form_there(forms: &[Form], id: u32) -> Form
    ensures { result ≡ slice_index_or forms.now id form.NoEnds }
{
    match forms.get(id as usize) {
        Some(form) => *form,
        None => Form::NoEnds,
    }
}

fn set_form(forms: &mut [Form], id: u32, form: Form)
    ensures { forms.new ≡ slice_set forms.old id form }
{
    if (id as usize) < forms.len() {
        forms[id as usize] = form;
    }
}

/// Whether a flag that is up in the first is up in the second.
fn gives(first: bool, second: bool) -> bool
    ensures { result ≡ gives_is first second }
{
    !first | second
}

fn are_alike(first: bool, second: bool) -> bool
    ensures { result ≡ same_flag first second }
{
    first == second
}

/// Whether the second form lets what the first one lets, to the rules that look at columns.
fn lets_by_cost(first: Form, second: Form) -> bool
    ensures { result ≡ lets_by_cost_is first second }
{
    match (first, second) {
        (Form::NoEnds, Form::NoEnds) => true,
        (
            Form::Sides {
                no_lower,
                no_upper,
                in_order,
            },
            Form::Sides {
                no_lower: lower,
                no_upper: upper,
                in_order: order,
            },
        ) => gives(no_lower, lower) & (gives(no_upper, upper) & gives(in_order, order)),
        (
            Form::Bounds {
                no_lower,
                no_upper,
                in_order,
                apart,
                lower_holds,
                upper_holds,
                ..
            },
            Form::Bounds {
                no_lower: lower,
                no_upper: upper,
                in_order: order,
                apart: differ,
                lower_holds: lower_place,
                upper_holds: upper_place,
                ..
            },
        ) => {
            let places = gives(lower_holds, lower_place) & gives(upper_holds, upper_place);
            let order = gives(in_order, order) & (gives(apart, differ) & places);
            gives(no_lower, lower) & (gives(no_upper, upper) & order)
        }
        _ => false,
    }
}

/// Whether the second form lets what the first one lets, to the rule that looks at pairs of columns of a row.
fn lets_in_pairs(first: Form, second: Form) -> bool
    ensures { result ≡ lets_in_pairs_is first second }
{
    match (first, second) {
        (Form::NoEnds, Form::NoEnds) => true,
        (
            Form::Sides {
                no_lower,
                no_upper,
                in_order,
            },
            Form::Sides {
                no_lower: lower,
                no_upper: upper,
                in_order: order,
            },
        ) => gives(no_lower, lower) & (gives(no_upper, upper) & gives(in_order, order)),
        (
            Form::Bounds {
                no_upper,
                apart,
                lower_holds,
                whole,
                ..
            },
            Form::Bounds {
                no_upper: upper,
                apart: differ,
                lower_holds: lower_place,
                whole: whole_too,
                ..
            },
        ) => {
            let places = gives(lower_holds, lower_place) & are_alike(whole, whole_too);
            gives(no_upper, upper) & (gives(apart, differ) & places)
        }
        _ => false,
    }
}

impl Forms {
    /// The forms of a problem.
    pub fn of(alloc: Global, problem: &Problem) -> Result<Forms, AllocError>
        ensures { IfOk result (λ forms. forms ≡ forms_of problem.now) }
    {
        let sides = of_sides(alloc, problem)?;
        let bounds = of_bounds(alloc, problem)?;
        Ok(Forms { sides, bounds })
    }

    fn at(&self, part: Part) -> Form
        ensures { result ≡ form_at self.now part }
    {
        match part {
            Part::Row(_) | Part::Col(_) => Form::NoEnds,
            Part::Sides(row) => form_there(self.sides.as_slice(), row),
            Part::Bounds(column) => form_there(self.bounds.as_slice(), column),
        }
    }

    /// Whether a part is of ends whose form lets no more than it did, to the rules that look at columns.
    pub fn keep_by_cost(&self, problem: &Problem, part: Part) -> bool
        ensures { result ≡ keeps lets_by_cost_is self.now problem.now part }
    {
        match part {
            Part::Row(_) | Part::Col(_) => false,
            Part::Sides(_) | Part::Bounds(_) => lets_by_cost(form_of(problem, part), self.at(part)),
        }
    }

    /// The same, to the rule that looks at pairs of columns of a row.
    pub fn keep_in_pairs(&self, problem: &Problem, part: Part) -> bool
        ensures { result ≡ keeps lets_in_pairs_is self.now problem.now part }
    {
        match part {
            Part::Row(_) | Part::Col(_) => false,
            Part::Sides(_) | Part::Bounds(_) => {
                lets_in_pairs(form_of(problem, part), self.at(part))
            }
        }
    }

    /// Puts right the form of a part.
    pub fn refresh(&mut self, problem: &Problem, part: Part)
        ensures { self.new ≡ form_put self.old part (form_on problem.now part) }
    {
        let form = form_of(problem, part);
        match part {
            Part::Row(_) | Part::Col(_) => {}
            Part::Sides(row) => set_form(self.sides.as_mut_slice(), row, form),
            Part::Bounds(column) => set_form(self.bounds.as_mut_slice(), column, form),
        }
    }
}
