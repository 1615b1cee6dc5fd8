//! Small problems for tests: a row with an upper side, in which the first of one or two columns stands.

ghost use Rattle.std.specs.Prelude.{◌≡◌, IfOk};
ghost use Rattle.problem_model.specs.declared.part.Part.{Part as PartValue};
ghost use Rattle.problem_model.specs.Parts.{changes_of};
ghost use Rattle.problem_model.specs.Writing.{IsWritable};

use fractions::Numbers;
use fractions::ext::Ext;
use fractions::frac::Frac;
use fractions::whole::Whole;
use lp_model::{ColumnDef, Name, Program, RowDef, Sense, Term, Terms, is_name, names_differ};
use program_laws::laws::written_programs_can_be_written;
use run_laws::programs_have_not_changed;
use sparse_problem::Problem;
use std::alloc::{AllocError, Global};
use std::process::Abort;

/// A number over another one.
pub type Quotient = (i128, u128);

/// A row `entry x <= side`, and whole columns of cost 0 between these bounds: x, and y too if it is to be there.
#[derive(Clone, Copy)]
pub struct Model {
    pub entry: Quotient,
    pub side: Quotient,
    pub lower: Quotient,
    pub upper: Quotient,
    pub second: bool,
}

/// A number.
pub fn number(rt: &impl Abort, (over, under): Quotient) -> Frac {
    assert!(rt; over > i128::MIN && under > 0 && under < 1 << 127);
    Frac::ratio_of(Whole::new(over), under)
}

/// A bound.
fn bound(rt: &impl Abort, quotient: Quotient) -> Ext {
    Ext::at(number(rt, quotient))
}

/// A name of these bytes.
pub fn name_of(rt: &impl Abort, alloc: Global, bytes: &[u8]) -> Result<Name, AllocError> {
    assert!(rt; is_name(bytes));
    Name::from_slice(alloc, bytes)
}

/// The row.
fn row(rt: &impl Abort, alloc: Global, model: &Model) -> Result<RowDef, AllocError> {
    Ok(RowDef {
        name: name_of(rt, alloc, b"C1")?,
        lower: Ext::none(),
        upper: Ext::at(number(rt, model.side)),
    })
}

/// What stands in the row.
fn entries(rt: &impl Abort, alloc: Global, model: &Model) -> Result<Terms, AllocError> {
    let value = number(rt, model.entry);
    let terms = Vec::from_slice(alloc, &[Term { id: 0, value }])?;
    Ok(Terms::new(terms))
}

/// A column.
fn column(
    rt: &impl Abort,
    alloc: Global,
    model: &Model,
    name: &[u8],
    entries: Terms,
) -> Result<ColumnDef, AllocError> {
    Ok(ColumnDef {
        name: name_of(rt, alloc, name)?,
        cost: Frac::zero(),
        lower: bound(rt, model.lower),
        upper: bound(rt, model.upper),
        whole: true,
        semi: false,
        entries,
    })
}

/// The columns.
fn columns(rt: &impl Abort, alloc: Global, model: &Model) -> Result<Vec<ColumnDef>, AllocError> {
    let terms = entries(rt, alloc, model)?;
    let first = column(rt, alloc, model, b"x", terms)?;
    if !model.second {
        let columns = Vec::from_array(alloc, [first])?;
        return Ok(columns);
    }
    let second = column(rt, alloc, model, b"y", Terms::empty(alloc))?;
    let columns = Vec::from_array(alloc, [first, second])?;
    Ok(columns)
}

/// The program of these rows and columns, whose names differ.
pub fn program_of(
    rt: &impl Abort,
    alloc: Global,
    rows: Vec<RowDef>,
    columns: Vec<ColumnDef>,
) -> Result<Program, AllocError> {
    let objective = name_of(rt, alloc, b"COST")?;
    assert!(rt; names_differ(&objective, rows.as_slice(), columns.as_slice()));
    Ok(Program::new(Sense::Min, objective, Frac::zero(), rows, columns))
}

/// The program.
fn program(rt: &impl Abort, alloc: Global, model: &Model) -> Result<Program, AllocError> {
    let row = row(rt, alloc, model)?;
    let rows = Vec::from_array(alloc, [row])?;
    let columns = columns(rt, alloc, model)?;
    program_of(rt, alloc, rows, columns)
}

/// The problem of a program, which can be written, and of which no part has changed.
pub fn problem_of(
    rt: &impl Abort,
    alloc: Global,
    numbers: Numbers,
    program: &Program,
) -> Result<Problem, AllocError>
    ensures writable { IfOk result (IsWritable numbers) }
    ensures unchanged { IfOk result (λ p. (a : PartValue) → changes_of p a ≡ 0) }
{
    assert!(rt; program.rows().len() < 1 << 32);
    assert!(rt; program.columns().len() < 1 << 32);
    assert!(rt; program.is_writable(numbers));
    assert!(rt; program.has_ascending_entries());
    written_programs_can_be_written();
    programs_have_not_changed();
    let problem = Problem::from_program(alloc, program)?;
    Ok(problem)
}

/// The same of the program of a model.
pub fn problem(
    rt: &impl Abort,
    alloc: Global,
    numbers: Numbers,
    model: &Model,
) -> Result<Problem, AllocError>
    ensures writable { IfOk result (IsWritable numbers) }
    ensures unchanged { IfOk result (λ p. (a : PartValue) → changes_of p a ≡ 0) }
{
    let program = program(rt, alloc, model)?;
    problem_of(rt, alloc, numbers, &program)
}
