//! The rows or the columns of a problem, to be read by their ids.

ghost use Rattle.std.specs.Prelude.{◌≡◌, ◌-◌, ◌<◌, ◌^◌, get_or, length, min, true};
ghost use Rattle.std.specs.List.{count_by, sum_by};
ghost use Rattle.problem_model.specs.Matrices.{line_at};

use lp_model::Term;
use problem_model::Line;
use std::marker::Model;

/// The rows or the columns of a problem, deleted ones among them. They are read by their ids alone: how they are stored stays open.
#[derive(Drop)]
pub struct Lines<'a> {
    items: &'a [Line],
}

impl<'a> Model for Lines<'a> {
    ghost use Rattle.std.specs.Prelude.{List};
    ghost use Rattle.std.specs.Coded.{codes};
    ghost use Rattle.fractions.specs.Lowest.{number_code};
    ghost use Rattle.problem_model.specs.declared.line.Line.{Line};

    ghost Value = { List Line };

    ghost coded = { Prim.hlevel (codes, number_code) };

    ghost view = { λ l. l.items.now };
}

/// How many entries these have that name what is there; the count stands still at its type's end.
fn count_entries(lines: &[Line]) -> u64
    ensures { result ≡ min (sum_by (λ line. line.live_entries) lines.now) (2 ^ 64 - 1) }
{
    let mut count: u64 = 0;
    let mut rest = lines;
    while let [line, after @ ..] = rest {
        count = count.saturating_add(line.live_entries as u64);
        rest = after;
    }
    count
}

impl<'a> Lines<'a> {
    /// Lines in the order of their ids.
    pub fn new(items: &'a [Line]) -> Lines<'a>
        ensures { result ≡ items.now }
    {
        Lines { items }
    }

    /// The line at a place, which is its id.
    pub fn at(&self, place: usize) -> &'a Line
        requires { place < length self.now }
        ensures { result.now ≡ get_or self.now place result.now }
    {
        match self.items.get(place) {
            Some(line) => line,
            None => unreachable!(),
        }
    }

    /// A live line.
    pub fn live_line(&self, id: u32) -> &'a Line
        requires { (line_at self.now id).live ≡ true }
        ensures { result.now ≡ line_at self.now id }
    {
        &self.items[id as usize]
    }

    /// The entries of a line, those that name deleted lines among them. One past the last has none.
    pub fn entries(&self, id: u32) -> &'a [Term]
        ensures { result.now ≡ (line_at self.now id).entries }
    {
        match self.items.get(id as usize) {
            Some(line) => line.entries.as_slice(),
            None => &[],
        }
    }

    /// Whether a line is live. One past the last isn't.
    pub fn is_live(&self, id: u32) -> bool
        ensures { result ≡ (line_at self.now id).live }
    {
        match self.items.get(id as usize) {
            Some(line) => line.live,
            None => false,
        }
    }

    /// How many are live.
    pub fn count_live(&self) -> u64
        ensures { result ≡ count_by (λ line. line.live) self.now }
    {
        self.items.iter().filter(|line| line.live).count() as u64
    }

    /// How many entries they have that name what is there. The count stands still at its type's end.
    pub fn count_entries(&self) -> u64
        ensures { result ≡ min (sum_by (λ line. line.live_entries) self.now) (2 ^ 64 - 1) }
    {
        count_entries(self.items)
    }
}
