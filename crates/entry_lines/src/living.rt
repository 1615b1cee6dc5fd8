//! Which lines are there.

ghost use Rattle.std.specs.Prelude.{◌≡◌};
ghost use Rattle.problem_model.specs.Matrices.{line_at};

use problem_model::Line;

/// Whether a line is live. One past the last isn't.
pub fn is_live(lines: &[Line], k: u32) -> bool
    ensures { result ≡ (line_at lines.now k).live }
{
    match lines.get(k as usize) {
        Some(line) => line.live,
        None => false,
    }
}
