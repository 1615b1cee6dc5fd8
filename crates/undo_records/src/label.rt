//! Names of the original program.

ghost use Rattle.std.specs.Prelude.{All, map};
ghost use Rattle.lp_model.specs.Name.{IsName};

use lp_model::Name;

/// A row or a column of the original program, and whether it is still live in the reduced one.
#[derive(Drop)]
pub struct Label {
    pub name: Name,
    pub live: bool,
}

/// Each label has a name, by its type. Says so, and changes nothing.
pub fn labels_are_named(labels: &[Label])
    ensures { All IsName (map (λ l. l.name) labels.now) }
{
    for label in labels {
        let _name = label.name.as_bytes();
    }
}
