// What a program may print to.
ghost use Rattle.std.specs.Prelude.{ℕ, ◌≤◌, List, Option, OnOk, OnErr};
ghost use Rattle.file_ports.specs.Ports.{Rose, Grown, GrownInPart};

use crate::Failed;

/// A place that bytes go to, one piece after another, with a count of its faults that never falls.
pub trait Sink {
    /// The bytes taken so far, where they are told.
    ghost taken: { Self → Option (List ℕ) };

    /// How many puts failed.
    ghost faults: { Self → ℕ };

    /// Takes all the bytes.
    ///
    /// # Errors
    /// `Failed` where the count of faults rises; a prefix of the bytes was taken.
    fn put(&mut self, bytes: &[u8]) -> Result<(), Failed>
        ensures grown { OnOk result (Grown (taken self.old) (taken self.new) bytes.now) }
        ensures in_part { OnErr result (GrownInPart (taken self.old) (taken self.new) bytes.now) }
        ensures failed { OnErr result (Rose (faults self.old) (faults self.new)) }
        ensures stays { faults self.old ≤ faults self.new };
}
