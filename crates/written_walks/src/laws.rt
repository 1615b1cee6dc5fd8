//! The records that presolve writes walk.

ghost use Rattle.written_walks.specs.Laws.{WrittenRecordsWalk};

/// IN's text, read with fractions as whoever verifies reads it, has no fault where presolve found none. OUT and REC are read as a program
/// and records that walk to it from IN's program.
pub fn written_records_walk()
    ensures { WrittenRecordsWalk }
{}
