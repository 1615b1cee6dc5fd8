//! What `verify` says of the same bytes, and of what `presolve` left.

ghost use Rattle.proved_runs.specs.Verified.{VerifiesAreOne, WhatIsLeftIsVerified};

/// A `verify` of the same IN, OUT and REC ends alike and prints the same, where no read failed and memory did not run out.
pub fn verifies_are_one()
    ensures { VerifiesAreOne }
{}

/// A `presolve` ended at status 0, and IN's names are plain. Then a `verify` of IN and of what it left says yes, whether IN's numbers were
/// read as decimal ones or as fractions.
pub fn what_presolve_left_is_verified()
    ensures { WhatIsLeftIsVerified }
{}
