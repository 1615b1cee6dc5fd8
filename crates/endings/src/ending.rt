//! How a command ends.

ghost use Rattle.std.specs.Prelude.{◌≡◌};

/// How a command ends, with what it prints where that holds a number or a name. All of it is in memory before a file is written.
#[derive(Drop)]
pub enum Ending {
    /// All was done; the command's text.
    Done(Vec<u8>),
    /// The words were refused.
    Usage,
    /// The program's text was refused; the line that says why.
    Refused(Vec<u8>),
    /// A file could not be read.
    ReadFault,
    /// A file could not be written.
    WriteFault,
    /// Memory was refused.
    NoMemory,
    /// A number has no room; the line that says where.
    NoRoom(Vec<u8>),
    /// The records' text was refused; the line that says why.
    RecordsRefused(Vec<u8>),
    /// The solution's text was refused; the line that says why.
    SolutionRefused(Vec<u8>),
    /// The point does not meet the program; the line that says where.
    Violated(Vec<u8>),
    /// As many pivots were made as are allowed, and one more is asked for.
    Spent,
    /// The program has no feasible point.
    Infeasible,
    /// The program has no feasible point, and its ray has a number without room; the lines that say so.
    RayPast(Vec<u8>),
    /// The program has no feasible point, or none of least cost: each feasible point gives others of any cost.
    UnboundedOrInfeasible,
    /// The program has feasible points, and for each number one of a better cost.
    Unbounded,
}

impl Ending {
    ghost use Rattle.endings.specs.Ending.{status_of, text_of};

    /// The exit status.
    pub fn status(&self) -> u8
        ensures { result ≡ status_of self.now }
    {
        match self {
            Ending::Done(_) => 0,
            Ending::Usage => 1,
            Ending::Refused(_) => 2,
            Ending::ReadFault => 3,
            Ending::WriteFault => 4,
            Ending::NoMemory => 5,
            Ending::NoRoom(_) => 6,
            Ending::RecordsRefused(_) => 7,
            Ending::SolutionRefused(_) => 8,
            Ending::Violated(_) => 9,
            Ending::Spent => 10,
            Ending::Infeasible => 20,
            Ending::RayPast(_) => 20,
            Ending::UnboundedOrInfeasible => 21,
            Ending::Unbounded => 22,
        }
    }

    /// What is printed.
    pub fn text(&self) -> &[u8]
        ensures { result.now ≡ text_of self.now }
    {
        match self {
            Ending::Done(text) => text.as_slice(),
            Ending::Usage => {
                b"usage: presolve, postsolve, check, gen, migrate, verify or solve\n"
            }
            Ending::Refused(line) => line.as_slice(),
            Ending::ReadFault => b"read fault\n",
            Ending::WriteFault => b"write fault\n",
            Ending::NoMemory => b"no memory\n",
            Ending::NoRoom(line) => line.as_slice(),
            Ending::RecordsRefused(line) => line.as_slice(),
            Ending::SolutionRefused(line) => line.as_slice(),
            Ending::Violated(line) => line.as_slice(),
            Ending::Spent => b"pivots spent\n",
            Ending::Infeasible => b"infeasible\n",
            Ending::RayPast(lines) => lines.as_slice(),
            Ending::UnboundedOrInfeasible => b"unbounded or infeasible\n",
            Ending::Unbounded => b"unbounded\n",
        }
    }
}
