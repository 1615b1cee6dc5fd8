// The commands of the program, with their words.
/// The most records that a run may be allowed to make; so many where no limit is given.
pub const MOST_RECORDS: u64 = 1_000_000_000;

/// The most threads that a run may be given; one where no number is given.
pub const MOST_THREADS: u64 = 64;

/// The greatest seed that a program may be made from.
pub const MOST_SEED: u64 = 18_446_744_073_709_551_615;

/// The most rows, and the most columns, that a program may be made with.
pub const MOST_LINES: u64 = 100_000;

/// The most pivots that a run may be allowed to make.
pub const MOST_PIVOTS: u64 = 1_000_000;

/// So many pivots are allowed where no number is given.
pub const USUAL_PIVOTS: u64 = 100_000;

/// The format that IN has.
#[derive(Clone, Copy, Debug, PartialEq, Eq)]
pub enum InputFormat {
    /// MPS of the free format.
    Free,
    /// MPS of the fixed format.
    Fixed,
    /// OPB.
    Opb,
}

/// The options of `presolve`.
#[derive(Clone, Copy, Debug, PartialEq, Eq)]
pub struct PresolveOptions {
    /// A solution with duals can be brought back too; every column has to be continuous.
    pub dual: bool,
    /// Numbers that are no decimal numbers are taken and written too, as `n/d`.
    pub fractions: bool,
    /// The format of IN.
    pub format: InputFormat,
    /// How many reductions may be applied: from 1 to `MOST_RECORDS`.
    pub limit: u64,
    /// How many threads there are: from 1 to `MOST_THREADS`.
    pub threads: u32,
    /// They have to write what one thread would write.
    pub ordered: bool,
}

/// The names that `presolve IN OUT REC` works on, of which `output` and `records` differ, and the options.
#[derive(Clone, Copy, Debug)]
pub struct PresolveWords<'a> {
    pub input: &'a str,
    pub output: &'a str,
    pub records: &'a str,
    /// RAY, which is written where IN has no feasible point: none, or a name other than `output` and `records`; then `dual` and `ordered`
    /// are given.
    pub ray: Option<&'a str>,
    pub options: PresolveOptions,
}

/// The names that `check IN SOL` works on, and its options.
#[derive(Clone, Copy, Debug)]
pub struct CheckWords<'a> {
    pub input: &'a str,
    pub solution: &'a str,
    /// The format of IN.
    pub format: InputFormat,
    /// SOL's numbers may have any width.
    pub wide: bool,
}

/// The names that `postsolve OUT REC SOL RESULT` works on, and its option.
#[derive(Clone, Copy, Debug)]
pub struct PostsolveWords<'a> {
    pub program: &'a str,
    pub records: &'a str,
    pub solution: &'a str,
    pub result: &'a str,
    /// SOL's numbers may have any width.
    pub wide: bool,
}

/// The names that `migrate REC NEW` works on, which differ.
#[derive(Clone, Copy, Debug)]
pub struct MigrateWords<'a> {
    pub records: &'a str,
    /// NEW.
    pub written: &'a str,
}

/// The names that `verify IN OUT REC` works on, and its option.
#[derive(Clone, Copy, Debug)]
pub struct VerifyWords<'a> {
    pub input: &'a str,
    pub output: &'a str,
    pub records: &'a str,
    /// The format of IN.
    pub format: InputFormat,
}

/// The names that `solve IN SOL` works on, which differ, and its options.
#[derive(Clone, Copy, Debug)]
pub struct SolveWords<'a> {
    pub input: &'a str,
    /// SOL, which is written.
    pub solution: &'a str,
    /// How many pivots may be made: from 1 to `MOST_PIVOTS`.
    pub pivots: u64,
    /// IN has the fixed format.
    pub fixed: bool,
}

/// The numbers of `gen SEED ROWS COLS`.
#[derive(Clone, Copy, Debug, PartialEq, Eq)]
pub struct GenNumbers {
    /// Up to `MOST_SEED`.
    pub seed: u64,
    /// From 1 to `MOST_LINES`.
    pub rows: u32,
    /// From 1 to `MOST_LINES`.
    pub columns: u32,
}

/// A command with its words.
#[derive(Clone, Copy, Debug)]
pub enum Request<'a> {
    Presolve(PresolveWords<'a>),
    Check(CheckWords<'a>),
    Postsolve(PostsolveWords<'a>),
    Migrate(MigrateWords<'a>),
    Verify(VerifyWords<'a>),
    Solve(SolveWords<'a>),
    Gen(GenNumbers),
}

/// Why there is no request.
#[derive(Clone, Copy, Debug, PartialEq, Eq)]
pub enum Refusal {
    /// `clap` does not take the words, or OUT and REC are equal, or REC and NEW, or IN and SOL of `solve`; or RAY is asked for without
    /// `--dual`, or has the name of OUT or REC; or two formats are given.
    Words,
    /// There is no memory to read them.
    NoMemory,
}
