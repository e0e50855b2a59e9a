//! What a command is.

ghost use Rattle.std.specs.Prelude.{◌≡◌};
ghost use Rattle.ddm_words.specs.Kept.{is_summary, is_trace};

use crate::of_litmus_files::Runs;
use recording_model::SeedKind;

/// What is printed of a run.
#[derive(Clone, Copy, Debug, PartialEq, Eq)]
pub enum Prints {
    Report,
    /// A line for each turn, and then the report.
    Trace,
    Summary,
    /// The turn of a bus that goes on where a leaf waits, of a machine with large lists.
    Unjamming,
    /// The machine and what its turns came to, as bytes of a file.
    Checkpoint,
}

impl Prints {
    /// Whether a line for each turn is kept while they are made.
    pub fn is_trace(self) -> bool
        ensures { result ≡ is_trace self }
    {
        match self {
            Prints::Trace => true,
            Prints::Report | Prints::Summary | Prints::Unjamming | Prints::Checkpoint => false,
        }
    }

    /// Whether no operation is printed, so that none is kept.
    pub fn is_summary(self) -> bool
        ensures { result ≡ is_summary self }
    {
        match self {
            Prints::Summary => true,
            Prints::Report | Prints::Trace | Prints::Unjamming | Prints::Checkpoint => false,
        }
    }
}

/// Where an image comes from.
#[derive(Clone, Copy)]
pub enum ImageSource<'a> {
    File(&'a str),
    /// The random program of a seed, with 1 to 50,000 rounds.
    Made { seed: u64, rounds: u32 },
}

/// Where turns come from.
#[derive(Clone, Copy)]
pub enum TurnSource<'a> {
    File(&'a str),
    Seeded { seed: u64, count: u32 },
}

/// What a machine is made of, and which turns it makes.
#[derive(Clone, Copy)]
pub struct Run<'a> {
    pub image: ImageSource<'a>,
    pub tree: &'a str,
    pub turns: TurnSource<'a>,
}

/// What a witness is judged for: the files of an image, of a tree and of the witness.
#[derive(Clone, Copy)]
pub struct Check<'a> {
    pub image: &'a str,
    pub tree: &'a str,
    pub witness: &'a str,
}

/// What a run goes on from: the files of an image, of a tree, of a checkpoint and of a schedule with the rest of the turns.
#[derive(Clone, Copy)]
pub struct Resumption<'a> {
    pub image: &'a str,
    pub tree: &'a str,
    pub checkpoint: &'a str,
    pub schedule: &'a str,
}

/// Whose outcomes are counted: the machine of the files of an image and of a tree, over the schedules of so many seeds from the
/// first on, each with so many turns.
#[derive(Clone, Copy)]
pub struct Seeds<'a> {
    pub image: &'a str,
    pub tree: &'a str,
    pub first: u64,
    pub count: u32,
    pub turns: u32,
}

/// Whose recorded run is written or measured: the machine of the files of an image and of a tree, over the turns of a
/// seed that are let by, of which
/// so many may be recorded.
#[derive(Clone, Copy)]
pub struct Recorded<'a> {
    pub image: &'a str,
    pub tree: &'a str,
    pub kind: SeedKind,
    pub seed: u64,
    pub turns: u32,
}

/// Whose recorded runs are surveyed: the machine of the files of an image and of a tree, over the turns that are let by of each of so many
/// seeds from the first on, of which so many may be recorded.
#[derive(Clone, Copy)]
pub struct Survey<'a> {
    pub image: &'a str,
    pub tree: &'a str,
    pub kind: SeedKind,
    pub first: u64,
    pub count: u32,
    pub turns: u32,
}

/// What a page is made of: the files of an image, of a tree and of a schedule.
#[derive(Clone, Copy)]
pub struct Paged<'a> {
    pub image: &'a str,
    pub tree: &'a str,
    pub schedule: &'a str,
}

/// On which leaves the threads of a litmus test are.
#[derive(Clone, Copy)]
pub enum Placing<'a> {
    /// Each on the leaf of its own number.
    InOrder,
    /// On those that this word names.
    Named(&'a str),
}

/// Whose image is put out: that of the litmus test of a file for the tree of a file, for the runs of seeds or of all schedules, its
/// threads on these leaves.
#[derive(Clone, Copy)]
pub struct Assembly<'a> {
    pub test: &'a str,
    pub tree: &'a str,
    pub runs: Runs,
    pub placing: Placing<'a>,
}

/// What the program says of itself.
#[derive(Clone, Copy, Debug, PartialEq, Eq)]
pub enum About {
    /// Its commands.
    Help,
    Version,
    /// How help is asked for.
    Asking,
    /// The lines of faults, and what to do.
    Faults,
    // How one of them is used.
    Run,
    Trace,
    Seed,
    Schedule,
    Make,
    Check,
    Unjam,
    Save,
    Resume,
    Outcomes,
    Record,
    Measure,
    Survey,
    Join,
    Page,
    Assemble,
}

/// What the words of a command say.
#[derive(Clone, Copy)]
pub enum Command<'a> {
    Run(Prints, Run<'a>),
    /// The turns of a seed, for the tree of this file.
    List {
        tree: &'a str,
        seed: u64,
        count: u32,
    },
    /// Whether a witness is accepted.
    Check(Check<'a>),
    /// A run that goes on.
    Resume(Resumption<'a>),
    /// The different outcomes of many seeds.
    Outcomes(Seeds<'a>),
    /// The schedule of the turns of a seed that do something.
    Record(Recorded<'a>),
    /// What the recorded run of a seed is measured by.
    Measure(Recorded<'a>),
    /// The different ends of the recorded runs of many seeds.
    Survey(Survey<'a>),
    /// The table of all runs of the tables in these files.
    Join(&'a [String]),
    /// The page of a run.
    Page(Paged<'a>),
    /// The image of a litmus test.
    Assemble(Assembly<'a>),
    About(About),
}
