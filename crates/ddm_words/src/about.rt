//! What the program says of itself: help, its faults, its version.

ghost use Rattle.std.specs.Prelude.{◌≡◌};
ghost use Rattle.ddm_words.specs.About.{faults_text, further_text, help_text, named_text, own_text};

use crate::command::About;

const HELP: &[u8] =
    br"ddm runs RV32IA programs on a Data Diffusion Machine; every run is one order of one flat memory.

  ddm run IMAGE TREE SCHEDULE      the report of a run: harts, traffic, items and the witness
  ddm trace IMAGE TREE SCHEDULE    a line for each turn, and then the report
  ddm seed IMAGE TREE SEED TURNS   the report of the schedule of a seed
  ddm schedule TREE SEED TURNS     the schedule of a seed
  ddm make SEED ROUNDS TREE        the summary of a random program under a seeded schedule
  ddm check IMAGE TREE WITNESS     whether a witness is one legal run of the flat machine
  ddm unjam IMAGE TREE SCHEDULE    the turn of a bus that goes on where a leaf waits
  ddm save IMAGE TREE SCHEDULE     the checkpoint of the machine after a run
  ddm resume IMAGE TREE CHECKPOINT SCHEDULE
                                   the report of a run that goes on from a checkpoint
  ddm outcomes IMAGE TREE FIRST COUNT TURNS
                                   what the runs of many seeds come to
  ddm record IMAGE TREE KIND SEED TURNS
                                   the schedule of the turns of a seed that do something
  ddm measure IMAGE TREE KIND SEED TURNS
                                   what such a run is measured by
  ddm survey IMAGE TREE KIND FIRST COUNT TURNS
                                   what the recorded runs of many seeds come to
  ddm join TABLE TABLE ..          the table of all runs of several tables
  ddm page IMAGE TREE SCHEDULE     a page that shows the run turn by turn, for a browser
  ddm assemble FILE TREE [all] [PLACES]
                                   the image of a litmus test
  ddm help COMMAND                 more of one of these
  ddm --help, ddm --version
";

const VERSION: &[u8] = b"ddm 1\n";

const ASKING: &[u8] = br"ddm --help, ddm -h, ddm help   the commands
ddm help COMMAND               how a command is used, and what its files are
ddm COMMAND --help             the same, and so ddm COMMAND -h
ddm help faults                each line of a fault, and what to do
ddm help help                  how help is asked for
ddm --version                  the version
";

const FAULTS: &[u8] = br"A command that isn't done puts one line on standard error, ddm: and what is
wrong. The number before it here is the status that it ends with; behind it
stands what to do.

 2 usage: word N                     word N, counted from 0 behind ddm, is
                                     wrong or missing: see ddm help COMMAND
 3 image: too long                   4 MiB are the most: link it with -s
 3 image: not elf                    give the image first and then the tree
 3 image: wrong class                compile it for 32 bits: -march=rv32ia
                                     -mabi=ilp32
 3 image: not executable             link it, with -static and -no-pie
 3 image: wrong machine              compile it for RISC-V
 3 image: compressed                 compile all of it with -march=rv32ia
 3 image: hard float                 compile all of it with -mabi=ilp32
 3 image: embedded                   compile all of it with -mabi=ilp32
 3 image: too many headers N         64 are the most: link fewer segments
 3 image: header outside N           the file is cut or damaged: link it again
 3 image: dynamic N                  link it with -static and -no-pie
 3 image: segment outside N          the file is cut or damaged: link it again
 3 image: address wraps N            link segment N to lower addresses
 3 image: segments overlap N M       link these segments to addresses apart
 3 image: no segments                nothing in it is loaded: link code
 3 image: too much code N            it has N bytes of code, 1048576 are the
                                     most: optimize for size
 3 image: too many items N           65536 are the most: take smaller arrays or
                                     stacks, or items of 64 bytes
 3 image: bad entry N                there is no code at address N: name the
                                     entry _start, or link with -e NAME
 3 image: stack overlap H N          the stack of hart H meets segment N:
                                     change stack_base
 3 image: no place N                 N places are too few for the items: give
                                     the tree more sets or ways, or smaller
                                     stacks
 4 tree: too long                    65536 bytes are the most
 4 tree: not toml                    write KEY = VALUE in each line, shape in
                                     quotes and no key twice
 4 tree: unknown key KEY             take this key out, or spell it right
 4 tree: missing key KEY             add a line with this key
 4 tree: wrong type KEY              shape is a text in quotes, all others are
                                     whole numbers
 4 tree: bad shape N                 look behind the first N bytes of the shape
 4 tree: uneven                      bring all leaves to the same depth
 4 tree: too deep                    4 levels of buses are the most
 4 tree: too wide                    16 nodes under a bus are the most
 4 tree: too many leaves             64 are the most
 4 tree: out of range KEY            take a number that ddm help run allows
 5 schedule line N: bad turn         spell line N as ddm help run says
 5 schedule line N: too many turns   1048576 are the most, with those before a
                                     checkpoint; for page, 100000
 5 schedule line N: no such hart     line N is for a larger tree
 5 schedule line N: no such bus      line N is for a larger tree
 5 schedule line N: no such child    line N is for a larger tree
 5 schedule line N: no end           end the file with a line end
 5 schedule line N: after end        take out what stands behind the line end
 6 cannot read the image             see that the file is there and may be read
 6 cannot read the tree              see that the file is there and may be read
 6 cannot read the schedule          see that the file is there and may be read
 6 cannot read the witness           see that the file is there and may be read
 6 cannot read the checkpoint        see that the file is there and may be read
 6 cannot read the test              see that the file is there and may be read
 6 cannot read table N               see that the file is there and may be read
 7 cannot write                      see that the disk has room and the reader
                                     goes on
 8 no memory                         let the process have more
10 witness: too long                 168820736 bytes are the most
10 witness line N: bad line          give op lines of a report alone, all whole
10 witness line N: too many lines    1048576 are the most
10 witness line N: not legal         the operation is not the next step of its
                                     hart: so the witness is wrong, or of
                                     another image or tree
11 checkpoint: too long              536870912 bytes are the most
11 checkpoint: not checkpoint        give a file that ddm save put out
11 checkpoint: wrong version N       save it with this version
11 checkpoint: cut WORD              the file ends early: save it again
11 checkpoint: other machine WORD    resume with the image and the tree that it
                                     was saved with
11 checkpoint: bad word WORD         the file was changed: save it again
11 checkpoint: after end             the file was changed: save it again
11 checkpoint: broken leaf LEAF      the file was changed: save it again
11 checkpoint: broken rule BUS ITEM  the file was changed: save it again
11 checkpoint: broken stamp BUS      the file was changed: save it again
11 checkpoint: broken key OPERATION  the file was changed: save it again
12 small lists: KEY                  give this list in the tree eight places an
                                     item, an item for each line `item` of ddm
                                     run
13 litmus: too long                  65536 bytes are the most
13 litmus line N: WHAT               write line N as herd7 reads RISC-V of 32
                                     bits
13 litmus: too many observed N       64 registers and locations are the most
13 litmus: too many locations N      256 are the most
13 litmus: too many threads N        give a tree with N leaves or more
13 litmus: other places N            name N leaves, one for each thread
13 litmus: no leaf N                 the tree's leaves are counted from 0 on
15 table N: too long                 67108864 bytes are the most
15 table N line L: bad line          give tables as ddm outcomes or ddm survey
                                     puts them out
15 table N line L: no end            the file ends early: make the table again
15 table N line L: after end         take out what stands behind the line end
15 table N: other kind               join tables of outcomes and survey apart
15 table N: too many runs            18446744073709551615 are the most
";

const RUN: &[u8] = br"ddm run IMAGE TREE SCHEDULE
Makes the turns of a schedule file on the machine of an ELF image and a tree
file, and prints the report: harts, traffic, items and the witness.
";

const TRACE: &[u8] = br"ddm trace IMAGE TREE SCHEDULE
Makes the turns as run does, and prints a line for each with its answer, and
then the report.
";

const SEED: &[u8] = br"ddm seed IMAGE TREE SEED TURNS
Makes the turns of a seeded schedule, and prints the report.
";

const SCHEDULE: &[u8] = br"ddm schedule TREE SEED TURNS
Prints the seeded schedule for a tree.
";

const MAKE: &[u8] = br"ddm make SEED ROUNDS TREE
Runs a random program, the same for every hart, under a seeded schedule of 20
turns a round and 1000, and prints the summary.
";

const CHECK: &[u8] = br"ddm check IMAGE TREE WITNESS
Judges the operation lines of a report by the flat machine alone, and prints
how many are legal.
";

const UNJAM: &[u8] = br"ddm unjam IMAGE TREE SCHEDULE
Makes the turns as run does, and prints the first turn of a bus that would be
granted where a leaf waits, or none. Down, requests and replies of the tree
need at least eight places for each item.
";

const SAVE: &[u8] = br"ddm save IMAGE TREE SCHEDULE
Makes the turns as run does, and puts out the checkpoint: the bytes of a file
that tells the machine and its counts.
";

const RESUME: &[u8] = br"ddm resume IMAGE TREE CHECKPOINT SCHEDULE
Makes the turns of a schedule file on the machine of a checkpoint of the same
image and tree, and prints the report of all turns together: those before the
checkpoint are counted, and with them there are at most 1048576.
";

const OUTCOMES: &[u8] = br"ddm outcomes IMAGE TREE FIRST COUNT TURNS
Runs the seeded schedules of COUNT seeds from FIRST on, of TURNS turns each,
and prints each different outcome: how many seeds gave it, the smallest of
these, and of each hart how it ended and what it put out.
";

const RECORD: &[u8] = br"ddm record IMAGE TREE KIND SEED TURNS
Makes the turns of a seed, and prints the schedule of those that do something,
until there are TURNS of them, every hart has halted, or 16777216 turns in a
row did nothing. KIND is even, or skewed: each turn of the tree has a rate of
the seed's.
";

const MEASURE: &[u8] = br"ddm measure IMAGE TREE KIND SEED TURNS
Makes the turns of a seed as record does, and prints what the run came to: how
it ended, and how many turns did what; of each hart its loads and stores, its
misses and upgrades; of each bus its traffic; how long each list was at most;
and of each item how often it was missed and moved.
";

const SURVEY: &[u8] = br"ddm survey IMAGE TREE KIND FIRST COUNT TURNS
Makes the runs of COUNT seeds from FIRST on, each as record does, and prints
each different end: how many seeds gave it, the smallest of these, why the run
ended (halted, turns, stuck or drawn), and of each hart how it ended and what
it put out.
";

const JOIN: &[u8] = br"ddm join TABLE TABLE ..
Prints the table of all runs of 2 to 256 tables, each of 64 MiB at most: what
ddm outcomes printed, or what ddm survey did. Where no seed is in two of them
it is the table of all these seeds.
";

const PAGE: &[u8] = br"ddm page IMAGE TREE SCHEDULE
Makes the turns as run does, and prints an HTML page that shows each of them in
a browser. There are at most 100000 turns.
";

const ASSEMBLE: &[u8] = br"ddm assemble FILE TREE [PLACES], ddm assemble FILE TREE all [PLACES]
Puts out the image of a litmus test of RISC-V, in the format of herd7: the
bytes of an ELF file, which other commands run. PLACES are the leaves of the
threads, 0,2; without them thread K is on leaf K. In the image for the runs of
seeds, each thread first loads what it will use, and waits; with all it
doesn't.
";

const NAMED: &[u8] = br#"
IMAGE is an ELF file for RV32IA of at most 4 MiB. Every hart begins at its
entry, its number in a0, the number of harts in a1. An example, made from C:
  riscv64-unknown-elf-gcc -march=rv32ia -mabi=ilp32 -nostdlib -Wl,--no-relax \
    -o IMAGE program.c -lgcc

TREE is a TOML file, a line for each key. In its shape L is a leaf with a hart,
and (..) a bus over leaves or over buses. An example, two harts under one bus:
  printf '%s\n' 'shape="(LL)"' ways=4 sets=256 buffer=4 parking=4 down=64 \
    requests=64 replies=64 stack_base=1048576 stack_bytes=4096 > TREE

SCHEDULE has a turn in each line, `h HART VICTIM` or `g BUS` with `d`,
`q CHILD`, `r CHILD` or `l CHILD CHOICE`, and then a line `end`. An example, in
which hart 0 tries an instruction, and bus 0 grants what it asks for:
  printf 'h 0 0\ng 0 q 0\nend\n' > SCHEDULE

WITNESS has the lines of a report that begin with op, and CHECKPOINT is what
ddm save puts out. An example of each:
  ddm run IMAGE TREE SCHEDULE | grep '^op' > WITNESS
  ddm save IMAGE TREE SCHEDULE > CHECKPOINT

SEED and FIRST have 64 bits. TURNS is 0 to 1048576, and no schedule has more;
of measure it is 0 to 1000000000. ROUNDS is 1 to 50000, COUNT 1 to 1000000,
VICTIM and CHOICE 0 to 255. A tree has 4 levels of buses at most, 16 nodes
under a bus and 64 leaves. ways is 1, 2 or 4; sets, down, requests and replies
are 1 to 4096, buffer 1 to 16, parking 1 to 64. stack_base is a multiple of 16,
4294967280 at most, and so is stack_bytes, 1048576 at most. item_bytes is 64,
or 16, as where it is missing.
"#;

// Each line of a fault, and what to do.
fn faults_text() -> &'static [u8]
    ensures { result.now ≡ faults_text }
{
    FAULTS
}

fn help_text() -> &'static [u8]
    ensures { result.now ≡ help_text }
{
    HELP
}

// What the words of a command name, an example of each, and how large their numbers may be.
fn named_text() -> &'static [u8]
    ensures { result.now ≡ named_text }
{
    NAMED
}

/// What is said of this alone.
pub fn own_text(about: About) -> &'static [u8]
    ensures { result.now ≡ own_text about }
{
    match about {
        About::Help => help_text(),
        About::Version => VERSION,
        About::Asking => ASKING,
        About::Faults => faults_text(),
        About::Run => RUN,
        About::Trace => TRACE,
        About::Seed => SEED,
        About::Schedule => SCHEDULE,
        About::Make => MAKE,
        About::Check => CHECK,
        About::Unjam => UNJAM,
        About::Save => SAVE,
        About::Resume => RESUME,
        About::Outcomes => OUTCOMES,
        About::Record => RECORD,
        About::Measure => MEASURE,
        About::Survey => SURVEY,
        About::Join => JOIN,
        About::Page => PAGE,
        About::Assemble => ASSEMBLE,
    }
}

/// What is said after it.
pub fn further_text(about: About) -> &'static [u8]
    ensures { result.now ≡ further_text about }
{
    match about {
        About::Help | About::Version | About::Asking | About::Faults => b"",
        About::Run
        | About::Trace
        | About::Seed
        | About::Schedule
        | About::Make
        | About::Check
        | About::Unjam
        | About::Save
        | About::Resume
        | About::Outcomes
        | About::Record
        | About::Measure
        | About::Survey
        | About::Join
        | About::Page
        | About::Assemble => named_text(),
    }
}
