//! The commands as a table: what other words each wants, and which options.
ghost use Rattle.std.specs.Prelude.{◌≡◌};
ghost use Rattle.call_words.specs.Grammar.{row};
ghost use Rattle.call_words.specs.Forms.{view};

/// What a word may be.
#[derive(Clone, Copy, Debug, PartialEq, Eq)]
pub enum Kind {
    /// The name of a file: it isn't empty, and doesn't begin with `-`.
    File,
    /// One to ten decimal digits, a number from the first to the second.
    Number(u64, u64),
}

/// The commands that there are.
#[derive(Clone, Copy, Debug, PartialEq, Eq)]
pub enum Command {
    /// The slices of a file's program at lines.
    Slice,
    /// The values at lines in a run of a file's program.
    Trace,
    /// What a run of a file's program writes.
    Run,
    /// The dependence graph of a file's program.
    Graph,
    /// The vertices of that graph that reach the statements on a line.
    Members,
    /// The numbers of the slice of a large program that is made from a seed.
    Big,
    /// The vertices of the graph of a file's program that the statements on a line reach.
    Forward,
    /// Those through which the statements on one line reach those on another.
    Chop,
}

/// An option, `--name value` or `--name=value`, and what its value may be.
#[derive(Clone, Copy, Debug)]
pub struct OptionForm {
    /// Its name, without the hyphens.
    pub name: &'static str,
    /// What its value may be.
    pub kind: Kind,
}

/// What a command wants: a row of the table.
#[derive(Clone, Copy, Debug)]
pub struct Form {
    /// The word that names the command.
    pub name: &'static str,
    /// What its other words are, in order.
    pub wanted: &'static [Kind],
    /// Whether the last of them may come more than once.
    pub repeats: bool,
    /// The options, each of which may be given once.
    pub options: &'static [OptionForm],
    /// The names of those that have to be given.
    pub required: &'static [&'static str],
}

// The number of a line: any number.
const LINE: Kind = Kind::Number(0, 9_999_999_999);

static FILE: [Kind; 1] = [Kind::File];

static FILE_AND_LINE: [Kind; 2] = [Kind::File, LINE];

static FILE_AND_TWO_LINES: [Kind; 3] = [Kind::File, LINE, LINE];

static SEED_AND_SIZE: [Kind; 2] = [Kind::Number(0, 2_147_483_647), Kind::Number(1, 1_000)];

static WORKERS: [OptionForm; 1] = [OptionForm {
    name: "workers",
    kind: Kind::Number(1, 16),
}];

static OF_RUNS: [OptionForm; 2] = [
    OptionForm {
        name: "input",
        kind: Kind::File,
    },
    OptionForm {
        name: "steps",
        kind: Kind::Number(1, 1_000_000_000),
    },
];

static NONE_REQUIRED: [&str; 0] = [];

static INPUT_REQUIRED: [&str; 1] = ["input"];

/// The row of a command.
pub fn form_of(command: Command) -> Form
    ensures { view result ≡ row command }
{
    match command {
        Command::Slice => Form {
            name: "slice",
            wanted: FILE_AND_LINE.as_slice(),
            repeats: true,
            options: WORKERS.as_slice(),
            required: NONE_REQUIRED.as_slice(),
        },
        Command::Trace => Form {
            name: "trace",
            wanted: FILE_AND_LINE.as_slice(),
            repeats: true,
            options: OF_RUNS.as_slice(),
            required: INPUT_REQUIRED.as_slice(),
        },
        Command::Run => Form {
            name: "run",
            wanted: FILE.as_slice(),
            repeats: false,
            options: OF_RUNS.as_slice(),
            required: INPUT_REQUIRED.as_slice(),
        },
        Command::Graph => Form {
            name: "graph",
            wanted: FILE.as_slice(),
            repeats: false,
            options: WORKERS.as_slice(),
            required: NONE_REQUIRED.as_slice(),
        },
        Command::Members => Form {
            name: "members",
            wanted: FILE_AND_LINE.as_slice(),
            repeats: false,
            options: WORKERS.as_slice(),
            required: NONE_REQUIRED.as_slice(),
        },
        Command::Big => Form {
            name: "big",
            wanted: SEED_AND_SIZE.as_slice(),
            repeats: false,
            options: WORKERS.as_slice(),
            required: NONE_REQUIRED.as_slice(),
        },
        Command::Forward => Form {
            name: "forward",
            wanted: FILE_AND_LINE.as_slice(),
            repeats: false,
            options: WORKERS.as_slice(),
            required: NONE_REQUIRED.as_slice(),
        },
        Command::Chop => Form {
            name: "chop",
            wanted: FILE_AND_TWO_LINES.as_slice(),
            repeats: false,
            options: WORKERS.as_slice(),
            required: NONE_REQUIRED.as_slice(),
        },
    }
}
