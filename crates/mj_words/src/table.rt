// The table of commands.
ghost use Rattle.std.specs.Prelude.{◌≡◌};
ghost use Rattle.mj_words.specs.Table as spec;

/// A command.
#[derive(Clone, Copy, Debug)]
pub enum Command {
    /// A model runs, and its steps are traced.
    Run,
    /// A model is generated.
    Gen,
    /// A generated model runs with a generated tape, and its steps are summed.
    Bench,
    /// A model runs with each of several tapes, and the steps of each run are summed.
    Batch,
    /// A model runs, and its steps are traced with the forces of their rows one by one.
    Inverse,
    /// A dump is judged without a model.
    Check,
}

/// A name, after which a value stands.
#[derive(Clone, Copy, Debug)]
pub enum Name {
    /// The file of a model.
    Model,
    /// How many steps are run.
    Steps,
    /// The file of a tape.
    Tape,
    /// Whether the trace shows each step's dual; of `check` the file that does.
    Dual,
    /// Whether the trace shows a ball around each step's acceleration.
    Ball,
    /// How many links a generated model has.
    Links,
    /// What a generated model is drawn from.
    Seed,
    /// How many threads work at most.
    Workers,
}

/// What values a name takes.
#[derive(Clone, Copy, Debug)]
pub enum Form {
    /// The name of a file: 1 to 4,096 bytes.
    FileName,
    /// `yes` or `no`.
    YesNo,
    /// A number within these.
    Number { least: u32, most: u32 },
}

/// How a command takes a name.
#[derive(Clone, Copy, Debug)]
pub struct Rule {
    /// How often it may stand.
    pub times: usize,
    /// Whether it must stand.
    pub required: bool,
    /// What values it takes.
    pub form: Form,
}

impl Command {
    /// The command that a text is.
    pub fn named(text: &str) -> Option<Command>
        ensures { result ≡ spec.command_named text.now }
    {
        if text == "run" {
            Some(Command::Run)
        } else if text == "gen" {
            Some(Command::Gen)
        } else if text == "bench" {
            Some(Command::Bench)
        } else if text == "batch" {
            Some(Command::Batch)
        } else if text == "inverse" {
            Some(Command::Inverse)
        } else if text == "check" {
            Some(Command::Check)
        } else {
            None
        }
    }

    // Whether it is the inverse dynamics.
    pub(crate) fn is_inverse(self) -> bool
        ensures { result ≡ spec.is_inverse self }
    {
        match self {
            Command::Inverse => true,
            _ => false,
        }
    }

    /// How it takes a name.
    pub fn rule(self, name: Name) -> Rule
        ensures { result ≡ spec.rule self name }
    {
        match self {
            Command::Run => run_rule(name),
            Command::Gen => gen_rule(name),
            Command::Bench => bench_rule(name),
            Command::Batch => batch_rule(name),
            Command::Inverse => inverse_rule(name),
            Command::Check => check_rule(name),
        }
    }

    /// How it takes a text in a name's place.
    pub fn rule_of(self, text: &str) -> Rule
        ensures { result ≡ spec.rule_of self text.now }
    {
        match Name::of(text) {
            Some(name) => self.rule(name),
            None => foreign(),
        }
    }
}

impl Name {
    /// Its text.
    pub fn text(self) -> &'static str
        ensures { result.now ≡ spec.text_of self }
    {
        match self {
            Name::Model => "--model",
            Name::Steps => "--steps",
            Name::Tape => "--tape",
            Name::Dual => "--dual",
            Name::Ball => "--ball",
            Name::Links => "--links",
            Name::Seed => "--seed",
            Name::Workers => "--workers",
        }
    }

    /// The name that a text is.
    pub fn of(text: &str) -> Option<Name>
        ensures { result ≡ spec.name_of text.now }
    {
        if text == "--model" {
            Some(Name::Model)
        } else if text == "--steps" {
            Some(Name::Steps)
        } else if text == "--tape" {
            Some(Name::Tape)
        } else if text == "--dual" {
            Some(Name::Dual)
        } else if text == "--ball" {
            Some(Name::Ball)
        } else if text == "--links" {
            Some(Name::Links)
        } else if text == "--seed" {
            Some(Name::Seed)
        } else if text == "--workers" {
            Some(Name::Workers)
        } else {
            None
        }
    }
}

// A name that must stand, once.
fn required(form: Form) -> Rule
    ensures { result ≡ spec.required form }
{
    Rule {
        times: 1,
        required: true,
        form,
    }
}

// A name that must stand, and may so often.
fn repeated(times: usize, form: Form) -> Rule
    ensures { result ≡ spec.repeated times form }
{
    Rule {
        times,
        required: true,
        form,
    }
}

// A name that may stand, once.
fn optional(form: Form) -> Rule
    ensures { result ≡ spec.optional form }
{
    Rule {
        times: 1,
        required: false,
        form,
    }
}

// A name that the command doesn't take.
fn foreign() -> Rule
    ensures { result ≡ spec.foreign }
{
    Rule {
        times: 0,
        required: false,
        form: Form::FileName,
    }
}

fn run_rule(name: Name) -> Rule
    ensures { result ≡ spec.run_rule name }
{
    match name {
        Name::Model => required(Form::FileName),
        Name::Steps => required(Form::Number {
            least: 0,
            most: 1_000_000,
        }),
        Name::Tape => optional(Form::FileName),
        Name::Dual => optional(Form::YesNo),
        Name::Ball => optional(Form::YesNo),
        _ => foreign(),
    }
}

fn gen_rule(name: Name) -> Rule
    ensures { result ≡ spec.gen_rule name }
{
    match name {
        Name::Links => required(Form::Number { least: 1, most: 64 }),
        Name::Seed => required(Form::Number {
            least: 0,
            most: 4_294_967_295,
        }),
        _ => foreign(),
    }
}

fn bench_rule(name: Name) -> Rule
    ensures { result ≡ spec.bench_rule name }
{
    match name {
        Name::Links => required(Form::Number { least: 1, most: 64 }),
        Name::Seed => required(Form::Number {
            least: 0,
            most: 4_294_967_295,
        }),
        Name::Steps => required(Form::Number {
            least: 0,
            most: 10_000,
        }),
        _ => foreign(),
    }
}

fn batch_rule(name: Name) -> Rule
    ensures { result ≡ spec.batch_rule name }
{
    match name {
        Name::Model => required(Form::FileName),
        Name::Steps => required(Form::Number {
            least: 0,
            most: 1_000_000,
        }),
        Name::Tape => repeated(64, Form::FileName),
        Name::Workers => required(Form::Number { least: 1, most: 64 }),
        _ => foreign(),
    }
}

fn inverse_rule(name: Name) -> Rule
    ensures { result ≡ spec.inverse_rule name }
{
    match name {
        Name::Model => required(Form::FileName),
        Name::Steps => required(Form::Number {
            least: 0,
            most: 1_000_000,
        }),
        Name::Tape => optional(Form::FileName),
        _ => foreign(),
    }
}

fn check_rule(name: Name) -> Rule
    ensures { result ≡ spec.check_rule name }
{
    match name {
        Name::Dual => required(Form::FileName),
        _ => foreign(),
    }
}
