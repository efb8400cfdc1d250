//! The first words of commands.

/// What a command does, by its kind.
#[derive(Clone, Copy)]
pub(crate) enum Verb {
    Files(OnFiles),
    Given(OnGiven),
    Shown(Shown),
    Calls(OnCalls),
    Parts(OnParts),
    Table(Table),
    Task(Task),
}

/// Commands on the files of a host.
#[derive(Clone, Copy)]
pub(crate) enum OnFiles {
    Db,
    Images,
    Put,
    Keep,
    Fail,
    Fuse,
    Crash,
    Save,
    Load,
    Forget,
}

/// Commands on what a task is given.
#[derive(Clone, Copy)]
pub(crate) enum OnGiven {
    Case,
    Numbers,
    Input,
    Line,
    Question,
    Pieces,
}

/// Commands that show what the files hold.
#[derive(Clone, Copy)]
pub(crate) enum Shown {
    Sizes,
    Said,
    Pieces,
    Hex,
    Same,
    Blocks,
}

/// Commands on calls of a host.
#[derive(Clone, Copy)]
pub(crate) enum OnCalls {
    Call,
    Sure,
    Count,
    Reads,
    List,
}

/// Commands on files of images, and on inputs.
#[derive(Clone, Copy)]
pub(crate) enum OnParts {
    Chain,
    Group,
    Lines,
    Take,
}

/// Commands that perform a task often, or on other hosts.
#[derive(Clone, Copy)]
pub(crate) enum Table {
    Failures,
    Stops,
    Promise,
    Shrink,
}

/// What is done with a host.
#[derive(Clone, Copy)]
pub(crate) enum Task {
    Run,
    Gds,
    Create,
    Recover,
    Open,
    Units,
}

const VERBS: &[(&[u8], Verb)] = &[
    (b"db", Verb::Files(OnFiles::Db)),
    (b"images", Verb::Files(OnFiles::Images)),
    (b"put", Verb::Files(OnFiles::Put)),
    (b"keep", Verb::Files(OnFiles::Keep)),
    (b"fail", Verb::Files(OnFiles::Fail)),
    (b"fuse", Verb::Files(OnFiles::Fuse)),
    (b"crash", Verb::Files(OnFiles::Crash)),
    (b"save", Verb::Files(OnFiles::Save)),
    (b"load", Verb::Files(OnFiles::Load)),
    (b"forget", Verb::Files(OnFiles::Forget)),
    (b"case", Verb::Given(OnGiven::Case)),
    (b"numbers", Verb::Given(OnGiven::Numbers)),
    (b"input", Verb::Given(OnGiven::Input)),
    (b">", Verb::Given(OnGiven::Line)),
    (b"?", Verb::Given(OnGiven::Question)),
    (b"pieces", Verb::Given(OnGiven::Pieces)),
    (b"sizes", Verb::Shown(Shown::Sizes)),
    (b"said", Verb::Shown(Shown::Said)),
    (b"show", Verb::Shown(Shown::Pieces)),
    (b"hex", Verb::Shown(Shown::Hex)),
    (b"same", Verb::Shown(Shown::Same)),
    (b"blocks", Verb::Shown(Shown::Blocks)),
    (b"call", Verb::Calls(OnCalls::Call)),
    (b"sure", Verb::Calls(OnCalls::Sure)),
    (b"calls", Verb::Calls(OnCalls::Count)),
    (b"reads", Verb::Calls(OnCalls::Reads)),
    (b"list", Verb::Calls(OnCalls::List)),
    (b"chain", Verb::Parts(OnParts::Chain)),
    (b"group", Verb::Parts(OnParts::Group)),
    (b"lines", Verb::Parts(OnParts::Lines)),
    (b"take", Verb::Parts(OnParts::Take)),
    (b"failures", Verb::Table(Table::Failures)),
    (b"stops", Verb::Table(Table::Stops)),
    (b"promise", Verb::Table(Table::Promise)),
    (b"shrink", Verb::Table(Table::Shrink)),
    (b"run", Verb::Task(Task::Run)),
    (b"gds", Verb::Task(Task::Gds)),
    (b"create", Verb::Task(Task::Create)),
    (b"recover", Verb::Task(Task::Recover)),
    (b"open", Verb::Task(Task::Open)),
    (b"units", Verb::Task(Task::Units)),
];

/// The verb that a word is.
pub(crate) fn verb_of(word: &[u8]) -> Option<Verb> {
    for (name, verb) in VERBS {
        if *name == word {
            return Some(*verb);
        }
    }
    None
}

/// The task that a word names.
pub(crate) fn task_of(word: &[u8]) -> Option<Task> {
    match verb_of(word) {
        Some(Verb::Task(task)) => Some(task),
        _ => None,
    }
}
