//! The commands of scripts.
ghost use Rattle.std.specs.Prelude.{◌≡◌};
ghost use Rattle.replay_text.specs.Lines.{asking_named, command_named, upkeep_named};

/// What the first word of a line says.
#[derive(Clone, Copy, Debug, PartialEq, Eq)]
pub enum Command {
    Open,
    Lost,
    Client,
    Server,
    Found,
    Search,
    Sweep,
    Edit,
    Asks,
    Read,
    Sub,
    Props,
    Rights,
    Hold,
    Flow,
    Drain,
    Limit,
    Age,
    Probe,
    Seek,
}

impl Command {
    /// The command of this name.
    pub fn named(word: &[u8]) -> Option<Command>
        ensures { result ≡ command_named word.now }
    {
        if word == b"open".as_slice() {
            Some(Command::Open)
        } else if word == b"lost".as_slice() {
            Some(Command::Lost)
        } else if word == b"client".as_slice() {
            Some(Command::Client)
        } else if word == b"server".as_slice() {
            Some(Command::Server)
        } else if word == b"found".as_slice() {
            Some(Command::Found)
        } else if word == b"search".as_slice() {
            Some(Command::Search)
        } else if word == b"sweep".as_slice() {
            Some(Command::Sweep)
        } else if word == b"edit".as_slice() {
            Some(Command::Edit)
        } else {
            Command::asking_named(word)
        }
    }

    /// The command of this name that asks something, or says what is printed.
    fn asking_named(word: &[u8]) -> Option<Command>
        ensures { result ≡ asking_named word.now }
    {
        if word == b"asks".as_slice() {
            Some(Command::Asks)
        } else if word == b"read".as_slice() {
            Some(Command::Read)
        } else if word == b"sub".as_slice() {
            Some(Command::Sub)
        } else if word == b"props".as_slice() {
            Some(Command::Props)
        } else if word == b"rights".as_slice() {
            Some(Command::Rights)
        } else if word == b"hold".as_slice() {
            Some(Command::Hold)
        } else if word == b"flow".as_slice() {
            Some(Command::Flow)
        } else if word == b"drain".as_slice() {
            Some(Command::Drain)
        } else {
            Command::upkeep_named(word)
        }
    }

    /// The command of this name by which somebody sees after the gateway.
    fn upkeep_named(word: &[u8]) -> Option<Command>
        ensures { result ≡ upkeep_named word.now }
    {
        if word == b"limit".as_slice() {
            Some(Command::Limit)
        } else if word == b"age".as_slice() {
            Some(Command::Age)
        } else if word == b"probe".as_slice() {
            Some(Command::Probe)
        } else if word == b"seek".as_slice() {
            Some(Command::Seek)
        } else {
            None
        }
    }
}
