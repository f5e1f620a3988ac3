//! What a server that was heard of is for the gateway.
ghost use Rattle.std.specs.Prelude.{◌≡◌};
ghost use Rattle.server_book.specs.Books.{has_waiting};

/// What is to be done about a name that a server has.
#[derive(Clone, Copy, Debug, PartialEq, Eq)]
pub enum Heard {
    /// The server of this number stands: the name is found on it.
    Find(u32),
    /// The server of this number is to be connected to. The name waits for that.
    Connect(u32),
    /// The server of this number is being connected to. The name waits for that.
    Waits(u32),
    /// The server is held off. The name doesn't wait.
    HeldOff,
    /// As many names wait as may. This one doesn't.
    Dropped,
    /// There are as many servers as may be. This one isn't known.
    Full,
}

impl Heard {
    /// Whether the name waits.
    pub fn has_waiting(self) -> bool
        ensures { result ≡ has_waiting self }
    {
        match self {
            Heard::Connect(_) | Heard::Waits(_) => true,
            Heard::Find(_) | Heard::HeldOff | Heard::Dropped | Heard::Full => false,
        }
    }
}
