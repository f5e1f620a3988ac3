//! Which servers' failed tries were told.
ghost use Rattle.std.specs.Prelude.{◌≡◌, false, replicate, true};
ghost use Rattle.serve_state.specs.Outages.{is_news, is_told, marked};

use std::marker::Model;

/// A place for each number of a server, which are 1 to 1,024 at most; the first is nobody's.
const PLACES: usize = 1_025;

/// Who has a server connected to.
#[derive(Clone, Copy, Debug, PartialEq, Eq)]
pub enum Try {
    /// Somebody who wants to know: the start of the program, or a line of standard input.
    Ordered,
    /// Nobody: lost servers are tried again and again.
    Repeated,
}

/// Of which servers it was told, since they were last connected, that they can't be reached.
#[derive(Drop)]
pub struct Outages {
    told: [bool; PLACES],
}

impl Model for Outages {
    ghost use Rattle.std.specs.Prelude.{Bool, List};

    ghost Value = { List Bool };

    ghost view = { λ o. o.told };
}

impl Outages {
    /// Nothing was told.
    pub fn new() -> Outages
        ensures { result ≡ replicate 1025 false }
    {
        Outages {
            told: [false; PLACES],
        }
    }

    /// The server can't be reached. Whether that is news: where somebody wants to know, or it wasn't told since
    /// the server was last connected.
    pub fn fail(&mut self, number: u32, tried: Try) -> bool
        ensures news { result ≡ is_news tried number self.old }
        ensures new { self.new ≡ marked number true self.old }
    {
        let is_news = match tried {
            Try::Ordered => true,
            Try::Repeated => !self.is_told(number),
        };
        self.mark(number, true);
        is_news
    }

    /// The server is connected.
    pub fn end(&mut self, number: u32)
        ensures { self.new ≡ marked number false self.old }
    {
        self.mark(number, false);
    }

    fn is_told(&self, number: u32) -> bool
        ensures { result ≡ is_told number self.now }
    {
        match self.told.get(number as usize) {
            Some(is_told) => *is_told,
            None => false,
        }
    }

    fn mark(&mut self, number: u32, is_told: bool)
        ensures { self.new ≡ marked number is_told self.old }
    {
        let place = number as usize;
        if place < PLACES {
            self.told[place] = is_told;
        }
    }
}
