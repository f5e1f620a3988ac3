//! The table's sessions.
ghost use Rattle.std.specs.Prelude.{◌≡◌, ◌≢◌, ◌≤◌, ◌<◌, ◌↔◌, [], ◌∷◌, ◌++◌, length, false, Err, OnOk, OnErr, IsErrOf};
ghost use Rattle.std.specs.List.{find};
ghost use Rattle.std.specs.Option.{option_copied};
ghost use Rattle.rows.specs.Rows.{change_first};
ghost use Rattle.channel_table.specs.ClientRows.{has_session};
ghost use Rattle.channel_table.specs.Looks.{IsCountedExactly};
ghost use Rattle.channel_table.specs.Sessions.{is_numbered, nth_by_number, with_host_and_pause, with_user};

use super::{SESSION_LIMIT, Table, TableFault};
use crate::sessions::Session;
use crate::user::User;
use crate::visits::Visits;
use pv_name::Host;

impl Table {
    /// The session of this number.
    pub fn session<'a>(&'a self, visits: &mut Visits, number: u32) -> Option<&'a Session>
        requires own { visits.old.brand ≡ self.now.brand }
        ensures found { option_copied result ≡ find (is_numbered number) self.now.rows.sessions }
        ensures looked { IsCountedExactly 1 visits.old visits.new }
    {
        visits.count(1);
        self.sessions.get(number)
    }

    /// The nth session by rising number, counted from 0.
    pub fn nth_session<'a>(&'a self, visits: &mut Visits, n: usize) -> Option<&'a Session>
        requires own { visits.old.brand ≡ self.now.brand }
        ensures nth { option_copied result ≡ nth_by_number n self.now.rows.sessions }
        ensures looked { IsCountedExactly 1 visits.old visits.new }
    {
        visits.count(1);
        self.sessions.nth(n)
    }

    /// How many sessions stand.
    pub fn all_sessions(&self) -> usize
        ensures { result ≡ length self.now.rows.sessions }
    {
        self.sessions.len()
    }

    /// Adds a session. The caller sees to it that none of its number stands.
    pub fn add_session(&mut self, session: Session) -> Result<(), TableFault>
        requires new { has_session session.number self.old.rows ≡ false }
        ensures ok { OnOk result (self.new.rows ≡ record self.old.rows { sessions = self.old.rows.sessions ++ session ∷ [] }) }
        ensures room { OnOk result (length self.old.rows.sessions < SESSION_LIMIT) }
        ensures missing { result ≢ Err TableFault.Missing }
        ensures full { IsErrOf result TableFault.Full ↔ (SESSION_LIMIT ≤ length self.old.rows.sessions) }
        ensures err { OnErr result (self.new ≡ self.old) }
        ensures brand { self.new.brand ≡ self.old.brand }
    {
        self.add_session_within(SESSION_LIMIT, session)
    }

    /// The same where as many sessions may stand as the caller says.
    pub fn add_session_within(&mut self, limit: usize, session: Session) -> Result<(), TableFault>
        requires new { has_session session.number self.old.rows ≡ false }
        ensures ok { OnOk result (self.new.rows ≡ record self.old.rows { sessions = self.old.rows.sessions ++ session ∷ [] }) }
        ensures room { OnOk result (length self.old.rows.sessions < limit) }
        ensures missing { result ≢ Err TableFault.Missing }
        ensures full { IsErrOf result TableFault.Full ↔ (limit ≤ length self.old.rows.sessions) }
        ensures err { OnErr result (self.new ≡ self.old) }
        ensures brand { self.new.brand ≡ self.old.brand }
    {
        if self.sessions.len() >= limit {
            return Err(TableFault::Full);
        }
        match self.sessions.add(session) {
            Ok(()) => Ok(()),
            Err(_) => Err(TableFault::OutOfMemory),
        }
    }

    /// Changes a session that stands: its host, whether that stays, and whether it wants no updates.
    pub fn put_session(
        &mut self,
        visits: &mut Visits,
        number: u32,
        host: Host,
        host_fixed: bool,
        paused: bool,
    )
        requires own { visits.old.brand ≡ self.old.brand }
        ensures put { self.new.rows ≡ record self.old.rows {
          sessions = change_first
              (is_numbered number) (with_host_and_pause host host_fixed paused) self.old.rows.sessions;
        } }
        ensures looked { IsCountedExactly 1 visits.old visits.new }
        ensures brand { self.new.brand ≡ self.old.brand }
    {
        visits.count(1);
        self.sessions.put(number, host, host_fixed, paused);
    }

    /// Changes what is said of the user of a session that stands.
    pub fn put_user(&mut self, visits: &mut Visits, number: u32, user: User)
        requires own { visits.old.brand ≡ self.old.brand }
        ensures put { self.new.rows ≡ record self.old.rows {
          sessions = change_first (is_numbered number) (with_user user) self.old.rows.sessions;
        } }
        ensures looked { IsCountedExactly 1 visits.old visits.new }
        ensures brand { self.new.brand ≡ self.old.brand }
    {
        visits.count(1);
        self.sessions.put_user(number, user);
    }
}
