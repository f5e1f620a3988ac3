//! Whom an update concerns.
ghost use Rattle.std.specs.Prelude.{◌≡◌};
ghost use Rattle.touched_rows.specs.Concern.{passes};
ghost use Rattle.touched_rows.specs.Touched.{owed_where};

use channel_table::ClientSub;
use gateway_values::{asks_for, is_concerned};
use mask_merge::PROPERTY_EVENT;

/// Whom an update concerns, of those who are subscribed to its variable.
#[derive(Clone, Copy)]
pub enum Concern {
    /// Nobody: none came.
    Nobody,
    /// It is a value: by the events that they ask for, where this says whether its alarm is another.
    Value(bool),
    /// It is of properties: those who ask for that event. The alarm of such a message is told to nobody.
    Properties,
}

impl Concern {
    pub fn passes(self, sub: &ClientSub) -> bool
        ensures { result ≡ passes self sub.now }
    {
        match self {
            Concern::Nobody => false,
            Concern::Value(differs) => is_concerned(differs, sub),
            Concern::Properties => asks_for(PROPERTY_EVENT, sub),
        }
    }

    /// The subscription, which is owed an update where it concerns it.
    pub fn marked(self, sub: ClientSub) -> ClientSub
        ensures { result ≡ owed_where (passes self) sub }
    {
        if self.passes(&sub) {
            ClientSub { owed: true, ..sub }
        } else {
            sub
        }
    }
}
