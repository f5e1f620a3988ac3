//! What variables told last, and what reads are answered from it.
ghost use Rattle.std.specs.Prelude.{◌≡◌, Some, IfOk};
ghost use Rattle.gateway_state.specs.Answer.{cached_value, reading, reading_over};

use crate::lists::find;
use crate::state::PlainRows;
use crate::upstream::MessageOf;
use gateway_state::{Given, Reading};
use gateway_values::{ConnectedVariable, cached_as, read_refusal};
use std::alloc::AllocError;

impl PlainRows {
    /// What a link was told last, as an asked type and count; nothing where these aren't covered.
    pub fn cached_value(
        &self,
        cid: u32,
        native: u32,
        dtype: u16,
        count: u32,
    ) -> Result<Option<Given>, AllocError>
        ensures { IfOk result (λ given. given ≡ cached_value self.now cid native dtype count) }
    {
        match find(&self.cache, MessageOf { cid }) {
            Some(last) => cached_as(self.alloc, native, dtype, count, last),
            None => Ok(None),
        }
    }

    fn reading_over(
        &self,
        rights: u32,
        dtype: u16,
        count: u32,
        variable: &ConnectedVariable<'_>,
    ) -> Result<Reading, AllocError>
        ensures { IfOk result (λ reading. reading ≡ reading_over self.now rights dtype count (Some variable.now)) }
    {
        let native = variable.native;
        if let Some(code) = read_refusal(native, rights, dtype, count) {
            return Ok(Reading::Refused(code));
        }
        match self.cached_value(variable.link.cid, native.count, dtype, count)? {
            Some(given) => Ok(Reading::Value(given.count, given.payload)),
            None => Ok(Reading::Waits),
        }
    }

    /// What a session's read would be answered.
    pub fn reading(
        &self,
        session: u32,
        sid: u32,
        dtype: u16,
        count: u32,
    ) -> Result<Reading, AllocError>
        ensures { IfOk result (λ answer. answer ≡ reading self.now session sid dtype count) }
    {
        let Some(channel) = self.channel_of(session, sid) else {
            return Ok(Reading::NoChannel);
        };
        let rights = self.rights_of(channel)?;
        match self.connected(&channel.real) {
            Some(variable) => self.reading_over(rights, dtype, count, &variable),
            None => Ok(Reading::NoChannel),
        }
    }
}
