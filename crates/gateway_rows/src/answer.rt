//! What reads are answered.
ghost use Rattle.std.specs.Prelude.{◌≡◌, Some, IfOk};
ghost use Rattle.gateway_rows.specs.Looked.{OnlyLooked};
ghost use Rattle.gateway_state.specs.Answer.{cached_value, reading, reading_on, reading_over};
ghost use Rattle.gateway_state.specs.Told.{KnowRights, KnowsRights};

use crate::counted_rows::CountedRows;
use crate::state::Known;
use channel_table::Channel;
use gateway_state::{Given, Reading};
use gateway_values::{ConnectedVariable, cached_as, meant_count, read_refusal};
use std::alloc::AllocError;

impl Known {
    /// What a link was told last, as an asked type and count; nothing where these aren't covered.
    pub fn cached_value(
        &self,
        cid: u32,
        native: u32,
        dtype: u16,
        count: u32,
    ) -> Result<Option<Given>, AllocError>
        ensures { IfOk result (λ given. given ≡ cached_value self.now.state cid native dtype count) }
    {
        match self.cache.get(cid) {
            Some(last) => cached_as(self.alloc, native, dtype, count, last),
            None => Ok(None),
        }
    }

    /// Keeps what a link was told last as an asked type and count, where these are covered, so that all
    /// who ask for them are given one payload. What the gateway knows is as before, also at an error.
    pub fn keep_value(
        &mut self,
        cid: u32,
        native: u32,
        dtype: u16,
        count: u32,
    ) -> Result<(), AllocError>
        ensures same { self.new ≡ self.old }
    {
        match self.cache.get(cid) {
            Some(last) if last.held.covers(dtype, meant_count(native, count)) => self
                .cache
                .keep(self.alloc, cid, dtype, count),
            _ => Ok(()),
        }
    }

    /// Lets go large encodings of what a link was told last, where several are kept: once an update was
    /// told one is enough. What the gateway knows is as before.
    pub fn thin_value(&mut self, cid: u32)
        ensures same { self.new ≡ self.old }
    {
        self.cache.thin(cid);
    }

    fn reading_over(
        &self,
        rights: u32,
        dtype: u16,
        count: u32,
        variable: &ConnectedVariable<'_>,
    ) -> Result<Reading, AllocError>
        ensures { IfOk result (λ reading. reading ≡ reading_over self.now.state rights dtype count (Some variable.now)) }
    {
        let native = variable.native;
        if let Some(code) = read_refusal(native, rights, dtype, count) {
            return Ok(Reading::Refused(code));
        }
        match self.cached_value(variable.link.cid, native.count, dtype, count)? {
            Some(given) => Ok(Reading::Value(given.count, given.payload)),
            None => Ok(Reading::Waits),
        }
    }

    fn reading_on(&self, channel: &Channel, dtype: u16, count: u32) -> Result<Reading, AllocError>
        requires told { KnowsRights self.now.state channel.now }
        ensures { IfOk result (λ reading. reading ≡ reading_on self.now.state dtype count (Some channel.now)) }
    {
        let rights = channel.rights_told;
        match self.connected(&channel.real) {
            Some(variable) => self.reading_over(rights, dtype, count, &variable),
            None => Ok(Reading::NoChannel),
        }
    }
}

impl CountedRows {
    /// What a session's read would be answered.
    pub fn reading(
        &mut self,
        session: u32,
        sid: u32,
        dtype: u16,
        count: u32,
    ) -> Result<Reading, AllocError>
        requires told { KnowRights self.old.state }
        ensures found { IfOk result (λ answer. answer ≡ reading self.old.state session sid dtype count) }
        ensures looked { OnlyLooked 1 self.old self.new }
    {
        let known = &self.known;
        match known.told_channel(&mut self.visits, session, sid) {
            Some(channel) => known.reading_on(channel, dtype, count),
            None => Ok(Reading::NoChannel),
        }
    }
}
