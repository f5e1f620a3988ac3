//! Channels that are gone with the links of several variables.
ghost use Rattle.std.specs.Prelude.{◌≡◌, map, filter, OnOk, IfOk};
ghost use Rattle.channel_table.specs.Looks.{GoesOn};
ghost use Rattle.gateway_rows.specs.Looked.{LookedOn};
ghost use Rattle.touched_rows.specs.Touched.{channels_gone_on, gone_notices_among, is_channel_among};

use crate::channels::{disconnected, tell_each};
use channel_table::{Channel, Visits};
use gateway_rows::{CountedRows, Known};
use gateway_state::ChannelNotice;
use std::alloc::AllocError;
use touched_rows::TouchedNames;

/// The channels on these variables, each once, in the order in which they were opened.
fn channels_among<'a>(
    known: &'a Known,
    visits: &mut Visits,
    names: &TouchedNames,
) -> Result<Vec<&'a Channel>, AllocError>
    requires own { visits.old.brand ≡ known.now.brand }
    ensures found { IfOk result (λ channels. map (λ channel. channel.now) channels.items ≡ filter (is_channel_among names.now) known.now.state.clients.channels) }
    ensures looked { GoesOn visits.old visits.new }
{
    known
        .clients
        .channels_on_any(visits, known.alloc, names.as_slice())
}

fn gone_notices(
    known: &Known,
    visits: &mut Visits,
    names: &TouchedNames,
) -> Result<Vec<ChannelNotice>, AllocError>
    requires own { visits.old.brand ≡ known.now.brand }
    ensures found { IfOk result (λ notices. notices.items ≡ gone_notices_among names.now known.now.state) }
    ensures looked { GoesOn visits.old visits.new }
{
    let mut notices = Vec::new(known.alloc);
    for channel in channels_among(known, visits, names)? {
        notices.push(disconnected(channel))?;
    }
    Ok(notices)
}

/// Tells clients that their channels on these variables are gone.
pub(crate) fn tell_gone(rows: &mut CountedRows, names: &TouchedNames) -> Result<(), AllocError>
    ensures ok { OnOk result (rows.new.state ≡ channels_gone_on names.now rows.old.state) }
    ensures looked { LookedOn rows.old rows.new }
{
    let notices = gone_notices(&rows.known, &mut rows.visits, names)?;
    tell_each(rows, &notices)
}
