//! Where attachments stand among attachments that are in order.
ghost use Rattle.std.specs.Prelude.{◌≡◌, ◌≤◌, length, true};
ghost use Rattle.std.specs.List.{position, position_or_len};
ghost use Rattle.board_rings.specs.Attachments.{are_in_order, comes_before, is_from, is_attachment_of};

use crate::attachment::Attachment;
use gateway_state::Dest;

fn comes_before(a: Dest, b: Dest) -> bool
    ensures { result ≡ comes_before a b }
{
    a < b
}

/// How many attachments come before this connection's: its place.
pub(crate) fn place_for(rows: &[Attachment], dest: Dest) -> usize
    requires { are_in_order rows.now ≡ true }
    ensures within { result ≤ length rows.now }
    ensures place { result ≡ position_or_len (is_from dest) rows.now }
{
    rows.partition_point(|attachment| comes_before(attachment.dest(), dest))
}

/// The place of a connection's attachment, if it is attached. It is looked for at the guess first, whatever that
/// is: a walk over all attachments so finds each without a search.
pub(crate) fn place_near(rows: &[Attachment], dest: Dest, guess: usize) -> Option<usize>
    requires { are_in_order rows.now ≡ true }
    ensures { result ≡ position (is_attachment_of dest) rows.now }
{
    if guess < rows.len() && rows[guess].is_of(dest) {
        Some(guess)
    } else {
        place_of(rows, dest)
    }
}

/// The place of a connection's attachment, if it is attached.
pub(crate) fn place_of(rows: &[Attachment], dest: Dest) -> Option<usize>
    requires { are_in_order rows.now ≡ true }
    ensures { result ≡ position (is_attachment_of dest) rows.now }
{
    let place = place_for(rows, dest);
    if place < rows.len() && rows[place].is_of(dest) {
        Some(place)
    } else {
        None
    }
}
