//! CLIENT_NAME.
ghost use Rattle.std.specs.Prelude.{◌≡◌, OnOk, IfOk};
ghost use Rattle.gateway_rows.specs.Looked.{Looked};
ghost use Rattle.gateway_state.specs.Clients.{client_named};
ghost use Rattle.touched_rows.specs.declared.touched.Touched.TheVariants.{Nothing};

use ca_message::NameText;
use channel_table::User;
use gateway_rows::CountedRows;
use std::alloc::AllocError;
use touched_rows::Touched;

/// A client said what its user is called.
pub(crate) fn hear_client_name(
    rows: &mut CountedRows,
    number: u32,
    name: &NameText<'_>,
) -> Result<Touched, AllocError>
    ensures ok { OnOk result (rows.new.state ≡ client_named number name.now rows.old.state) }
    ensures touched { IfOk result (λ touched. touched ≡ Nothing) }
    ensures looked { Looked 2 rows.old rows.new }
{
    let user = User::new(rows.known.alloc, name.as_slice())?;
    name_user(rows, number, user);
    Ok(Touched::Nothing)
}

/// What a client's user is called, which counts until its host is fixed: as long as that may change.
#[tactic(auto, using(rows::proofs::RowLemmas::change_first_as, rows::proofs::RowLemmas::change_first_unfound, rows::proofs::RowLemmas::change_first_kept))]
fn name_user(rows: &mut CountedRows, number: u32, user: User)
    ensures named { rows.new.state ≡ client_named number user rows.old.state }
    ensures looked { Looked 2 rows.old rows.new }
{
    let Some(session) = rows.known.clients.session(&mut rows.visits, number) else {
        return;
    };
    if session.host_fixed {
        return;
    }
    rows.known.clients.put_user(&mut rows.visits, number, user);
}
