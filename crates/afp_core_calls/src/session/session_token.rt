//! FPGetSessionToken and FPDisconnectOldSession (AFP Reference, under these names).
ghost use Rattle.std.specs.Prelude.{◌≡◌, ℕ, List, Ok, Option};
ghost use Rattle.afp_calls_grammar.specs.declared.grammar.call.Call.{Call};
ghost use Rattle.afp_core_state.specs.Running.{done as with_done, IsReady, RunsRow};
ghost use Rattle.afp_core_state.specs.lemma.KeptWorld.{table_in};
ghost use Rattle.session_table.specs.Sessions.{AreBelow};

use afp_base::{Bytes, OutOfMemory, SessionNumber};
use afp_core_state::{State, done, refused};
use afp_serial::{Outcome, Told};
use record_keeper::Keeper;

/// The bytes of a token.
const TOKEN_SIZE: u32 = 16;

/// Tells the session's token.
pub fn get_session_token<K: Keeper>(
    state: &mut State<K>,
    session: SessionNumber,
) -> Result<(Told, Outcome), OutOfMemory>
    ensures { (kind : ℕ) → (stamp : Option ℕ) → (id : List ℕ) → RunsRow state.old session.0 (Call.GetSessionToken kind stamp id) result state.new }
{
    let token = state.sessions.token(session);
    let mut block = Bytes::new(state.alloc);
    block.push_u32(TOKEN_SIZE)?;
    block.extend(&token)?;
    Ok((done(block), Outcome::Done))
}

/// Gives the old session of a token the link of this one, which ends.
pub fn disconnect_old_session<K: Keeper>(
    state: &mut State<K>,
    session: SessionNumber,
    token: &[u8],
) -> Told
    requires ready { IsReady state.old.world }
    requires below { AreBelow (table_in state.old.world) }
    ensures { (kind : ℕ) → RunsRow state.old session.0 (Call.DisconnectOldSession kind token.now) (Ok (with_done result)) state.new }
{
    match state.sessions.adopt(session, token, state.latest) {
        Ok(_) => {
            state.forks.close_session(session);
            done(Bytes::new(state.alloc))
        }
        Err(code) => refused(state.alloc, code),
    }
}
