// The commands sys and sysvar of a session's text, each from behind its first word: its names are entered into copies of the tables that it may
// change, as they are read, and Book and tables are changed only if it is accepted. What an answer means is session_state/specs/Carried.antt.
#![tactic(auto)]

ghost use Rattle.std.specs.Prelude.{◌≡◌, IfNone};
ghost use Rattle.read_tokens.specs.Ahead.{Gives};
ghost use Rattle.refusal.specs.Numbers.{code};
ghost use Rattle.session_state.specs.Carried.{Decides};
ghost use Rattle.session_state.specs.State.{plain_state};
ghost use Rattle.text.specs.Language.{add_sys, add_sysvar};

use command_add::{add_sys_in, add_sysvar_in};
use read_tokens::Reader;
use refusal::Refusal;
use session_state::State;

// "sys", from behind that word. It may change the tables of components and versions, and promises that the others stay.
pub fn add_sys(state: &mut State, reader: &mut Reader<'_>) -> Option<Result<(), Refusal>>
    ensures answers { Gives add_sys (λ a. Decides (plain_state state.old) (plain_state state.new) (code a)) reader.old reader.new result }
    ensures unread { IfNone result (plain_state state.new ≡ plain_state state.old) }
    ensures facs_kept { state.new.names.facs ≡ state.old.names.facs }
    ensures impls_kept { state.new.names.impls ≡ state.old.names.impls }
{
    let mut pairs = state.pairs();
    let Some(r) = read_sys::read_sys(&mut pairs, reader)? else {
        return Some(Err(Refusal::NoPlace));
    };
    let answer = add_sys_in(&mut state.book, r.component, r.usable, &r.versions);
    if answer.is_ok() {
        state.names.comps = pairs.comps.table;
        state.names.vers = pairs.vers.table;
    }
    Some(answer)
}

// "sysvar", from behind that word. It may change the tables of components and versions, and promises that the others stay.
pub fn add_sysvar(state: &mut State, reader: &mut Reader<'_>) -> Option<Result<(), Refusal>>
    ensures answers { Gives add_sysvar (λ a. Decides (plain_state state.old) (plain_state state.new) (code a)) reader.old reader.new result }
    ensures unread { IfNone result (plain_state state.new ≡ plain_state state.old) }
    ensures facs_kept { state.new.names.facs ≡ state.old.names.facs }
    ensures impls_kept { state.new.names.impls ≡ state.old.names.impls }
{
    let mut pairs = state.pairs();
    let Some(r) = read_sys::read_sysvar(&mut pairs, reader)? else {
        return Some(Err(Refusal::NoPlace));
    };
    let answer = add_sysvar_in(&mut state.book, r.component, r.version, r.composition);
    if answer.is_ok() {
        state.names.comps = pairs.comps.table;
        state.names.vers = pairs.vers.table;
    }
    Some(answer)
}
