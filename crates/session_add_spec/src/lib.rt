// The commands spec, mod and modvar of a session's text, each from behind its first word: its names are entered into copies of the tables that it may
// change, as they are read, and Book and tables are changed only if it is accepted. What an answer means is session_state/specs/Carried.antt.
#![tactic(auto)]

ghost use Rattle.std.specs.Prelude.{◌≡◌, IfNone};
ghost use Rattle.read_tokens.specs.Ahead.{Gives};
ghost use Rattle.refusal.specs.Numbers.{code};
ghost use Rattle.session_state.specs.Carried.{Decides};
ghost use Rattle.session_state.specs.State.{plain_state};
ghost use Rattle.text.specs.Language.{add_mod, add_modvar, add_spec};

use command_add::{add_mod_in, add_modvar_in, add_spec_in};
use read_tokens::Reader;
use refusal::Refusal;
use session_state::State;

// "spec", from behind that word. The adding commands differ in the tables that they may change: each copies and keeps its own, and promises
// that the others stay. Here it is those of components, versions and facilities.
pub fn add_spec(state: &mut State, reader: &mut Reader<'_>) -> Option<Result<(), Refusal>>
    ensures answers { Gives add_spec (λ a. Decides (plain_state state.old) (plain_state state.new) (code a)) reader.old reader.new result }
    ensures unread { IfNone result (plain_state state.new ≡ plain_state state.old) }
    ensures impls_kept { state.new.names.impls ≡ state.old.names.impls }
{
    let mut pairs = state.pairs();
    let mut facs = state.facs();
    let Some(r) = read_spec::read_spec(&mut pairs, &mut facs, reader)? else {
        return Some(Err(Refusal::NoPlace));
    };
    let book = &mut state.book;
    let answer = add_spec_in(book, r.component, r.provided, r.versions, r.standard);
    if answer.is_ok() {
        state.names.comps = pairs.comps.table;
        state.names.vers = pairs.vers.table;
        state.names.facs = facs.table;
    }
    Some(answer)
}

// "mod", from behind that word. It may change the tables of components, versions and implementations, and promises that the other stays.
pub fn add_mod(state: &mut State, reader: &mut Reader<'_>) -> Option<Result<(), Refusal>>
    ensures answers { Gives add_mod (λ a. Decides (plain_state state.old) (plain_state state.new) (code a)) reader.old reader.new result }
    ensures unread { IfNone result (plain_state state.new ≡ plain_state state.old) }
    ensures facs_kept { state.new.names.facs ≡ state.old.names.facs }
{
    let mut pairs = state.pairs();
    let mut impls = state.impls();
    let Some(r) = read_mod::read_mod(&mut pairs, &mut impls, reader)? else {
        return Some(Err(Refusal::NoPlace));
    };
    let answer = add_mod_in(&mut state.book, r.component, r.versions);
    if answer.is_ok() {
        state.names.comps = pairs.comps.table;
        state.names.vers = pairs.vers.table;
        state.names.impls = impls.table;
    }
    Some(answer)
}

// "modvar", from behind that word. It may change all four tables.
pub fn add_modvar(state: &mut State, reader: &mut Reader<'_>) -> Option<Result<(), Refusal>>
    ensures answers { Gives add_modvar (λ a. Decides (plain_state state.old) (plain_state state.new) (code a)) reader.old reader.new result }
    ensures unread { IfNone result (plain_state state.new ≡ plain_state state.old) }
{
    let mut pairs = state.pairs();
    let mut facs = state.facs();
    let mut impls = state.impls();
    let Some(r) = read_mod::read_modvar(&mut pairs, &mut facs, &mut impls, reader)? else {
        return Some(Err(Refusal::NoPlace));
    };
    let book = &mut state.book;
    let answer = add_modvar_in(book, r.component, r.version, r.required, r.implementation);
    if answer.is_ok() {
        state.names.comps = pairs.comps.table;
        state.names.vers = pairs.vers.table;
        state.names.facs = facs.table;
        state.names.impls = impls.table;
    }
    Some(answer)
}
