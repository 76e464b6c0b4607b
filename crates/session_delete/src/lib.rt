// The five commands of a session's text that take out, each read from behind its first word and carried out (specs/Removed.antt).
#![tactic(auto)]

ghost use Rattle.std.specs.Prelude.{◌≡◌, true, IfNone};
ghost use Rattle.book.specs.Plain.{plain};
ghost use Rattle.command_outcome.specs.Outcome.{Called};
ghost use Rattle.read_tokens.specs.Ahead.{Gives};
ghost use Rattle.read_command.specs.Forms.{removed, version_removed};
ghost use Rattle.session_delete.specs.Removed.{component_answer, component_command, is_of_kind, pair_answer, version_answer, version_command};
ghost use Rattle.book_rules.specs.Test as test;
ghost use Rattle.session_state.specs.Carried.{Decides};
ghost use Rattle.session_state.specs.State.{plain_state};
ghost use Rattle.text.specs.Language.{of_one, of_pair};
ghost use Rattle.refusal.specs.Numbers.{code, number};

use book::Book;
use read_command::{Component, Version};
use read_tokens::Reader;
use refusal::Refusal;
use session_state::State;

// ---- delspec, delmod, delsys

// The answer for a component without a number.
#[tactic(auto, unfolding(crate::specs::Removed::component_answer))]
fn component_answer(kind: Component) -> Refusal
    ensures { number result ≡ component_answer kind }
{
    match kind {
        Component::Spec => Refusal::NotSpecified,
        Component::Module => Refusal::NoModule,
        Component::System => Refusal::NoSystem,
    }
}

// The command of the component with the number c, carried out. It gives the answer. Each kind is a call of its own, so the match names
// them; what is asked of the Book is what each of these calls asks, and the caller has it from its State.
#[tactic(auto, unfolding(crate::specs::Removed::component_command))]
fn take_out(book: &mut Book, kind: Component, c: usize) -> Result<(), Refusal>
    requires { test.passes book.old.sets book.old.numbers ≡ true }
    ensures { Called book.old.sets book.old.numbers (component_command kind c) (code result) book.new.sets book.new.numbers }
{
    match kind {
        Component::Spec => command_delete::del_spec_in(book, c),
        Component::Module => command_delete::del_mod_in(book, c),
        Component::System => command_delete::del_sys_in(book, c),
    }
}

// delspec, delmod, delsys of the name that is read where the reader stands.
pub fn remove_component(
    state: &mut State,
    reader: &mut Reader<'_>,
    kind: Component,
) -> Option<Result<(), Refusal>>
    ensures answers { Gives (of_one (removed kind)) (λ a. Decides (plain_state state.old) (plain_state state.new) (code a))
        reader.old reader.new result }
    ensures unread { IfNone result (plain_state state.new ≡ plain_state state.old) }
    ensures names_kept { state.new.names ≡ state.old.names }
{
    let word = read_command::read_one(reader)?;
    let Some(c) = state.names.comps.lookup(word) else {
        return Some(Err(component_answer(kind)));
    };
    Some(take_out(&mut state.book, kind, c))
}

// ---- delmodvar, delsysvar

// The answer for a pair whose component has no number.
#[tactic(auto, unfolding(crate::specs::Removed::pair_answer))]
fn pair_answer(kind: Version) -> Refusal
    ensures { number result ≡ pair_answer kind }
{
    match kind {
        Version::Module => Refusal::NoModule,
        Version::System => Refusal::NoSystem,
    }
}

#[tactic(auto, unfolding(crate::specs::Removed::is_of_kind))]
fn is_of_kind(book: &Book, kind: Version, c: usize) -> bool
    ensures { result ≡ is_of_kind kind (plain book.now) c }
{
    match kind {
        Version::Module => book.is_module(c),
        Version::System => book.is_system(c),
    }
}

// The answer for a version without a number, of the component c.
fn version_answer(book: &Book, kind: Version, c: usize) -> Refusal
    ensures { number result ≡ version_answer kind (plain book.now) c }
{
    if is_of_kind(book, kind, c) {
        Refusal::NoVersion
    } else {
        pair_answer(kind)
    }
}

// The command of version v of the component c, carried out. It gives the answer. Each kind is a call of its own, so the match names them;
// what is asked of the Book is what each of these calls asks, and the caller has it from its State.
#[tactic(auto, unfolding(crate::specs::Removed::version_command))]
fn take_version_out(book: &mut Book, kind: Version, c: usize, v: usize) -> Result<(), Refusal>
    requires { test.passes book.old.sets book.old.numbers ≡ true }
    ensures { Called book.old.sets book.old.numbers (version_command kind c v) (code result) book.new.sets book.new.numbers }
{
    match kind {
        Version::Module => command_delete::del_modvar_in(book, c, v),
        Version::System => command_delete::del_sysvar_in(book, c, v),
    }
}

// delmodvar, delsysvar of the two names that are read where the reader stands.
pub fn remove_version(
    state: &mut State,
    reader: &mut Reader<'_>,
    kind: Version,
) -> Option<Result<(), Refusal>>
    ensures answers { Gives (of_pair (version_removed kind)) (λ a. Decides (plain_state state.old) (plain_state state.new) (code a))
        reader.old reader.new result }
    ensures unread { IfNone result (plain_state state.new ≡ plain_state state.old) }
    ensures names_kept { state.new.names ≡ state.old.names }
{
    let pair = read_command::read_pair(reader)?;
    let Some(c) = state.names.comps.lookup(pair.component) else {
        return Some(Err(pair_answer(kind)));
    };
    let Some(v) = state.names.vers.lookup(pair.version) else {
        return Some(Err(version_answer(&state.book, kind, c)));
    };
    Some(take_version_out(&mut state.book, kind, c, v))
}
