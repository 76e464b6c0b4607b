// One of the ten commands, whose first word is read: its answer, and its change of book and tables.
#![tactic(auto)]

ghost use Rattle.std.specs.Prelude.{◌≡◌, IfNone};
ghost use Rattle.read_tokens.specs.Ahead.{Gives};
ghost use Rattle.refusal.specs.Numbers.{code};
ghost use Rattle.session_state.specs.Carried.{Decides};
ghost use Rattle.session_state.specs.State.{plain_state};
ghost use Rattle.read_command.specs.Forms.{command_reader};

use read_command::Command;
use read_tokens::Reader;
use refusal::Refusal;
use session_add_spec::{add_mod, add_modvar, add_spec};
use session_add_sys::{add_sys, add_sysvar};
use session_delete::{remove_component, remove_version};
use session_state::State;

// One of the ten commands, whose first word is read: its answer, and its change of book and tables. Each kind is read by a production of its
// own, so the match names them.
#[tactic(auto, unfolding(read_command::specs::Forms::command_reader))]
pub fn decide(
    state: &mut State,
    reader: &mut Reader<'_>,
    command: Command,
) -> Option<Result<(), Refusal>>
    ensures answers { Gives (command_reader command) (λ a. Decides (plain_state state.old) (plain_state state.new) (code a))
        reader.old reader.new result }
    ensures unread { IfNone result (plain_state state.new ≡ plain_state state.old) }
{
    match command {
        Command::AddSpec => add_spec(state, reader),
        Command::AddMod => add_mod(state, reader),
        Command::AddSys => add_sys(state, reader),
        Command::AddModvar => add_modvar(state, reader),
        Command::AddSysvar => add_sysvar(state, reader),
        Command::Remove(what) => remove_component(state, reader, what),
        Command::RemoveVersion(what) => remove_version(state, reader, what),
    }
}
