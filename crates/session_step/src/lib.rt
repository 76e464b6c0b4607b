// One step of a session: the next command of the text is read and carried out.
#![tactic(auto)]

ghost use Rattle.std.specs.Prelude.{IsNone};
ghost use Rattle.text.specs.Session.{decimal, row};
ghost use Rattle.write_bytes.specs.Writes.{Writes};
ghost use Rattle.session_state.specs.State.{plain_state};
ghost use Rattle.read_command.specs.Forms.{command_reader, query_reader};
ghost use Rattle.session_step.specs.Stepped.{BehindOf, StepOf};

use read_command::{Command, Form, Query};
use read_tokens::Reader;
use refusal::Refusal;
use session_state::State;
use write_bytes::Writer;

// "Is the command of the language? no: 23, and the session ends": what is not has its row, and there is no position to go on from.
fn refuse(writer: &mut Writer<'_>, i: usize) -> Option<usize>
    ensures none { IsNone result }
    ensures puts { Writes (row i (decimal 23)) writer.old writer.new }
{
    session_rows::put_refusal(writer, i, Refusal::NotOfTheLanguage);
    None
}

// One of the ten commands, whose first word is read: its row, and its change of book and tables. It gives the position behind it.
fn change(
    state: &mut State,
    reader: &mut Reader<'_>,
    i: usize,
    writer: &mut Writer<'_>,
    command: Command,
) -> Option<usize>
    ensures { BehindOf (command_reader command) i reader.old (plain_state state.old) (plain_state state.new) writer.old writer.new result }
{
    let Some(answer) = session_decide::decide(state, reader, command) else {
        return refuse(writer, i);
    };
    session_rows::put_answer(writer, i, answer);
    Some(reader.at)
}

// A query, whose first word is read: its rows, or 23. It gives the position behind it.
fn ask(
    writer: &mut Writer<'_>,
    i: usize,
    state: &State,
    reader: &mut Reader<'_>,
    query: Query,
) -> Option<usize>
    ensures { BehindOf (query_reader query) i reader.old (plain_state state.now) (plain_state state.now) writer.old writer.new result }
{
    if session_show::show(writer, i, state, reader, query).is_none() {
        return refuse(writer, i);
    }
    Some(reader.at)
}

// The next command, the i-th, which is read from the rest of the text after the one before: its rows, and its change of book and tables.
// It gives the position in the rest from which the session goes on, if it does. What the first word begins is read and carried out in
// another way for each of the three cases, so the match names them.
pub fn step(state: &mut State, rest: &[u8], i: usize, writer: &mut Writer<'_>) -> Option<usize>
    ensures { StepOf i rest.now (plain_state state.old) (plain_state state.new) writer.old writer.new result }
{
    let mut reader = Reader::new(rest);
    match read_command::read_command(&mut reader) {
        Some(Form::Changes(command)) => change(state, &mut reader, i, writer, command),
        Some(Form::Asks(query)) => ask(writer, i, state, &mut reader, query),
        Some(Form::Over) => None,
        None => refuse(writer, i),
    }
}
