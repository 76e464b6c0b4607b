// A query, whose first word is read: its rows.
#![tactic(auto)]

ghost use Rattle.std.specs.Prelude.{◌≡◌, IfNone};
ghost use Rattle.read_command.specs.Forms.{named_reader, query_reader};
ghost use Rattle.read_tokens.specs.Ahead.{Gives};
ghost use Rattle.session_state.specs.Carried.{CarriedBy};
ghost use Rattle.session_state.specs.State.{plain_state};

use read_command::{Named, Query};
use read_tokens::Reader;
use session_ask_book::{show_book, show_choice};
use session_ask_component::show_component;
use session_ask_version::show_version;
use session_state::State;
use write_bytes::Writer;

// A query of a component, or of a component and a version: each is read by a production of its own, so the match names them.
fn show_named(
    writer: &mut Writer<'_>,
    i: usize,
    state: &State,
    reader: &mut Reader<'_>,
    named: Named,
) -> Option<()>
    ensures answers { Gives (named_reader named) (λ _. CarriedBy i (plain_state state.now) (plain_state state.now) writer.old writer.new)
        reader.old reader.new result }
    ensures unread { IfNone result (writer.new ≡ writer.old) }
{
    match named {
        Named::One(what) => show_component(writer, i, state, reader, what),
        Named::Pair(what) => show_version(writer, i, state, reader, what),
    }
}

// Any query: each kind is read by a production of its own, so the match names them.
pub fn show(
    writer: &mut Writer<'_>,
    i: usize,
    state: &State,
    reader: &mut Reader<'_>,
    query: Query,
) -> Option<()>
    ensures answers { Gives (query_reader query) (λ _. CarriedBy i (plain_state state.now) (plain_state state.now) writer.old writer.new)
        reader.old reader.new result }
    ensures unread { IfNone result (writer.new ≡ writer.old) }
{
    match query {
        Query::ByName(named) => show_named(writer, i, state, reader, named),
        Query::Choice => show_choice(writer, i, state, reader),
        Query::Whole(what) => {
            show_book(writer, i, state, what);
            Some(())
        }
    }
}
