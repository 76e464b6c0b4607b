// The queries of a component in a session's text: supplies, standard, whereused. Each is carried out, and its rows are put into the rest
// of a lent slice.
#![tactic(auto)]

ghost use Rattle.std.specs.Prelude.{◌≡◌, IfNone};
ghost use Rattle.text.specs.Language.{of_one};
ghost use Rattle.text.specs.Session.{asked, lines};
ghost use Rattle.read_tokens.specs.Ahead.{Gives};
ghost use Rattle.write_bytes.specs.Writes.{Writes};
ghost use Rattle.session_state.specs.Carried.{CarriedBy};
ghost use Rattle.session_state.specs.State.{plain_state};
ghost use Rattle.read_command.specs.Forms.{asked_of};
ghost use Rattle.session_rows.specs.Asked.{query_of};

use read_command::OfComponent;
use read_tokens::Reader;
use refusal::Refusal;
use session_rows::{put_numbers, put_refusal, put_version};
use session_state::State;
use write_bytes::Writer;

// The query of the component with the number c. Each kind has a question of its own to the Book, so the match names them.
#[tactic(auto, unfolding(session_rows::specs::Asked::query_of))]
fn put_of_component(writer: &mut Writer<'_>, i: usize, state: &State, c: usize, query: OfComponent)
    ensures { Writes (lines i (asked (plain_state state.now) (query_of query c))) writer.old writer.new }
{
    let names = &state.names;
    let book = state.passing();
    match query {
        OfComponent::Supplies => {
            put_numbers(writer, i, &names.facs, query_replies::supplies_in(book, c))
        }
        OfComponent::Standard => {
            put_version(writer, i, &names.vers, query_replies::standard_in(book, c))
        }
        OfComponent::WhereUsed => {
            put_numbers(writer, i, &names.comps, query_sets::whereused_in(book, c))
        }
    }
}

// A query of one component, from behind its first word.
pub fn show_component(
    writer: &mut Writer<'_>,
    i: usize,
    state: &State,
    reader: &mut Reader<'_>,
    query: OfComponent,
) -> Option<()>
    ensures answers { Gives (of_one (asked_of query)) (λ _. CarriedBy i (plain_state state.now) (plain_state state.now) writer.old writer.new)
        reader.old reader.new result }
    ensures unread { IfNone result (writer.new ≡ writer.old) }
{
    let word = read_command::read_one(reader)?;
    let Some(c) = state.names.comps.lookup(word) else {
        put_refusal(writer, i, Refusal::NotSpecified);
        return Some(());
    };
    put_of_component(writer, i, state, c, query);
    Some(())
}
