// The queries of a version in a session's text: needs and parts. Each is carried out, and its rows are put into the rest of a lent slice.
#![tactic(auto)]

ghost use Rattle.std.specs.Prelude.{◌≡◌, IfNone};
ghost use Rattle.sets.specs.Tests.{if?◌then◌else◌};
ghost use Rattle.text.specs.Language.{of_pair};
ghost use Rattle.text.specs.Session.{asked, lines};
ghost use Rattle.model.specs.Queries as model;
ghost use Rattle.model.specs.Book.{specified};
ghost use Rattle.book.specs.Plain.{plain};
ghost use Rattle.read_tokens.specs.Ahead.{Gives};
ghost use Rattle.refusal.specs.Numbers.{number};
ghost use Rattle.write_bytes.specs.Writes.{Writes};
ghost use Rattle.session_state.specs.Carried.{CarriedBy};
ghost use Rattle.session_state.specs.State.{plain_state};
ghost use Rattle.read_command.specs.Forms.{asked_of_version};
ghost use Rattle.session_rows.specs.Asked.{query_of_version};

use book::Book;
use read_command::OfVersion;
use read_tokens::Reader;
use refusal::Refusal;
use session_rows::{put_listed, put_numbers, put_refusal};
use session_state::State;
use write_bytes::Writer;

// The parts list of version v of component c.
fn put_parts(writer: &mut Writer<'_>, i: usize, state: &State, c: usize, v: usize)
    ensures { Writes (lines i (asked (plain_state state.now) (model.PARTS c v))) writer.old writer.new }
{
    // 32 components with 8 versions each: no parts list has more rows. An array and no `Vec`, as a session needs no heap.
    let mut rows: [u16; 256] = [0; 256];
    let reply = parts::parts_in(state.passing(), c, v, &mut rows);
    put_listed(
        writer,
        i,
        &state.names.comps,
        &state.names.vers,
        reply.map(|list| &rows[..list.rows]),
    );
}

// The query of version v of component c. Each kind has a question of its own to the Book, so the match names them.
#[tactic(auto, unfolding(session_rows::specs::Asked::query_of_version))]
fn put_of_version(
    writer: &mut Writer<'_>,
    i: usize,
    state: &State,
    c: usize,
    v: usize,
    query: OfVersion,
)
    ensures { Writes (lines i (asked (plain_state state.now) (query_of_version query c v))) writer.old writer.new }
{
    match query {
        OfVersion::Needs => {
            let reply = query_replies::needs_in(state.passing(), c, v);
            put_numbers(writer, i, &state.names.facs, reply)
        }
        OfVersion::Parts => put_parts(writer, i, state, c, v),
    }
}

// The refusal where the version of c has no number.
fn no_version(book: &Book, c: usize) -> Refusal
    ensures { number result ≡ (if? specified (plain book.now).specs c then 10 else 4) }
{
    if book.is_specified(c) {
        Refusal::NoVersion
    } else {
        Refusal::NotSpecified
    }
}

// A query of a component with a version, from behind its first word.
pub fn show_version(
    writer: &mut Writer<'_>,
    i: usize,
    state: &State,
    reader: &mut Reader<'_>,
    query: OfVersion,
) -> Option<()>
    ensures answers { Gives (of_pair (asked_of_version query))
        (λ _. CarriedBy i (plain_state state.now) (plain_state state.now) writer.old writer.new) reader.old reader.new result }
    ensures unread { IfNone result (writer.new ≡ writer.old) }
{
    let pair = read_command::read_pair(reader)?;
    let Some(c) = state.names.comps.lookup(pair.component) else {
        put_refusal(writer, i, Refusal::NotSpecified);
        return Some(());
    };
    let Some(v) = state.names.vers.lookup(pair.version) else {
        put_refusal(writer, i, no_version(&state.book, c));
        return Some(());
    };
    put_of_version(writer, i, state, c, v, query);
    Some(())
}
