// The queries of the whole book in a session's text: choice, undefined, unused, and "out". Each is carried out, and its rows are put into
// the rest of a lent slice.
#![tactic(auto)]

ghost use Rattle.std.specs.Prelude.{◌≡◌, List, ℕ, IfNone};
ghost use Rattle.sets.specs.Sets.{bit};
ghost use Rattle.text.specs.Language.{choice};
ghost use Rattle.text.specs.Session.{asked, lines};
ghost use Rattle.model.specs.Queries as model;
ghost use Rattle.model.specs.Lists.{set_of};
ghost use Rattle.read_command.specs.Forms.{asked_of_book};
ghost use Rattle.read_tokens.specs.Ahead.{Gives};
ghost use Rattle.write_bytes.specs.Writes.{Writes};
ghost use Rattle.session_state.specs.Carried.{CarriedBy};
ghost use Rattle.session_state.specs.State.{plain_state};

use read_command::OfBook;
use read_tokens::Reader;
use session_rows::{put_answer, put_listed, put_numbers};
use session_state::State;
use write_bytes::Writer;

// ---- of facilities

// The pairs whose component provides the facilities wanted. An array and no `Vec`, as a session needs no heap; it has a place for every pair.
fn put_choice(writer: &mut Writer<'_>, i: usize, state: &State, wanted: u64)
    ensures { (fs : List ℕ) → bit wanted ≡ set_of fs → Writes (lines i (asked (plain_state state.now) (model.CHOICE fs))) writer.old writer.new }
{
    let mut rows: [u16; 2048] = [0; 2048];
    let reply = query_choice::choice_in(state.passing(), wanted, &mut rows);
    put_listed(
        writer,
        i,
        &state.names.comps,
        &state.names.vers,
        reply.map(|n| &rows[..n]),
    );
}

// "choice", from behind its first word. "and CHOICE of it finds nothing", where a facility has no number.
pub fn show_choice(
    writer: &mut Writer<'_>,
    i: usize,
    state: &State,
    reader: &mut Reader<'_>,
) -> Option<()>
    ensures answers { Gives choice (λ _. CarriedBy i (plain_state state.now) (plain_state state.now) writer.old writer.new)
        reader.old reader.new result }
    ensures unread { IfNone result (writer.new ≡ writer.old) }
{
    let Some(wanted) = read_command::read_choice(&state.names.facs, reader)? else {
        put_answer(writer, i, Ok(()));
        return Some(());
    };
    put_choice(writer, i, state, wanted);
    Some(())
}

// ---- of the whole book

// A query of the whole book; ""out" is followed by the book's text". Each kind has a question of its own to the Book, so the match names
// them.
#[tactic(auto, unfolding(read_command::specs::Forms::asked_of_book))]
pub fn show_book(writer: &mut Writer<'_>, i: usize, state: &State, what: OfBook)
    ensures { CarriedBy i (plain_state state.now) (plain_state state.now) writer.old writer.new (asked_of_book what) }
{
    let comps = &state.names.comps;
    match what {
        OfBook::Undefined => {
            let found = query_sets::undefined_in(state.passing());
            put_numbers(writer, i, comps, Ok(found))
        }
        OfBook::Unused => {
            let found = query_sets::unused_in(state.passing());
            put_numbers(writer, i, comps, Ok(found))
        }
        OfBook::Text => {
            put_answer(writer, i, Ok(()));
            write_book::put_text(writer, &state.book, &state.names)
        }
    }
}
