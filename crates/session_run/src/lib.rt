// A session as a loop of steps over its text (document 01, "Text and session"): "The reader carries the text and its position together".
#![tactic(auto)]

ghost use Rattle.std.specs.Prelude.{◌≡◌, drop};
ghost use Rattle.session_state.specs.State.{plain_state};
ghost use Rattle.text.specs.Session.{fresh};
ghost use Rattle.write_bytes.specs.Room.{room_of};
ghost use Rattle.session_run.specs.Ran.{Ran};

use read_tokens::Reader;
use session_state::State;
use write_bytes::Writer;

// The session of the rest of the text, on a book and tables that are empty. "Each command is read from the rest of the text after the
// one before". It gives the room that is left in the slice, if all did fit.
pub fn run_from(reader: Reader<'_>, state: &mut State, out: &mut [u8]) -> Option<usize>
    requires { plain_state state.old ≡ fresh }
    ensures { Ran (drop reader.entry.at reader.entry.text.now) (plain_state state.new) (room_of result) out.old out.new }
{
    let mut writer = Writer::new(out);
    let mut next = reader;
    let mut i = 1;
    while let Some(end) = session_step::step(state, next.rest(), i, &mut writer) {
        next = next.behind(end);
        i += 1;
    }
    writer.left
}

// The session of a text on a book and tables that are empty: one reader, at the start of the text, is run.
pub fn run(text: &[u8], state: &mut State, out: &mut [u8]) -> Option<usize>
    requires { plain_state state.old ≡ fresh }
    ensures { Ran text.now (plain_state state.new) (room_of result) out.old out.new }
{
    run_from(Reader::new(text), state, out)
}
