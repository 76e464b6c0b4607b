// The session over a text and a lent slice (document 01, "Text and session"), and the function that crate svcd_c exports for a host in C.
#![tactic(auto)]

ghost use Rattle.std.specs.Prelude.{◌≡◌};
ghost use Rattle.session_state.specs.State.{plain_state};
ghost use Rattle.text.specs.Session.{fresh};
ghost use Rattle.svcd.specs.Reached.{Leaves, SessionCall, fits, len};
ghost use Rattle.text.specs.LentSlice.{host_result, host_slice};

use book::Book;
use names::Names;
use refusal::Refusal;
use session_state::State;

// An empty book and empty tables.
fn empty() -> State
    ensures { plain_state result ≡ fresh }
{
    State {
        book: Book::fresh(),
        names: Names::empty(),
    }
}

// The session of a text in an empty state, which is left as reached; how many bytes its listing has at the start of the lent slice, if it
// fits. "A listing longer than the slice gives 22 and a slice of zeros"; "after 22 both are empty".
fn list(state: &mut State, text: &[u8], out: &mut [u8]) -> Option<usize>
    ensures { Leaves text.now out.old out.new (fits result) (len result) (plain_state state.new) }
{
    *state = empty();
    let n = out.len();
    let Some(left) = session_run::run(text, state, out) else {
        *state = empty();
        seqs::clear(out);
        return None;
    };
    Some(n - left)
}

// What a session gives back: the length of its listing, or 22; its book and tables as reached.
#[derive(Clone, Copy)]
pub struct SessionEnd {
    pub answer: Result<usize, Refusal>,
    pub state: State,
}

// The session of a text, its listing in a lent slice.
pub fn session(text: &[u8], out: &mut [u8]) -> SessionEnd
    ensures { SessionCall text.now out.old out.new result }
{
    let mut state = empty();
    let answer = list(&mut state, text, out).ok_or(Refusal::DoesNotFit);
    SessionEnd { answer, state }
}

// "a text or slice beyond 2,147,483,647 bytes"
const MOST_BYTES: usize = 2147483647;

// "gets the listing's length, or minus 22": a number of the C interface.
const MINUS_22: i32 = -22;

// The session for a host in C: the listing's length, or minus 22.
pub fn svcd_session(text: &[u8], out: &mut [u8]) -> i32
    ensures value { result ≡ host_result out.old text.now }
    ensures out_after { out.new ≡ host_slice out.old text.now }
{
    if MOST_BYTES < text.len() || MOST_BYTES < out.len() {
        seqs::clear(out);
        return MINUS_22;
    }
    let mut state = empty();
    match list(&mut state, text, out) {
        // nothing is lost: the listing is no longer than the slice
        Some(len) => len as i32,
        None => MINUS_22,
    }
}
