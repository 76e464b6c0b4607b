// The text of a Book with tables handed in, as a call.
#![tactic(auto)]

ghost use Rattle.names_test.specs.Answered.{IsTextCall};

use book::Book;
use book_test::tested;
use names::Names;
use refusal::Refusal;

// The text of a Book with its tables, at the start of a lent slice: how many bytes it has. Nothing is written where the call is refused.
pub fn text_of(book: &Book, names: &Names, out: &mut [u8]) -> Result<usize, Refusal>
    ensures { IsTextCall book.now names.now out.old result out.new }
{
    tested(book)?;
    if !names_test::names_hold(book, names) {
        return Err(Refusal::NoBook);
    }
    write_book::text(out, book, names).ok_or(Refusal::DoesNotFit)
}
