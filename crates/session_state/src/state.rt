// What a session holds between two commands.
ghost use Rattle.std.specs.Prelude.{◌≡◌};
ghost use Rattle.session_state.specs.Ready.{Ready};

use book::Book;
use book_test::Passing;
use names::{Filled, Names};
use read_tokens::PairTables;

// A book, and the names of what it holds.
#[derive(Clone, Copy)]
pub struct State {
    pub book: Book,
    pub names: Names,
    pub ghost ready: { Ready book.sets book.numbers names.comps.rows names.vers.rows names.facs.rows names.impls.rows },
}

impl State {
    // The book, which passes the test for 25.
    pub fn passing(&self) -> Passing<'_>
        ensures { result.book.now ≡ self.now.book }
    {
        Passing { book: &self.book }
    }

    // Copies of the tables, into which the names of a command are entered as they are read.
    pub fn pairs(&self) -> PairTables
        ensures comps { result.comps.table ≡ self.now.names.comps }
        ensures vers { result.vers.table ≡ self.now.names.vers }
    {
        PairTables {
            comps: Filled {
                table: self.names.comps,
            },
            vers: Filled {
                table: self.names.vers,
            },
        }
    }

    pub fn facs(&self) -> Filled<64>
        ensures { result.table ≡ self.now.names.facs }
    {
        Filled {
            table: self.names.facs,
        }
    }

    pub fn impls(&self) -> Filled<256>
        ensures { result.table ≡ self.now.names.impls }
    {
        Filled {
            table: self.names.impls,
        }
    }
}
