// The needs of a version (document 01, "What a book holds"): "the needs of a system version are the union of its members' needs".
#![tactic(auto)]

ghost use Rattle.std.specs.Prelude.{◌≡◌};
ghost use Rattle.sets.specs.Sets.{bit};
ghost use Rattle.model.specs.Rules as model;
ghost use Rattle.model_laws.specs.Heights.{Sound};
ghost use Rattle.book.specs.Plain.{plain};

mod needs;

use book::Book;
use book_rules::Members;
pub use needs::Needs;

impl<'a> Needs<'a> {
    // Nothing is walked.
    pub fn new(book: &'a Book) -> Needs<'a>
        requires { Sound (plain book.now).systems }
        ensures { result.book.now ≡ book.now }
    {
        Needs {
            book,
            found: [None; 256],
        }
    }

    // What version v of component c needs: of a system, the union of its members' needs; of any other, what it requires. A part shared by
    // many users is walked once; what falls is the number of systems that can still be met below.
    pub fn of(&mut self, c: usize, v: usize) -> u64
        ensures value { bit result ≡ model.needs (plain self.old.book.now).specs (plain self.old.book.now).systems c v }
        ensures same_book { self.new.book.now ≡ self.old.book.now }
    {
        let book = self.book;
        if !book.is_system(c) {
            return book.required(c, v);
        }
        let Some(place) = book.place_of(c, v) else {
            return 0;
        };
        if let Some(needs) = self.found[place] {
            return needs;
        }
        let members = Members {
            book,
            c,
            v,
            set: book.members(c, v),
        };
        let mut sum: u64 = 0;
        for m in 0..32 {
            if let Some(w) = members.version(m) {
                sum = sets::union(sum, self.of(m, w));
            }
        }
        self.found[place] = Some(sum);
        sum
    }
}
