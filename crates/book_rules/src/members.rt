// The members of a version.
ghost use Rattle.std.specs.Prelude.{◌≡◌};
ghost use Rattle.sets.specs.Sets.{bit};
ghost use Rattle.model.specs.Book.{is_member};
ghost use Rattle.book.specs.Plain.{plain};

use book::Book;

// `set` is what `book.members(c, v)` gives: no member where c is no system or has no version v.
#[derive(Clone, Copy)]
pub struct Members<'a> {
    pub book: &'a Book,
    pub c: usize,
    pub v: usize,
    pub set: u64,
    pub ghost members: { bit set ≡ is_member (plain book.now).systems c v },
}
