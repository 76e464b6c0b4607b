// A Book that is known to pass the test for 25.
ghost use Rattle.std.specs.Prelude.{◌≡◌, true};
ghost use Rattle.book_rules.specs.Test as test;

use book::Book;

#[derive(Clone, Copy)]
pub struct Passing<'a> {
    pub book: &'a Book,
    pub ghost passes: { test.passes book.now.sets book.now.numbers ≡ true },
}
