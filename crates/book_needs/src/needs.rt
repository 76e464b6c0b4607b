// The needs of the versions of a Book, as far as they were walked.
ghost use Rattle.model_laws.specs.Heights.{Sound};
ghost use Rattle.book.specs.Plain.{plain};
ghost use Rattle.book_rules.specs.Table.{Kept};

use book::Book;

// `found` holds at the place of a version what that version needs, once it was walked.
#[derive(Drop)]
pub struct Needs<'a> {
    pub book: &'a Book,
    pub found: [Option<u64>; 256],
    pub ghost sound: { Sound (plain book.now).systems },
    pub ghost kept: { Kept book.now.sets book.now.numbers found },
}
