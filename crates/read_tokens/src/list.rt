// A list of entries, with a mark between them.
ghost use Rattle.text.specs.Language as language;
ghost use Rattle.text.specs.Language.{list_of};
ghost use Rattle.text.specs.Tokens.{mark};
ghost use Rattle.text_laws.specs.Takes.{Takes};
ghost use Rattle.read_tokens.specs.Steps.{Each};
ghost use Rattle.read_tokens.specs.Ahead.{Gives, GivesRead};

use crate::Reader;

// What is gathered of the entries of a list. The names that they mention are entered into one table or two.
pub trait Entries: Sized {
    type Table;

    type Other;

    // What an entry says.
    ghost Said: { Type 0 };

    // How an entry is read.
    ghost entry: { language.Reader Said };

    // What an entry changes of the tables and of what is gathered.
    ghost step: { Self.Table × Self.Other × Self → Self.Table × Self.Other × Self → Said → Type 0 };

    // An entry more. Where there is none, nothing is said of where the reader stands: take_list and take_entry read on a copy.
    fn take(
        self,
        table: &mut Self::Table,
        other: &mut Self::Other,
        reader: &mut Reader<'_>,
    ) -> Option<Self>
        ensures { GivesRead entry (λ r. step (table.old, other.old, self) (table.new, other.new, r)) reader.old reader.new result };

    // An entry is a byte at least.
    ghost takes: { Takes 1 entry };
}

// An entry more, as `take`; where there is none, the reader is as it was.
#[tactic(auto, using(crate::specs::SequenceLaws::lacking))]
pub fn take_entry<E: Entries>(
    start: E,
    table: &mut E::Table,
    other: &mut E::Other,
    reader: &mut Reader<'_>,
) -> Option<E>
    ensures { Gives E.entry (λ r. E.step (table.old, other.old, start) (table.new, other.new, r)) reader.old reader.new result }
{
    let mut ahead = *reader;
    let more = start.take(table, other, &mut ahead)?;
    *reader = ahead;
    Some(more)
}

// The entries of a list, with the mark between them.
#[tactic(auto, using(crate::specs::ReaderLaws::leads_by))]
pub fn take_list<E: Entries>(
    start: E,
    table: &mut E::Table,
    other: &mut E::Other,
    between: u8,
    reader: &mut Reader<'_>,
) -> Option<E>
    ensures { Gives (list_of (mark between) E.entry) (λ r. Each E.step (table.old, other.old, start) (table.new, other.new, r))
        reader.old reader.new result }
{
    let mut got = start;
    let mut ahead = *reader;
    // A loop: what an entry changes, of the tables and of what is gathered, is proved of each in turn.
    loop {
        got = got.take(table, other, &mut ahead)?;
        if !ahead.passes_mark(between) {
            break;
        }
    }
    *reader = ahead;
    Some(got)
}
