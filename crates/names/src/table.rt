// A table of names: a row of 33 bytes for each place, the length of its name and then the name. What it means is `table_in`
// (specs/Stored.antt).

ghost use Rattle.std.specs.Prelude.{◌≡◌, true, ◌++◌, ◌∷◌, [], ◌<◌, length};
ghost use Rattle.sets.specs.Tests.{~◌};
ghost use Rattle.sets.specs.Answered.{answered};
ghost use Rattle.model.specs.Lists.{non_empty};
ghost use Rattle.text.specs.Bytes.{short};
ghost use Rattle.text.specs.Bytes as text;
ghost use Rattle.text.specs.Tables.{name_at, place};
ghost use Rattle.names.specs.Stored.{name_in, name_of, table_in, lowest_free};

// The P places of a table.
#[derive(Clone, Copy)]
pub struct Table<const P: usize> {
    pub rows: [[u8; 33]; P],
}

// The name in a row: none where the length is more than 32.
fn name_of(row: &[u8; 33]) -> &[u8]
    ensures { result.now ≡ name_of row.now }
{
    let n = usize::from(row[0]);
    row[1..].get(..n).unwrap_or(&[])
}

// The row of a name.
// A word is a part of a text: a type for a short one would be made and taken apart at each call.
fn row_of(word: &[u8]) -> [u8; 33]
    requires { short word.now ≡ true }
    ensures { name_of result ≡ word.now }
{
    let mut row = [0; 33];
    row[0] = u8::try_from(word.len()).unwrap();
    row[1..1 + word.len()].copy_from_slice(word);
    row
}

impl<const P: usize> Table<P> {
    // A table with no name.
    pub fn empty() -> Table<P>
        ensures { table_in result ≡ [] }
    {
        Table { rows: [[0; 33]; P] }
    }

    // The name of number k: none at a free place, and past the last place.
    pub fn name(&self, k: usize) -> &[u8]
        ensures { result.now ≡ name_at (table_in self.now) k }
    {
        match self.rows.get(k) {
            Some(row) => name_of(row),
            None => &[],
        }
    }

    // The place of a word.
    // A word is a part of a text: a type for a short one would be made and taken apart at each call.
    pub fn lookup(&self, word: &[u8]) -> Option<usize>
        requires { short word.now ≡ true }
        ensures { answered result ≡ place (table_in self.now) word.now }
    {
        self.rows.iter().position(|row| word == name_of(row))
    }

    // The lowest free place.
    pub fn lowest_free(&self) -> Option<usize>
        ensures { answered result ≡ lowest_free P (table_in self.now) }
    {
        self.rows.iter().position(|row| name_of(row).is_empty())
    }

    // The word at the first place behind the last name.
    // A word is a part of a text: a type for a short one would be made and taken apart at each call.
    pub(crate) fn put(&mut self, k: usize, word: &[u8])
        requires k_lt_places { k < P }
        requires k_value { k ≡ length (table_in self.old) }
        requires word_value { short word.now ≡ true }
        ensures { table_in self.new ≡ table_in self.old ++ (word.now ∷ []) }
    {
        self.rows[k] = row_of(word);
    }
}
