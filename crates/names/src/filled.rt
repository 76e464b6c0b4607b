// A table of names in which no place before the last name is free.

ghost use Rattle.std.specs.Prelude.{◌≡◌, true, []};
ghost use Rattle.std.proofs.Math.Option.{none};
ghost use Rattle.sets.specs.Answered.{answered};
ghost use Rattle.text.specs.Bytes.{short};
ghost use Rattle.text.specs.Tables.{place};
ghost use Rattle.names.specs.Stored.{table_in, place_with, table_with};
ghost use Rattle.names.specs.Kept.{Kept};

use crate::table::Table;

#[derive(Clone, Copy)]
pub struct Filled<const P: usize> {
    pub table: Table<P>,
    pub ghost kept: { Kept P table.rows },
}

impl<const P: usize> Filled<P> {
    // A table with no name.
    pub fn empty() -> Filled<P>
        ensures { table_in result.table ≡ [] }
    {
        Filled {
            table: Table::empty(),
        }
    }

    // A new word put at the lowest free place: the place, or that there is none.
    // A word is a part of a text: a type for a short one would be made and taken apart at each call.
    #[tactic(auto, using(crate::specs::EnterLaws::full_place, crate::specs::EnterLaws::full_table, crate::specs::EnterLaws::new_place))]
    fn put_new(&mut self, word: &[u8]) -> Option<usize>
        requires word_value { short word.now ≡ true }
        requires word_value_2 { place (table_in self.old.table) word.now ≡ none }
        ensures result_value { answered result ≡ place_with P (table_in self.old.table) word.now }
        ensures names_after { table_in self.new.table ≡ table_with P (table_in self.old.table) word.now }
    {
        let k = self.table.lowest_free()?;
        self.table.put(k, word);
        Some(k)
    }

    // The place of a word, put in where it is new; or that there is no room, and the table is as it was.
    // A word is a part of a text: a type for a short one would be made and taken apart at each call.
    #[tactic(auto, using(crate::specs::EnterLaws::held_place, crate::specs::EnterLaws::held_table, crate::specs::EnterLaws::found_nothing))]
    pub fn enter(&mut self, word: &[u8]) -> Option<usize>
        requires { short word.now ≡ true }
        ensures result_value { answered result ≡ place_with P (table_in self.old.table) word.now }
        ensures names_after { table_in self.new.table ≡ table_with P (table_in self.old.table) word.now }
    {
        match self.table.lookup(word) {
            Some(k) => Some(k),
            None => self.put_new(word),
        }
    }
}
