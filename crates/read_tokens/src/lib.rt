// The tokens of a command read from a position of a text: a keyword, a mark, a name, an implementation. What an answer means is
// specs/Ahead.antt; what the readers of commands in the crates above collect is said beside it.
#![tactic(auto)]

ghost use Rattle.std.specs.Prelude.{◌≡◌, ◌+◌, ◌<◌, ◌≤◌, drop, length, option_map};
ghost use Rattle.text.specs.Bytes.{keywords};
ghost use Rattle.text.specs.Language.{imp, name, want};
ghost use Rattle.text.specs.Tokens.{mark};
ghost use Rattle.words.specs.Keywords.{keyword_count};
ghost use Rattle.read_tokens.specs.Readers.{Any, key_at};
ghost use Rattle.read_tokens.specs.Ahead.{Ends, Gives, IsWord, Passes, keyword_number};

use command_lists::{Composition, Compositions, Numbers, Sets, Usable};
use names::Filled;

mod list;
mod reader;

pub use list::{Entries, take_entry, take_list};
pub use reader::Reader;

// The keywords, in the order of their table (words/specs/Keywords.antt).
#[derive(Clone, Copy)]
pub enum Keyword {
    Supplies,
    Needs,
    Choice,
    End,
    Standard,
    Undefined,
    Unused,
    WhereUsed,
    In,
    Out,
    Quit,
    Spec,
    Provides,
    Std,
    Requires,
    AllOf,
    Mod,
    Impl,
    Sys,
    Use,
    DelSpec,
    DelMod,
    DelSys,
    Modvar,
    Sysvar,
    DelModvar,
    DelSysvar,
    Parts,
}

impl Keyword {
    // Its number among the keywords. (That of a variant is given by `as` alone.)
    fn number(self) -> usize
        ensures number { result ≡ keyword_number self }
        ensures small { result < keyword_count }
    {
        self as usize
    }
}

// ---- tokens

impl<'a> Reader<'a> {
    pub fn new(text: &'a [u8]) -> Reader<'a>
        ensures text { result.text.now ≡ text.now }
        ensures at { result.at ≡ 0 }
    {
        Reader { text, at: 0 }
    }

    // The text from the position on.
    pub fn rest(&self) -> &'a [u8]
        ensures { result.now ≡ drop self.now.at self.now.text.now }
    {
        &self.text[self.at..]
    }

    // The reader behind n bytes more.
    pub fn behind(self, n: usize) -> Reader<'a>
        requires { self.at + n ≤ length self.text.now }
        ensures { (result.text ≡ self.entry.text) × (result.at ≡ self.entry.at + n) }
    {
        Reader {
            text: self.text,
            at: self.at + n,
        }
    }

    // A name.
    #[tactic(auto, using(crate::specs::TokenLaws::no_name))]
    pub fn name(&mut self) -> Option<&'a [u8]>
        ensures { Gives name IsWord self.old self.new (option_map (λ w. w.now) result) }
    {
        let start = words::next_start(self.text, self.at)?;
        let word = words::word(self.text, start);
        if word.is_empty() || !words::is_name_word(word) {
            return None;
        }
        self.at = start + word.len();
        Some(word)
    }

    // An implementation: the word in its quotes. The position is then the one behind the closing quote. (`?` takes no variant of a token.)
    #[tactic(auto, using(crate::specs::TokenLaws::no_imp))]
    pub fn imp(&mut self) -> Option<&'a [u8]>
        ensures { Gives imp IsWord self.old self.new (option_map (λ w. w.now) result) }
    {
        let words::Token::Quoted(start, end) = words::next_token(self.text, self.at)? else {
            return None;
        };
        self.at = end + 1;
        Some(words::part(self.text, start, end))
    }

    // The position behind the mark c, if this comes next. (`?` takes no variant of a token.)
    #[tactic(auto, using(crate::specs::TokenLaws::no_mark))]
    fn mark_end(&self, c: u8) -> Option<usize>
        ensures { Ends (want (mark c)) self.now result }
    {
        let words::Token::Mark(d, end) = words::next_token(self.text, self.at)? else {
            return None;
        };
        if d != c {
            return None;
        }
        Some(end)
    }

    // The position behind the keyword k, if this comes next.
    #[tactic(auto, using(crate::specs::TokenLaws::no_key))]
    fn key_end(&self, k: Keyword) -> Option<usize>
        ensures { Ends (want (key_at (keyword_number k))) self.now result }
    {
        let start = words::next_start(self.text, self.at)?;
        let word = words::word(self.text, start);
        if word.is_empty() || 32 < word.len() || !words::is_keyword(word, k.number()) {
            return None;
        }
        Some(start + word.len())
    }

    // The mark c.
    pub fn mark(&mut self, c: u8) -> Option<()>
        ensures { Gives (want (mark c)) (λ _. Any) self.old self.new result }
    {
        self.at = self.mark_end(c)?;
        Some(())
    }

    // The keyword k.
    pub fn key(&mut self, k: Keyword) -> Option<()>
        ensures { Gives (want (key_at (keyword_number k))) (λ _. Any) self.old self.new result }
    {
        self.at = self.key_end(k)?;
        Some(())
    }

    // Whether the mark c comes next, which is then passed. (One function for this and the next would be told the end of the token, and
    // ask that it stands in the text.)
    #[tactic(auto, using(crate::specs::ReaderLaws::passes_yes))]
    pub fn passes_mark(&mut self, c: u8) -> bool
        ensures { Passes (mark c) self.old self.new result }
    {
        let Some(end) = self.mark_end(c) else {
            return false;
        };
        self.at = end;
        true
    }

    // Whether the keyword k comes next, which is then passed.
    // As with passes_mark: one function for the two would ask that the end of the token stands in the text.
    #[tactic(auto, using(crate::specs::ReaderLaws::passes_yes))]
    pub fn passes_key(&mut self, k: Keyword) -> bool
        ensures { Passes (key_at (keyword_number k)) self.old self.new result }
    {
        let Some(end) = self.key_end(k) else {
            return false;
        };
        self.at = end;
        true
    }
}

// ---- what is collected: names put into a table

// The tables that the names of a component and of a version go into.
#[derive(Clone, Copy)]
pub struct PairTables {
    pub comps: Filled<32>,
    pub vers: Filled<64>,
}

// ---- a specification

// What "spec" asks for: by the numbers in the tables with its new names.
#[derive(Clone, Copy)]
pub struct SpecRequest {
    pub component: usize,
    pub provided: u64,
    pub versions: Sets,
    pub standard: usize,
}

// ---- a module

// What "mod" asks for.
#[derive(Clone, Copy)]
pub struct ModRequest {
    pub component: usize,
    pub versions: Numbers,
}

// ---- a component with a version

// A component and a version by their numbers; that of read_command has their names.
#[derive(Clone, Copy)]
pub struct Pair {
    pub component: usize,
    pub version: usize,
}

// What "modvar" asks for.
#[derive(Clone, Copy)]
pub struct ModvarRequest {
    pub component: usize,
    pub version: usize,
    pub required: u64,
    pub implementation: usize,
}

// ---- a composition

// What "sysvar" asks for.
#[derive(Clone, Copy)]
pub struct SysvarRequest {
    pub component: usize,
    pub version: usize,
    pub composition: Composition,
}

// ---- a system

// What "sys" asks for.
#[derive(Clone, Copy)]
pub struct SysRequest {
    pub component: usize,
    pub usable: Usable,
    pub versions: Compositions,
}
