// A command by its first word, as one datum; the names of deletions and queries.
#![tactic(auto)]

ghost use Rattle.std.specs.Prelude.{◌≡◌, ◌<◌, option_map, IfSome};
ghost use Rattle.text.specs.Bytes.{keywords};
ghost use Rattle.names.specs.Stored.{table_in};
ghost use Rattle.text.specs.Tables.{place};
ghost use Rattle.text_laws.specs.Takes.{name_takes};
ghost use Rattle.read_command.specs.Choices.{ChoiceAsked, KnownStep, known};
ghost use Rattle.read_command.specs.Forms.{BeginsBy, form_of, word_form};
ghost use Rattle.read_command.specs.Words.{OneSaid, PairSaid};
ghost use Rattle.model.specs.Book.{facilities};
ghost use Rattle.sets.specs.Sets.{bit, with};
ghost use Rattle.read_tokens.specs.Ahead.{Gives};
ghost use Rattle.read_tokens.specs.Entering.{both};
ghost use Rattle.text.specs.Language.{Name, Said, choice, name, of_one, of_pair};

use names::Table;
use read_tokens::{Entries, Keyword, Reader, take_list};

// ---- a command

// What delspec, delmod and delsys take out of a component.
#[derive(Clone, Copy)]
pub enum Component {
    Spec,
    Module,
    System,
}

// Of what delmodvar and delsysvar take out a version.
#[derive(Clone, Copy)]
pub enum Version {
    Module,
    System,
}

// The ten commands.
#[derive(Clone, Copy)]
pub enum Command {
    AddSpec,
    AddMod,
    AddSys,
    AddModvar,
    AddSysvar,
    Remove(Component),
    RemoveVersion(Version),
}

// The queries of a component.
#[derive(Clone, Copy)]
pub enum OfComponent {
    Supplies,
    Standard,
    WhereUsed,
}

// The queries of a version.
#[derive(Clone, Copy)]
pub enum OfVersion {
    Needs,
    Parts,
}

// The queries that name a component, or a component and a version.
#[derive(Clone, Copy)]
pub enum Named {
    One(OfComponent),
    Pair(OfVersion),
}

// The queries of the whole book; "out" is for its text.
#[derive(Clone, Copy)]
pub enum OfBook {
    Undefined,
    Unused,
    Text,
}

// The queries, and "out".
#[derive(Clone, Copy)]
pub enum Query {
    ByName(Named),
    Choice,
    Whole(OfBook),
}

// What the first word of a command begins: a command or a query. Over: it is "quit", or the text is at its end.
#[derive(Clone, Copy)]
pub enum Form {
    Changes(Command),
    Asks(Query),
    Over,
}

// What a keyword begins. What begins with another keyword is not of the language.
#[tactic(auto, unfolding(crate::specs::Forms::form_of))]
fn form_of(keyword: Keyword) -> Option<Form>
    ensures { result ≡ form_of keyword }
{
    match keyword {
        Keyword::Supplies => Some(Form::Asks(Query::ByName(Named::One(OfComponent::Supplies)))),
        Keyword::Needs => Some(Form::Asks(Query::ByName(Named::Pair(OfVersion::Needs)))),
        Keyword::Choice => Some(Form::Asks(Query::Choice)),
        Keyword::Standard => Some(Form::Asks(Query::ByName(Named::One(OfComponent::Standard)))),
        Keyword::Undefined => Some(Form::Asks(Query::Whole(OfBook::Undefined))),
        Keyword::Unused => Some(Form::Asks(Query::Whole(OfBook::Unused))),
        Keyword::WhereUsed => Some(Form::Asks(Query::ByName(Named::One(OfComponent::WhereUsed)))),
        Keyword::Out => Some(Form::Asks(Query::Whole(OfBook::Text))),
        Keyword::Quit => Some(Form::Over),
        Keyword::Spec => Some(Form::Changes(Command::AddSpec)),
        Keyword::Mod => Some(Form::Changes(Command::AddMod)),
        Keyword::Sys => Some(Form::Changes(Command::AddSys)),
        Keyword::DelSpec => Some(Form::Changes(Command::Remove(Component::Spec))),
        Keyword::DelMod => Some(Form::Changes(Command::Remove(Component::Module))),
        Keyword::DelSys => Some(Form::Changes(Command::Remove(Component::System))),
        Keyword::Modvar => Some(Form::Changes(Command::AddModvar)),
        Keyword::Sysvar => Some(Form::Changes(Command::AddSysvar)),
        Keyword::DelModvar => Some(Form::Changes(Command::RemoveVersion(Version::Module))),
        Keyword::DelSysvar => Some(Form::Changes(Command::RemoveVersion(Version::System))),
        Keyword::Parts => Some(Form::Asks(Query::ByName(Named::Pair(OfVersion::Parts)))),
        Keyword::In
        | Keyword::Provides
        | Keyword::Std
        | Keyword::Requires
        | Keyword::AllOf
        | Keyword::Impl
        | Keyword::Use
        | Keyword::End => None,
    }
}

// The keywords by their numbers.
const KEYWORDS: [Keyword; 28] = [
    Keyword::Supplies,
    Keyword::Needs,
    Keyword::Choice,
    Keyword::End,
    Keyword::Standard,
    Keyword::Undefined,
    Keyword::Unused,
    Keyword::WhereUsed,
    Keyword::In,
    Keyword::Out,
    Keyword::Quit,
    Keyword::Spec,
    Keyword::Provides,
    Keyword::Std,
    Keyword::Requires,
    Keyword::AllOf,
    Keyword::Mod,
    Keyword::Impl,
    Keyword::Sys,
    Keyword::Use,
    Keyword::DelSpec,
    Keyword::DelMod,
    Keyword::DelSys,
    Keyword::Modvar,
    Keyword::Sysvar,
    Keyword::DelModvar,
    Keyword::DelSysvar,
    Keyword::Parts,
];

// What a word begins. The program try_words asks for a keyword in the same form, and for no form of a command.
#[tactic(auto, using(crate::specs::FormLaws::no_form))]
fn word_form(word: &[u8]) -> Option<Form>
    ensures { result ≡ word_form (place keywords word.now) }
{
    if word.is_empty() || 32 < word.len() {
        return None;
    }
    form_of(KEYWORDS[words::keyword_of(word)?])
}

// The first word of the next command: what it begins, or none where what stands there is not of the language.
#[tactic(auto, using(crate::specs::FormLaws::begins))]
pub fn read_command(reader: &mut Reader<'_>) -> Option<Form>
    ensures { BeginsBy reader.old reader.new result }
{
    let start = words::next_start(reader.text, reader.at)?;
    if reader.text.len() <= start {
        return Some(Form::Over);
    }
    let word = words::word(reader.text, start);
    let form = word_form(word)?;
    reader.at = start + word.len();
    Some(form)
}

// ---- deletions and queries: the names are parts of the text

// A component and a version, by their names; read_tokens::Pair is the two by their numbers, as a request holds them.
#[derive(Clone, Copy)]
pub struct Pair<'a> {
    pub component: &'a [u8],
    pub version: &'a [u8],
}

// del-spec = "delspec" cn, and the others of one component, from behind the first word.
#[tactic(auto, using(crate::specs::WordLaws::one_said))]
pub fn read_one<'a>(reader: &mut Reader<'a>) -> Option<&'a [u8]>
    ensures { (f : Name → Said) → Gives (of_one f) (OneSaid f) reader.old reader.new (option_map (λ w. w.now) result) }
{
    reader.name()
}

// del-modvar = "delmodvar" cn "." vn, and the others of a pair, from behind the first word.
#[tactic(auto, using(read_tokens::specs::SequenceLaws::lacking), unfolding(text::specs::Language::of_pair, text::specs::Language::pair))]
pub fn read_pair<'a>(reader: &mut Reader<'a>) -> Option<Pair<'a>>
    ensures { (f : Name → Name → Said) → Gives (of_pair f) (PairSaid f) reader.old reader.new result }
{
    let mut ahead = *reader;
    let component = ahead.name()?;
    ahead.mark(b'.')?;
    let version = ahead.name()?;
    *reader = ahead;
    Some(Pair { component, version })
}

// ---- "choice"

// The set with the number of a facility, if it has one and each before it has.
#[tactic(auto, unfolding(read_tokens::specs::Entering::both))]
fn with_known(set: Option<u64>, number: Option<usize>) -> Option<u64>
    requires { IfSome number (λ k. k < facilities) }
    ensures { option_map bit result ≡ both with (option_map bit set) number }
{
    Some(sets::with(set?, number?))
}

// Facilities that were looked up: the set of their numbers, if each has one.
#[derive(Clone, Copy)]
struct Known<'a> {
    facs: &'a Table<64>,
    set: Option<u64>,
}

impl<'a> Entries for Known<'a> {
    type Table = ();

    type Other = ();

    ghost Said = { Name };

    ghost entry = { name };

    ghost step = { λ s s' w. KnownStep (known s.2.facs.now s.2.set) (known s'.2.facs.now s'.2.set) w };

    fn take(self, _table: &mut (), _other: &mut (), reader: &mut Reader<'_>) -> Option<Known<'a>> {
        let word = reader.name()?;
        Some(Known {
            facs: self.facs,
            set: with_known(self.set, self.facs.lookup(word)),
        })
    }

    ghost takes = { name_takes };
}

// "choice" [facs] "end", from behind "choice".
#[tactic(auto, using(crate::specs::ChoiceLaws::choices))]
pub fn read_choice(facs: &Table<64>, reader: &mut Reader<'_>) -> Option<Option<u64>>
    ensures { Gives choice (ChoiceAsked (table_in facs.now)) reader.old reader.new result }
{
    let mut ahead = *reader;
    if ahead.passes_key(Keyword::End) {
        *reader = ahead;
        return Some(Some(0));
    }
    let none = Known { facs, set: Some(0) };
    let known = take_list(none, &mut (), &mut (), b',', &mut ahead)?;
    ahead.key(Keyword::End)?;
    *reader = ahead;
    Some(known.set)
}
