// Tokens and words of a text. The text is the caller's, the position a number of its own. What an answer means is
// specs/Reading.antt.
#![tactic(auto)]

ghost use Rattle.std.specs.Prelude.{◌≡◌, true, ◌+◌, ◌<◌, ◌≤◌, ◌-◌, length, take, drop};
ghost use Rattle.sets.specs.Sets.{bit};
ghost use Rattle.text.specs.Bytes.{same, short, white, alnum, is_mark, keywords, name_word, valid_name, valid_implementation};
ghost use Rattle.text.specs.Tables.{name_at, place};
ghost use Rattle.text.specs.Tokens.{token_at, next_token};
ghost use Rattle.words.specs.Keywords.{keyword_count};
ghost use Rattle.words.specs.Reading.{passes, stays_open, in_run, Skips, RunsTo, quoted_from, word_at, Reads, keyword_hashes, hash_of};
ghost use Rattle.sets.specs.Answered.{answered};

use names::Table;

// A word from its start to its end; what stands within an implementation's quotes; a mark and the position after it; or the end of the
// text.
#[derive(Clone, Copy)]
pub enum Token {
    Word(usize, usize),
    Quoted(usize, usize),
    Mark(u8, usize),
    End,
}

// ---- bytes

pub fn is_white(c: u8) -> bool
    ensures { result ≡ white c }
{
    matches!(c, b' ' | b'\t' | b'\r' | b'\n')
}

pub fn is_alnum(c: u8) -> bool
    ensures { result ≡ alnum c }
{
    c.is_ascii_alphanumeric()
}

pub fn is_mark(c: u8) -> bool
    ensures { result ≡ is_mark c }
{
    matches!(c, b';' | b',' | b'.' | b'=')
}

// A byte of an implementation (`quoted`) or of a name.
pub fn is_in_run(quoted: bool, c: u8) -> bool
    ensures { result ≡ in_run quoted c }
{
    is_alnum(c) || matches!(c, b'-' | b'_') || quoted && matches!(c, b'.' | b'/')
}

// ---- white space and comments

// A byte that may stand there, inside a comment or between tokens.
fn does_pass(inside: bool, c: u8) -> bool
    ensures { result ≡ passes inside c }
{
    inside || is_white(c) || c == b'{'
}

// Whether a comment is open after c.
fn stays_open(inside: bool, c: u8) -> bool
    ensures { result ≡ stays_open inside c }
{
    if inside { c != b'}' } else { c == b'{' }
}

// Where the next token or the end of the text stands; none where a comment is left open.
// A bound on a position is plainer than a type for it.
pub fn next_start(text: &[u8], at: usize) -> Option<usize>
    requires { at ≤ length text.now }
    ensures { Skips text.now at result }
{
    let mut inside = false;
    // By its number: what is given is a position in the text, and an iterator would count from `at`.
    for i in at..text.len() {
        let c = text[i];
        if !does_pass(inside, c) {
            return Some(i);
        }
        inside = stays_open(inside, c);
    }
    if inside { None } else { Some(text.len()) }
}

// ---- tokens

// The end of the run of name bytes, or of an implementation's bytes, from `at` on.
// A bound on a position is plainer than a type for it.
pub fn run_end(text: &[u8], at: usize, quoted: bool) -> usize
    requires { at ≤ length text.now }
    ensures { RunsTo (in_run quoted) text.now at result }
{
    at + text[at..]
        .iter()
        .take_while(|&&c| is_in_run(quoted, c))
        .count()
}

// The implementation whose opening quote stands before `at`.
fn quoted_at(text: &[u8], at: usize) -> Option<Token>
    requires { at ≤ length text.now }
    ensures { Reads text.now at (quoted_from (drop at text.now)) result }
{
    let end = run_end(text, at, true);
    if end < text.len() && text[end] == b'"' && at < end && end - at <= 32 {
        Some(Token::Quoted(at, end))
    } else {
        None
    }
}

// The token whose first byte stands at `at`.
fn token_at(text: &[u8], at: usize) -> Option<Token>
    requires { at < length text.now }
    ensures { Reads text.now at (token_at (drop at text.now)) result }
{
    let c = text[at];
    if is_alnum(c) {
        return Some(Token::Word(at, run_end(text, at + 1, false)));
    }
    if is_mark(c) {
        return Some(Token::Mark(c, at + 1));
    }
    if c == b'"' {
        return quoted_at(text, at + 1);
    }
    None
}

// The next token, or none where what stands there is no token.
// A bound on a position is plainer than a type for it.
pub fn next_token(text: &[u8], at: usize) -> Option<Token>
    requires { at ≤ length text.now }
    ensures { Reads text.now at (next_token (drop at text.now)) result }
{
    let i = next_start(text, at)?;
    if text.len() <= i {
        return Some(Token::End);
    }
    token_at(text, i)
}

// ---- words

// The end of the word that begins at `at`, or `at` where none does.
// A bound on a position is plainer than a type for it.
fn word_end(text: &[u8], at: usize) -> usize
    requires { at ≤ length text.now }
    ensures { result ≡ at + length (word_at (drop at text.now)) }
{
    if at < text.len() && is_alnum(text[at]) {
        run_end(text, at + 1, false)
    } else {
        at
    }
}

// The word that begins at `at`, empty where none does: "A word that was read is the part of the text itself, no copy."
pub fn word<'a>(text: &'a [u8], at: usize) -> &'a [u8]
    requires { at ≤ length text.now }
    ensures { result.now ≡ word_at (drop at text.now) }
{
    let end = word_end(text, at);
    &text[at..end]
}

// A part of the text that was read before, from where it starts up to its end.
// A bound on a position is plainer than a type for it.
pub fn part<'a>(text: &'a [u8], start: usize, end: usize) -> &'a [u8]
    requires { (start ≤ end) × (end ≤ length text.now) }
    ensures { result.now ≡ take (end - start) (drop start text.now) }
{
    &text[start..end]
}

// ---- keywords and names

// How many keywords there are (specs/Keywords.antt).
const KEYWORD_COUNT: usize = 28;

// The keywords in their order, as a table of names.
const KEYWORDS: Table<KEYWORD_COUNT> = Table {
    rows: [
        *b"\x08supplies\0\0\0\0\0\0\0\0\0\0\0\0\0\0\0\0\0\0\0\0\0\0\0\0",
        *b"\x05needs\0\0\0\0\0\0\0\0\0\0\0\0\0\0\0\0\0\0\0\0\0\0\0\0\0\0\0",
        *b"\x06choice\0\0\0\0\0\0\0\0\0\0\0\0\0\0\0\0\0\0\0\0\0\0\0\0\0\0",
        *b"\x03end\0\0\0\0\0\0\0\0\0\0\0\0\0\0\0\0\0\0\0\0\0\0\0\0\0\0\0\0\0",
        *b"\x08standard\0\0\0\0\0\0\0\0\0\0\0\0\0\0\0\0\0\0\0\0\0\0\0\0",
        *b"\x09undefined\0\0\0\0\0\0\0\0\0\0\0\0\0\0\0\0\0\0\0\0\0\0\0",
        *b"\x06unused\0\0\0\0\0\0\0\0\0\0\0\0\0\0\0\0\0\0\0\0\0\0\0\0\0\0",
        *b"\x09whereused\0\0\0\0\0\0\0\0\0\0\0\0\0\0\0\0\0\0\0\0\0\0\0",
        *b"\x02in\0\0\0\0\0\0\0\0\0\0\0\0\0\0\0\0\0\0\0\0\0\0\0\0\0\0\0\0\0\0",
        *b"\x03out\0\0\0\0\0\0\0\0\0\0\0\0\0\0\0\0\0\0\0\0\0\0\0\0\0\0\0\0\0",
        *b"\x04quit\0\0\0\0\0\0\0\0\0\0\0\0\0\0\0\0\0\0\0\0\0\0\0\0\0\0\0\0",
        *b"\x04spec\0\0\0\0\0\0\0\0\0\0\0\0\0\0\0\0\0\0\0\0\0\0\0\0\0\0\0\0",
        *b"\x08provides\0\0\0\0\0\0\0\0\0\0\0\0\0\0\0\0\0\0\0\0\0\0\0\0",
        *b"\x03std\0\0\0\0\0\0\0\0\0\0\0\0\0\0\0\0\0\0\0\0\0\0\0\0\0\0\0\0\0",
        *b"\x08requires\0\0\0\0\0\0\0\0\0\0\0\0\0\0\0\0\0\0\0\0\0\0\0\0",
        *b"\x06all-of\0\0\0\0\0\0\0\0\0\0\0\0\0\0\0\0\0\0\0\0\0\0\0\0\0\0",
        *b"\x03mod\0\0\0\0\0\0\0\0\0\0\0\0\0\0\0\0\0\0\0\0\0\0\0\0\0\0\0\0\0",
        *b"\x04impl\0\0\0\0\0\0\0\0\0\0\0\0\0\0\0\0\0\0\0\0\0\0\0\0\0\0\0\0",
        *b"\x03sys\0\0\0\0\0\0\0\0\0\0\0\0\0\0\0\0\0\0\0\0\0\0\0\0\0\0\0\0\0",
        *b"\x03use\0\0\0\0\0\0\0\0\0\0\0\0\0\0\0\0\0\0\0\0\0\0\0\0\0\0\0\0\0",
        *b"\x07delspec\0\0\0\0\0\0\0\0\0\0\0\0\0\0\0\0\0\0\0\0\0\0\0\0\0",
        *b"\x06delmod\0\0\0\0\0\0\0\0\0\0\0\0\0\0\0\0\0\0\0\0\0\0\0\0\0\0",
        *b"\x06delsys\0\0\0\0\0\0\0\0\0\0\0\0\0\0\0\0\0\0\0\0\0\0\0\0\0\0",
        *b"\x06modvar\0\0\0\0\0\0\0\0\0\0\0\0\0\0\0\0\0\0\0\0\0\0\0\0\0\0",
        *b"\x06sysvar\0\0\0\0\0\0\0\0\0\0\0\0\0\0\0\0\0\0\0\0\0\0\0\0\0\0",
        *b"\x09delmodvar\0\0\0\0\0\0\0\0\0\0\0\0\0\0\0\0\0\0\0\0\0\0\0",
        *b"\x09delsysvar\0\0\0\0\0\0\0\0\0\0\0\0\0\0\0\0\0\0\0\0\0\0\0",
        *b"\x05parts\0\0\0\0\0\0\0\0\0\0\0\0\0\0\0\0\0\0\0\0\0\0\0\0\0\0\0",
    ],
};

// The hashes of the keywords, as a set of numbers below 64.
const KEYWORD_HASHES: u64 = 8360950420800018440;

// Whether a word has the hash of a keyword. Most names have not, and need no lookup.
// A word is a part of a text: a type for a short one would be made and taken apart at each call.
fn may_be_keyword(word: &[u8]) -> bool
    requires { short word.now ≡ true }
    ensures { result ≡ bit keyword_hashes (hash_of word.now) }
{
    let last = word.len() - 1;
    let hash = (usize::from(word[last]) + 8 * word.len()) % 64;
    sets::member(KEYWORD_HASHES, hash)
}

// The number of the keyword that a word is, if it is one.
pub fn keyword_of(word: &[u8]) -> Option<usize>
    requires { short word.now ≡ true }
    ensures { answered result ≡ place keywords word.now }
{
    if !may_be_keyword(word) {
        return None;
    }
    KEYWORDS.lookup(word)
}

// Whether a word is the keyword with the number k.
// A word is a part of a text: a type for a short one would be made and taken apart at each call.
pub fn is_keyword(word: &[u8], k: usize) -> bool
    requires k_lt_keyword_count { k < keyword_count }
    requires word_value { short word.now ≡ true }
    ensures { result ≡ same word.now (name_at keywords k) }
{
    word == KEYWORDS.name(k)
}

// Whether a word that was read is a name.
pub fn is_name_word(word: &[u8]) -> bool
    requires { 0 < length word.now }
    ensures { result ≡ name_word word.now }
{
    word.len() <= 32 && keyword_of(word).is_none()
}

pub fn is_valid_name(word: &[u8]) -> bool
    ensures { result ≡ valid_name word.now }
{
    if word.is_empty() || !is_alnum(word[0]) {
        return false;
    }
    run_end(word, 1, false) == word.len() && is_name_word(word)
}

pub fn is_valid_implementation(word: &[u8]) -> bool
    ensures { result ≡ valid_implementation word.now }
{
    if word.is_empty() || 32 < word.len() {
        return false;
    }
    run_end(word, 0, true) == word.len()
}
