// Reads a text from standard input and prints its tokens, one a line. Behind a form feed stand words, one a line: what each is comes after
// it. `stdout` was written from document 01.
#![tactic(auto)]

use std::io;
use std::io::Write;
use words::Token;

// What parts the text from the words: a form feed, which is no white space.
const PARTING: u8 = 12;

fn print_token(rt: &HostRuntime, kind: &str, part: &[u8]) -> io::Result<()> {
    print!(rt; "{kind} ")?;
    rt.stdout().write_all(part)?;
    println!(rt)
}

fn print_tokens(rt: &HostRuntime, text: &[u8]) -> io::Result<()> {
    let mut rest = text;
    while let Some(token) = words::next_token(rest, 0) {
        match token {
            Token::Word(start, end) => {
                print_token(rt, "word", &rest[start..end])?;
                rest = &rest[end..];
            }
            Token::Quoted(start, end) => {
                print_token(rt, "implementation", &rest[start..end])?;
                rest = &rest[end + 1..];
            }
            Token::Mark(mark, end) => {
                print_token(rt, "mark", &[mark])?;
                rest = &rest[end..];
            }
            Token::End => return println!(rt; "end"),
        }
    }
    println!(rt; "no token")
}

// ---- what a word is

// The number of a keyword. What is empty or has more than 32 bytes is none, and may not be asked about.
// read_command asks in the same form for what a word begins.
fn keyword_of(word: &[u8]) -> Option<usize> {
    if word.is_empty() || 32 < word.len() {
        return None;
    }
    words::keyword_of(word)
}

fn print_kinds(rt: &HostRuntime, word: &[u8]) -> io::Result<()> {
    rt.stdout().write_all(word)?;
    print!(rt; ":")?;
    if let Some(k) = keyword_of(word) {
        print!(rt; " keyword {k}")?;
    }
    if words::is_valid_name(word) {
        print!(rt; " name")?;
    }
    if words::is_valid_implementation(word) {
        print!(rt; " implementation")?;
    }
    println!(rt)
}

fn print_words(rt: &HostRuntime, input: &[u8]) -> io::Result<()> {
    for word in input.split(|&c| c == b'\n') {
        print_kinds(rt, word)?;
    }
    Ok(())
}

fn print_all(rt: &HostRuntime, input: &[u8]) -> io::Result<()> {
    match input.iter().position(|&c| c == PARTING) {
        Some(end) => {
            print_tokens(rt, &input[..end])?;
            print_words(rt, &input[end + 1..])
        }
        None => print_tokens(rt, input),
    }
}

fn main(rt: HostRuntime) -> io::Result<()> {
    // Each program reads its input for itself. An array and no `Vec`, as the program needs no heap. What stands behind its 4096 bytes is not read.
    let mut input = [0u8; 4096];
    let n = input::fill(&mut rt.stdin(), &mut input)?;
    // A write that fails is passed over.
    let _ = print_all(&rt, &input[..n]);
    Ok(())
}
