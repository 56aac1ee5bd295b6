//! Cuts a file into tokens, or parses it, and writes how much there is, or why there is nothing: for timing.
//!
//! The words are `lex` or `parse` and the name of a file.
#![tactic(auto)]

use py_lexer::lex;
use py_lexer::refusal::LexRefusal;
use py_lexer::token::Token;
use py_outside::construct::Construct;
use py_parser::parse;
use py_recogniser::refusal::ParseRefusal;
use shed_base::{Folder, Names, Place, RealFolder, Width};
use std::alloc::Global;
use std::env;
use std::process::ExitCode;

// The most bytes of a file that are read.
const MOST_BYTES: usize = 67_108_864;

/// What a text comes to.
enum Answer {
    Tokens(usize),
    Statements(usize),
    NoTokens(LexRefusal),
    Unexpected(Place),
    Outside(Place, Construct),
    TooDeep(Place),
    NoMemory,
}

fn main(rt: HostRuntime) -> ExitCode {
    let alloc = rt.alloc();
    let Ok(mut words) = env::args(&rt) else {
        return ExitCode::from(2);
    };
    let (Some(command), Some(name)) = (words.nth(1), words.next()) else {
        return ExitCode::from(2);
    };
    let mut folder = RealFolder::new(alloc, &rt);
    let Ok(Some(text)) = folder.read_file(alloc, name.as_str(), MOST_BYTES) else {
        return ExitCode::from(6);
    };
    let said = match read(alloc, text.as_slice(), command.as_str() == "parse") {
        Answer::Tokens(count) => println!(rt; "{count} tokens"),
        Answer::Statements(count) => println!(rt; "{count} statements"),
        Answer::NoTokens(refusal) => println!(rt; "{refusal}"),
        Answer::Unexpected(place) => {
            let line = place.line;
            let column = place.column;
            println!(rt; "unexpected token at {line}:{column}")
        }
        Answer::Outside(place, construct) => {
            let line = place.line;
            let column = place.column;
            let name = construct.name();
            println!(rt; "{name} at {line}:{column}")
        }
        Answer::TooDeep(place) => {
            let line = place.line;
            let column = place.column;
            println!(rt; "nested too deep at {line}:{column}")
        }
        Answer::NoMemory => return ExitCode::from(8),
    };
    match said {
        Ok(()) => ExitCode::from(0),
        Err(_) => ExitCode::from(7),
    }
}

fn read(alloc: Global, text: &[u8], is_parsed: bool) -> Answer {
    let Ok(mut names) = Names::new(alloc) else {
        return Answer::NoMemory;
    };
    match lex(alloc, text, 0, Width::W32, &mut names) {
        Ok(tokens) if is_parsed => read_tree(alloc, tokens.as_slice(), &names),
        Ok(tokens) => Answer::Tokens(tokens.len()),
        Err(LexRefusal::NoMemory) => Answer::NoMemory,
        Err(refusal) => Answer::NoTokens(refusal),
    }
}

fn read_tree(alloc: Global, tokens: &[Token], names: &Names) -> Answer {
    match parse(alloc, tokens, names) {
        Ok(module) => Answer::Statements(module.body.len()),
        Err(ParseRefusal::Unexpected(place, _)) => Answer::Unexpected(place),
        Err(ParseRefusal::Outside(place, construct)) => Answer::Outside(place, construct),
        Err(ParseRefusal::TooDeep(place)) => Answer::TooDeep(place),
        Err(ParseRefusal::NoMemory) => Answer::NoMemory,
    }
}
