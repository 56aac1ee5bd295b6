//! From the text of a module to what is built of it, or to its fault.

ghost use Rattle.std.specs.Prelude.{◌≡◌, IfOk, IfErr};
ghost use Rattle.py_meaning.specs.Source.{IsSource};
ghost use Rattle.py_built.specs.PlainTrees.{plain};
ghost use Rattle.shed_source.specs.Faults.{IsFaultOf};

use crate::fault::{Fault, bad_token, outside, too_deep, unbuilt, unexpected};
use py_built::build;
use py_built::tree::Module;
use py_lexer::lex;
use py_lexer::refusal::LexRefusal;
use py_parser::parse;
use py_recogniser::refusal::ParseRefusal;
use shed_base::{Names, NoMemory, Width};
use std::alloc::Global;

/// What is built of a text, or its fault.
pub fn read_source(alloc: Global, text: &[u8]) -> Result<Result<Module, Fault>, NoMemory>
    ensures source { IfOk result (λ r. IfOk r (λ m. IsSource text.now (plain m))) }
    ensures fault { IfOk result (λ r. IfErr r (IsFaultOf text.now)) }
{
    let mut names = Names::new(alloc)?;
    let tokens = match lex(alloc, text, 0, Width::W32, &mut names) {
        Ok(tokens) => tokens,
        Err(LexRefusal::NoMemory) => return Err(NoMemory),
        Err(refusal) => return Ok(Err(bad_token(alloc, refusal)?)),
    };
    let module = match parse(alloc, &tokens, &names) {
        Ok(module) => module,
        Err(ParseRefusal::Unexpected(place, found)) => {
            return Ok(Err(unexpected(alloc, place, &found, &names)?));
        }
        Err(ParseRefusal::Outside(place, construct)) => {
            return Ok(Err(outside(alloc, place, construct)?));
        }
        Err(ParseRefusal::TooDeep(place)) => return Ok(Err(too_deep(alloc, place)?)),
        Err(ParseRefusal::NoMemory) => return Err(NoMemory),
    };
    match build(alloc, &names, &module)? {
        Ok(built) => Ok(Ok(built)),
        Err(place) => Ok(Err(unbuilt(alloc, place)?)),
    }
}
