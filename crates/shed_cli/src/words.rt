//! The words of the command line.

ghost use Rattle.std.specs.Prelude.{◌≡◌, [], ◌∷◌, map, string_bytes};
ghost use Rattle.std.specs.Option.{option_copied};
ghost use Rattle.py_tokens.specs.Lexeme.{keywords};
ghost use Rattle.std.specs.List.{list_all};
ghost use Rattle.shed_meaning.specs.Words.{is_name_part as is_name_byte, without_ending, is_keyword as is_word_of_language, is_module_name as is_name_of_module, named, reading};

/// The keywords of Python.
const KEYWORDS: [&[u8]; 35] = [
    b"False",
    b"None",
    b"True",
    b"and",
    b"as",
    b"assert",
    b"async",
    b"await",
    b"break",
    b"class",
    b"continue",
    b"def",
    b"del",
    b"elif",
    b"else",
    b"except",
    b"finally",
    b"for",
    b"from",
    b"global",
    b"if",
    b"import",
    b"in",
    b"is",
    b"lambda",
    b"nonlocal",
    b"not",
    b"or",
    b"pass",
    b"raise",
    b"return",
    b"try",
    b"while",
    b"with",
    b"yield",
];

/// Whether a byte may stand in an ASCII name: a letter, a digit or `_`.
fn is_name_part(b: u8) -> bool
    ensures { result ≡ is_name_byte b }
{
    b.is_ascii_alphanumeric() || b == b'_'
}

/// The name of the module to translate, where the words say one.
pub fn read_words(words: &[String]) -> Option<&str>
    ensures { option_copied result ≡ reading (map string_bytes words.now) }
{
    if words.len() != 2 {
        return None;
    }
    module_named(words[0].as_str(), words[1].as_str())
}

// The module of the command's word, where the command is `translate`.
fn module_named<'a>(command: &str, word: &'a str) -> Option<&'a str>
    ensures { option_copied result ≡ reading (command.now ∷ word.now ∷ []) }
{
    if command != "translate" {
        return None;
    }
    module_name(word)
}

// The word as the name of a module, which may end in `.py`.
fn module_name(word: &str) -> Option<&str>
    ensures { option_copied result ≡ named (without_ending word.now) }
{
    let name = stem(word);
    if is_module_name(name) {
        Some(name)
    } else {
        None
    }
}

fn stem(word: &str) -> &str
    ensures { result.now ≡ without_ending word.now }
{
    match word.strip_suffix(".py") {
        Some(name) => name,
        None => word,
    }
}

fn is_module_name(name: &str) -> bool
    ensures { result ≡ is_name_of_module name.now }
{
    let bytes = name.as_bytes();
    match bytes {
        [] => false,
        [first, ..] => !first.is_ascii_digit() && are_name_parts(bytes) && !is_keyword(bytes),
    }
}

fn are_name_parts(bytes: &[u8]) -> bool
    ensures { result ≡ list_all is_name_byte bytes.now }
{
    for byte in bytes {
        if !is_name_part(*byte) {
            return false;
        }
    }
    true
}

fn is_keyword(word: &[u8]) -> bool
    ensures { result ≡ is_word_of_language word.now }
{
    let mut words: &[&[u8]] = &KEYWORDS;
    while let [first, rest @ ..] = words {
        if *first == word {
            return true;
        }
        words = rest;
    }
    false
}
