mod outside;
mod refused_blocks;
mod refused_expressions;
mod refused_statements;

use py_lexer::lex;
use py_lexer::token::TokenKind;
use py_recogniser::recognise;
use py_recogniser::refusal::{Found, ParseRefusal};
use shed_base::{Names, Place, Width};
use std::alloc::Global;
use std::test::Fail;

// A token as it is spelt, where a text stands between single quotes as it is.
fn spelling(alloc: Global, names: &Names, kind: &TokenKind) -> Result<String, Fail> {
    let spelling = match kind {
        TokenKind::Name(name) => String::from_str(alloc, names.text(*name).unwrap_or("?"))?,
        TokenKind::Keyword(keyword) => String::from_str(alloc, keyword.spelling())?,
        TokenKind::Operator(operator) => String::from_str(alloc, operator.spelling())?,
        TokenKind::Number(value) => format!(in alloc; "{value}")?,
        TokenKind::Text(text) => {
            let mut quoted = String::from_str(alloc, "'")?;
            for b in text.as_slice() {
                quoted.push(char::from(*b))?;
            }
            quoted.push('\'')?;
            quoted
        }
        TokenKind::Newline => String::from_str(alloc, "NEWLINE")?,
        TokenKind::Indent => String::from_str(alloc, "INDENT")?,
        TokenKind::Dedent => String::from_str(alloc, "DEDENT")?,
        TokenKind::Float | TokenKind::Imaginary | TokenKind::Bytes | TokenKind::Formatted => {
            String::from_str(alloc, "OUTSIDE")?
        }
    };
    Ok(spelling)
}

// What comes of a text: that it is a module, where it is nested too deep, where a construct outside the profile has its head, or
// the first token that fits nowhere with its line and column before it.
fn told(alloc: Global, text: &str) -> Result<String, Fail> {
    let mut names = Names::new(alloc)?;
    let Ok(tokens) = lex(alloc, text.as_bytes(), 0, Width::W32, &mut names) else {
        return Ok(String::from_str(alloc, "no tokens")?);
    };
    let told = match recognise(alloc, tokens.as_slice(), &names) {
        Ok(()) => String::from_str(alloc, "module")?,
        Err(ParseRefusal::TooDeep(Place { line, column, .. })) => {
            format!(in alloc; "{line}:{column} too deep")?
        }
        Err(ParseRefusal::Unexpected(Place { line, column, .. }, Found::Token(kind))) => {
            let spelling = spelling(alloc, &names, &kind)?;
            format!(in alloc; "{line}:{column} {spelling}")?
        }
        Err(ParseRefusal::Unexpected(Place { line, column, .. }, Found::End)) => {
            format!(in alloc; "{line}:{column} END")?
        }
        Err(ParseRefusal::Outside(Place { line, column, .. }, construct)) => {
            let name = construct.name();
            format!(in alloc; "{line}:{column} outside {name}")?
        }
        Err(ParseRefusal::NoMemory) => String::from_str(alloc, "no memory")?,
    };
    Ok(told)
}

// The texts of which something else comes than stands beside them, each with what comes of it.
fn differences(alloc: Global, rows: &[(&str, &str)]) -> Result<String, Fail> {
    let mut differences = String::new(alloc);
    for (text, want) in rows {
        let told = told(alloc, text)?;
        if told.as_str() != *want {
            let difference = format!(in alloc; "{text:?} gives {told}; ")?;
            differences.push_str(difference.as_str())?;
        }
    }
    Ok(differences)
}

#[test]
fn modules_are_recognised(rt: HostRuntime) -> Result<(), Fail> {
    let rows = [
        ("", "module"),
        ("print(x + -2 * x)\n", "module"),
        ("a = b, c = d[1], e.f = (1, 2)\n", "module"),
        ("[a, b] = (c) = [d]\n", "module"),
        ("a.b[1] **= -x ** 2\n", "module"),
        ("f(1, x, y=2, z=3,)\n", "module"),
        ("if a: b\nelif c: d\nelse:\n  e; f\n", "module"),
        ("for (x, y) in z: pass\n", "module"),
        (
            "try:\n  f()\nexcept m.E as e:\n  g()\nexcept:\n  pass\n",
            "module",
        ),
        (
            "def f(x, y=1):\n  return x if y else None\nclass C(m.B):\n  pass\n",
            "module",
        ),
        ("import a as b, c\nfrom m import x, y as z\n", "module"),
        (
            "x = [a for b in c if d for e in f]; y = {1: 2, 3: 4}; z = {5, 6}\n",
            "module",
        ),
        ("del a.b[1](2)[3]\nassert x, 'no'\nglobal g, h\n", "module"),
        (
            "x = a < b <= c not in d is not e and f or not g\n",
            "module",
        ),
    ];
    assert_eq!(rt; differences(rt.alloc(), &rows)?.as_str(), "");
    Ok(())
}

// Each row has what comes first, what is repeated before a middle and behind it, what comes last, how many times, and what
// comes of it.

// Brackets and displays.
const BRACKETS: [(&str, &str, &str, &str, &str, usize, &str); 7] = [
    ("x = ", "(", "1", ")", "\n", 99, "module"),
    ("x = ", "(", "1", ")", "\n", 100, "1:105 too deep"),
    ("x = ", "[", "1", "]", "\n", 99, "module"),
    ("x = ", "[", "1", "]", "\n", 100, "1:105 too deep"),
    ("x = ", "{", "1", "}", "\n", 100, "1:105 too deep"),
    ("x = ", "{1: ", "1", "}", "\n", 99, "module"),
    ("x = ", "{1: ", "1", "}", "\n", 100, "1:402 too deep"),
];

// Operators.
const OPERATORS: [(&str, &str, &str, &str, &str, usize, &str); 8] = [
    ("x = ", "-", "1", "", "\n", 99, "module"),
    ("x = ", "-", "1", "", "\n", 100, "1:105 too deep"),
    ("x = ", "not ", "y", "", "\n", 99, "module"),
    ("x = ", "not ", "y", "", "\n", 100, "1:405 too deep"),
    ("x = 1", "", "", " + 1", "\n", 99, "module"),
    ("x = 1", "", "", " + 1", "\n", 100, "1:5 too deep"),
    ("x = ", "a ** ", "b", "", "\n", 99, "module"),
    ("x = ", "a ** ", "b", "", "\n", 100, "1:500 too deep"),
];

// Subscripts, attributes and calls.
const PRIMARIES: [(&str, &str, &str, &str, &str, usize, &str); 8] = [
    ("x = a", "", "", "[0]", "\n", 99, "module"),
    ("x = a", "", "", "[0]", "\n", 100, "1:5 too deep"),
    ("x = a", "", "", "[:0]", "\n", 100, "1:5 too deep"),
    ("x = a", "", "", ".b", "\n", 100, "1:5 too deep"),
    ("x = a", "", "", "()", "\n", 100, "1:5 too deep"),
    ("x = ", "f(", "1", ")", "\n", 99, "module"),
    ("x = ", "f(", "1", ")", "\n", 100, "1:203 too deep"),
    ("x = ", "f(y=", "1", ")", "\n", 100, "1:401 too deep"),
];

// Conditional expressions, and tuples in brackets.
const CONDITIONALS_AND_TUPLES: [(&str, &str, &str, &str, &str, usize, &str); 4] = [
    ("x = ", "a if b else ", "c", "", "\n", 99, "module"),
    (
        "x = ",
        "a if b else ",
        "c",
        "",
        "\n",
        100,
        "1:1193 too deep",
    ),
    ("x = ", "(1, ", "1", ")", "\n", 49, "module"),
    ("x = ", "(1, ", "1", ")", "\n", 50, "1:202 too deep"),
];

// Targets.
const TARGETS: [(&str, &str, &str, &str, &str, usize, &str); 6] = [
    ("", "(", "x", ")", " = 1\n", 99, "module"),
    ("", "(", "x", ")", " = 1\n", 100, "1:101 too deep"),
    ("", "(", "x, y", ")", " = 1\n", 99, "module"),
    ("", "[", "x, y", "]", " = 1\n", 100, "1:101 too deep"),
    ("for ", "(", "x", ")", " in y: pass\n", 99, "module"),
    (
        "for ",
        "(",
        "x",
        ")",
        " in y: pass\n",
        100,
        "1:105 too deep",
    ),
];

// Branches, and chains that are one node.
const BRANCHES_AND_CHAINS: [(&str, &str, &str, &str, &str, usize, &str); 6] = [
    ("if a: b\n", "", "", "elif c: d\n", "", 98, "module"),
    ("if a: b\n", "", "", "elif c: d\n", "", 99, "100:9 too deep"),
    ("x = a", "", "", " < b", "\n", 1000, "module"),
    ("x = a", "", "", " or b", "\n", 1000, "module"),
    ("x = a", "", "", " and b", "\n", 1000, "module"),
    ("x = 1", "", "", ", 1", "\n", 1000, "module"),
];

// Fronts of modules that break off: what is nested too deep in each module that goes on as they do is told, if it comes no later than
// the token at which they do.
const FRONTS: [(&str, &str, &str, &str, &str, usize, &str); 13] = [
    ("x = ", "(", "1 2", ")", "\n", 99, "1:106 2"),
    ("x = ", "(", "1 2", ")", "\n", 100, "1:105 too deep"),
    ("x = ", "(", "1 2", ")", "\n", 1000, "1:105 too deep"),
    (
        "x = ",
        "(",
        "1 / 2",
        ")",
        "\n",
        99,
        "1:106 outside division",
    ),
    ("x = ", "(", "1 / 2", ")", "\n", 100, "1:105 too deep"),
    ("x = 1", "", "", " + 1", " 2\n", 99, "1:403 2"),
    ("x = 1", "", "", " + 1", " 2\n", 100, "1:5 too deep"),
    ("x = a", "", "", "[0]", " b\n", 99, "1:304 b"),
    ("x = a", "", "", "[0]", " b\n", 100, "1:5 too deep"),
    ("x = ", "a if b else ", "c", "", " d\n", 99, "1:1195 d"),
    (
        "x = ",
        "a if b else ",
        "c",
        "",
        " d\n",
        100,
        "1:1193 too deep",
    ),
    (
        "if x: pass\n",
        "",
        "",
        "elif x: pass\n",
        "x 2\n",
        99,
        "101:3 2",
    ),
    (
        "if x: pass\n",
        "",
        "",
        "elif x: pass\n",
        "x 2\n",
        100,
        "101:6 too deep",
    ),
];

// What each kind of node adds to the depth of what breaks off within it.
const FRONTS_OF_NODES: [(&str, &str, &str, &str, &str, usize, &str); 18] = [
    ("x = ", "-", "1 2", "", "\n", 99, "1:106 2"),
    ("x = ", "-", "1 2", "", "\n", 100, "1:105 too deep"),
    ("x = ", "a ** ", "b c", "", "\n", 99, "1:502 c"),
    ("x = ", "a ** ", "b c", "", "\n", 100, "1:500 too deep"),
    ("x = ", "[", "1 2", "]", "\n", 99, "1:106 2"),
    ("x = ", "[", "1 2", "]", "\n", 100, "1:105 too deep"),
    ("x = ", "{1: ", "1 2", "}", "\n", 99, "1:403 2"),
    ("x = ", "{1: ", "1 2", "}", "\n", 100, "1:402 too deep"),
    ("x = ", "a[", "1 2", "]", "\n", 99, "1:205 2"),
    ("x = ", "a[", "1 2", "]", "\n", 100, "1:203 too deep"),
    ("x = ", "f(", "1 2", ")", "\n", 99, "1:205 2"),
    ("x = ", "f(", "1 2", ")", "\n", 100, "1:203 too deep"),
    ("x = ", "f(y=", "1 2", ")", "\n", 100, "1:401 too deep"),
    ("x = a", "", "", ".b", " c\n", 99, "1:205 c"),
    ("x = a", "", "", ".b", " c\n", 100, "1:5 too deep"),
    ("x = ", "[a for b in ", "1 2", "]", "\n", 99, "1:1195 2"),
    (
        "x = ",
        "[a for b in ",
        "1 2",
        "]",
        "\n",
        100,
        "1:1194 too deep",
    ),
    ("x = 1", "", "", " < 2", " 3\n", 1000, "1:4007 3"),
];

// Texts that end before a module does: an operand is still to come, or a block.
const UNFINISHED: [(&str, &str, &str, &str, &str, usize, &str); 6] = [
    ("x = 1", "", "", " + 1", " +\n", 98, "1:400 NEWLINE"),
    ("x = 1", "", "", " + 1", " +\n", 99, "1:5 too deep"),
    ("x = a", "", "", "[0]", ".\n", 98, "1:301 NEWLINE"),
    ("x = a", "", "", "[0]", ".\n", 99, "1:5 too deep"),
    (
        "if x: pass\n",
        "",
        "",
        "elif x: pass\n",
        "else:\n",
        99,
        "101:6 END",
    ),
    (
        "if x: pass\n",
        "",
        "",
        "elif x: pass\n",
        "else:\n",
        100,
        "101:6 too deep",
    ),
];

// Operators behind brackets stand over what comes before, where the text goes on to them, and else they don't.
const OPERATORS_OVER_BRACKETS: [(&str, &str, &str, &str, &str, usize, &str); 5] = [
    ("(x", "", "", " + 1", " + ((1 2)))\n", 97, "1:398 2"),
    ("(x", "", "", " + 1", " + ((1 2)))\n", 98, "1:2 too deep"),
    ("(x + ", "(", "1", ") + 1", ") 2\n", 120, "1:55 too deep"),
    ("(x + ", "(", "1 2", ") + 1", ")\n", 120, "1:104 too deep"),
    ("(x + ", "(", "1 2", ") + 1", ")\n", 97, "1:105 2"),
];

// Tuples that may be assigned to, whose items have one node less above them then.
const FRONTS_OF_TARGETS: [(&str, &str, &str, &str, &str, usize, &str); 15] = [
    ("", "(", "a, b c", ")", "\n", 99, "1:105 c"),
    ("", "(", "a, b c", ")", "\n", 100, "1:101 too deep"),
    ("", "[", "a, b c", "]", "\n", 99, "1:105 c"),
    ("", "[", "a, b c", "]", "\n", 100, "1:101 too deep"),
    ("x = ", "(", "a, b c", ")", "\n", 99, "1:109 c"),
    ("x = ", "(", "a, b c", ")", "\n", 100, "1:105 too deep"),
    // What comes behind `+=` is never assigned to.
    ("x += ", "(", "a, b c", ")", "\n", 98, "1:109 c"),
    ("x += ", "(", "a, b c", ")", "\n", 99, "1:105 too deep"),
    // A number is no target, whatever comes behind it.
    ("", "(", "1, b c", ")", "\n", 98, "1:104 c"),
    ("", "(", "1, b c", ")", "\n", 99, "1:100 too deep"),
    // An attribute of a call is one, and so may the call be that is read.
    ("", "(", "a, b.c d", ")", "\n", 98, "1:106 d"),
    ("", "(", "a, b.c d", ")", "\n", 99, "1:103 too deep"),
    ("", "(", "a, b() c", ")", "\n", 98, "1:102 too deep"),
    ("", "(", "a, b() c", ")", "\n", 99, "1:103 too deep"),
    // But a sign makes none.
    ("", "(", "a, -b c", ")", "\n", 99, "1:100 too deep"),
];

// A text with something before a middle and something behind it, each so many times.
fn nested(
    alloc: Global,
    first: &str,
    before: &str,
    middle: &str,
    behind: &str,
    count: usize,
) -> Result<String, Fail> {
    let mut text = String::from_str(alloc, first)?;
    for _ in 0..count {
        text.push_str(before)?;
    }
    text.push_str(middle)?;
    for _ in 0..count {
        text.push_str(behind)?;
    }
    Ok(text)
}

// The nested texts of which something else comes than stands beside them. A node may have 100 others above it.
fn nested_differences(
    alloc: Global,
    rows: &[(&str, &str, &str, &str, &str, usize, &str)],
) -> Result<String, Fail> {
    let mut differences = String::new(alloc);
    for (first, before, middle, behind, last, count, want) in rows {
        let mut text = nested(alloc, first, before, middle, behind, *count)?;
        text.push_str(last)?;
        let told = told(alloc, text.as_str())?;
        if told.as_str() != *want {
            let difference = format!(in alloc;
                "{count} times {before:?} and {behind:?} gives {told}; "
            )?;
            differences.push_str(difference.as_str())?;
        }
    }
    Ok(differences)
}

#[test]
fn deep_brackets_are_refused(rt: HostRuntime) -> Result<(), Fail> {
    assert_eq!(rt; nested_differences(rt.alloc(), &BRACKETS)?.as_str(), "");
    Ok(())
}

#[test]
fn deep_operators_are_refused(rt: HostRuntime) -> Result<(), Fail> {
    assert_eq!(rt; nested_differences(rt.alloc(), &OPERATORS)?.as_str(), "");
    Ok(())
}

#[test]
fn deep_primaries_are_refused(rt: HostRuntime) -> Result<(), Fail> {
    assert_eq!(rt; nested_differences(rt.alloc(), &PRIMARIES)?.as_str(), "");
    Ok(())
}

#[test]
fn deep_fronts_are_refused(rt: HostRuntime) -> Result<(), Fail> {
    assert_eq!(rt; nested_differences(rt.alloc(), &FRONTS)?.as_str(), "");
    Ok(())
}

#[test]
fn deep_fronts_of_nodes_are_refused(rt: HostRuntime) -> Result<(), Fail> {
    assert_eq!(rt;
        nested_differences(rt.alloc(), &FRONTS_OF_NODES)?.as_str(),
        ""
    );
    Ok(())
}

#[test]
fn deep_unfinished_texts_are_refused(rt: HostRuntime) -> Result<(), Fail> {
    assert_eq!(rt; nested_differences(rt.alloc(), &UNFINISHED)?.as_str(), "");
    Ok(())
}

// Heads of so many blocks, each in the one before it, and no statement in the last.
fn heads(alloc: Global, count: usize) -> Result<String, Fail> {
    let mut text = String::new(alloc);
    for depth in 0..count {
        let indentation = " ".repeat(alloc, depth)?;
        let head = format!(in alloc; "{indentation}if x:\n")?;
        text.push_str(head.as_str())?;
    }
    Ok(text)
}

// The condition of the 101st head is the first node with more than 100 others above it.
#[test]
fn deep_unfinished_blocks_are_refused(rt: HostRuntime) -> Result<(), Fail> {
    let alloc = rt.alloc();
    let text = heads(alloc, 100)?;
    assert_eq!(rt; told(alloc, text.as_str())?.as_str(), "100:105 DEDENT");
    let text = heads(alloc, 101)?;
    assert_eq!(rt; told(alloc, text.as_str())?.as_str(), "101:104 too deep");
    let text = heads(alloc, 200)?;
    assert_eq!(rt; told(alloc, text.as_str())?.as_str(), "101:104 too deep");
    Ok(())
}

#[test]
fn operators_over_brackets_are_told(rt: HostRuntime) -> Result<(), Fail> {
    assert_eq!(rt;
        nested_differences(rt.alloc(), &OPERATORS_OVER_BRACKETS)?.as_str(),
        ""
    );
    Ok(())
}

#[test]
fn deep_fronts_of_targets_are_refused(rt: HostRuntime) -> Result<(), Fail> {
    assert_eq!(rt;
        nested_differences(rt.alloc(), &FRONTS_OF_TARGETS)?.as_str(),
        ""
    );
    Ok(())
}

#[test]
fn deep_conditionals_and_tuples_are_refused(rt: HostRuntime) -> Result<(), Fail> {
    assert_eq!(rt;
        nested_differences(rt.alloc(), &CONDITIONALS_AND_TUPLES)?.as_str(),
        ""
    );
    Ok(())
}

#[test]
fn deep_targets_are_refused(rt: HostRuntime) -> Result<(), Fail> {
    assert_eq!(rt; nested_differences(rt.alloc(), &TARGETS)?.as_str(), "");
    Ok(())
}

#[test]
fn deep_branches_and_chains_are_refused(rt: HostRuntime) -> Result<(), Fail> {
    assert_eq!(rt;
        nested_differences(rt.alloc(), &BRANCHES_AND_CHAINS)?.as_str(),
        ""
    );
    Ok(())
}

// Of some nodes that lie too deep the first by place is told, and not the first that is read whole.
#[test]
fn first_deep_place_is_told(rt: HostRuntime) -> Result<(), Fail> {
    let alloc = rt.alloc();
    let sum = " + 1".repeat(alloc, 100)?;
    let signs = "-".repeat(alloc, 100)?;
    let text = format!(in alloc; "x = {signs}1\ny = 2{sum}\n")?;
    assert_eq!(rt; told(alloc, text.as_str())?.as_str(), "1:105 too deep");
    let text = format!(in alloc; "y = 2{sum}\nx = {signs}1\n")?;
    assert_eq!(rt; told(alloc, text.as_str())?.as_str(), "1:5 too deep");
    let text = format!(in alloc; "y = f(a, {signs}1){sum}\n")?;
    assert_eq!(rt; told(alloc, text.as_str())?.as_str(), "1:5 too deep");
    Ok(())
}
