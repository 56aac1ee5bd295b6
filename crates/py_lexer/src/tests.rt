use crate::lex;
use crate::refusal::LexRefusal;
use crate::token::{Token, TokenKind};
use shed_base::{Names, Place, Width};
use std::test::Fail;

// The tokens as words, each with its line and column before it.
fn shown(rt: &HostRuntime, names: &Names, tokens: &[Token]) -> Result<String, Fail> {
    let alloc = rt.alloc();
    let mut words = String::new(alloc);
    for token in tokens {
        let Place { line, column, .. } = token.place;
        let place = format!(in alloc; "{line}:{column} ")?;
        words.push_str(place.as_str())?;
        match &token.kind {
            TokenKind::Name(name) => words.push_str(names.text(*name).unwrap_or("?"))?,
            TokenKind::Keyword(keyword) => words.push_str(keyword.spelling())?,
            TokenKind::Operator(operator) => words.push_str(operator.spelling())?,
            TokenKind::Number(value) => {
                let digits = format!(in alloc; "{value}")?;
                words.push_str(digits.as_str())?;
            }
            TokenKind::Text(text) => {
                words.push('\'')?;
                for b in text.as_slice() {
                    words.push(char::from(*b))?;
                }
                words.push('\'')?;
            }
            TokenKind::Float => words.push_str("FLOAT")?,
            TokenKind::Imaginary => words.push_str("IMAGINARY")?,
            TokenKind::Bytes => words.push_str("BYTES")?,
            TokenKind::Formatted => words.push_str("FORMATTED")?,
            TokenKind::Newline => words.push_str("NEWLINE")?,
            TokenKind::Indent => words.push_str("INDENT")?,
            TokenKind::Dedent => words.push_str("DEDENT")?,
        }
        words.push_str("; ")?;
    }
    Ok(words)
}

#[test]
fn cuts_texts_into_tokens(rt: HostRuntime) -> Result<(), Fail> {
    let cases: [(&str, &str); 22] = [
        ("", ""),
        ("\n  \n# a\n \t# b", ""),
        ("\u{feff}x", "1:1 x; 1:2 NEWLINE; "),
        ("x = 10_0\n", "1:1 x; 1:3 =; 1:5 100; 1:9 NEWLINE; "),
        (
            "a<b<=c<<d",
            "1:1 a; 1:2 <; 1:3 b; 1:4 <=; 1:6 c; 1:7 <<; 1:9 d; 1:10 NEWLINE; ",
        ),
        (
            "if a:\r\n  b\r\nc\r\n",
            "1:1 if; 1:4 a; 1:5 :; 1:6 NEWLINE; 2:3 INDENT; 2:3 b; 2:4 NEWLINE; 3:1 DEDENT; 3:1 c; 3:2 NEWLINE; ",
        ),
        (
            "a\n  b\n    c\nd",
            "1:1 a; 1:2 NEWLINE; 2:3 INDENT; 2:3 b; 2:4 NEWLINE; 3:5 INDENT; 3:5 c; 3:6 NEWLINE; 4:1 DEDENT; 4:1 DEDENT; 4:1 d; 4:2 NEWLINE; ",
        ),
        (
            "a\n\tb\n\n  # c\n",
            "1:1 a; 1:2 NEWLINE; 2:2 INDENT; 2:2 b; 2:3 NEWLINE; 2:3 DEDENT; ",
        ),
        (
            "a\n \tb\n \tc\n",
            "1:1 a; 1:2 NEWLINE; 2:3 INDENT; 2:3 b; 2:4 NEWLINE; 3:3 c; 3:4 NEWLINE; 3:4 DEDENT; ",
        ),
        (
            "(\n a,\n\tb\n  )\n",
            "1:1 (; 2:2 a; 2:3 ,; 3:2 b; 4:3 ); 4:4 NEWLINE; ",
        ),
        (
            "[{(\n)}\n]",
            "1:1 [; 1:2 {; 1:3 (; 2:1 ); 2:2 }; 3:1 ]; 3:2 NEWLINE; ",
        ),
        ("a \\\n  b\n", "1:1 a; 2:3 b; 2:4 NEWLINE; "),
        (
            "a\n  \\\n    b\n  c\n",
            "1:1 a; 1:2 NEWLINE; 3:5 INDENT; 3:5 b; 3:6 NEWLINE; 4:3 c; 4:4 NEWLINE; 4:4 DEDENT; ",
        ),
        ("'a' \"b\"  '''c'''", "1:1 'abc'; 1:17 NEWLINE; "),
        (
            "('a' # b\n 'c'), 'd'",
            "1:1 (; 1:2 'ac'; 2:5 ); 2:6 ,; 2:8 'd'; 2:11 NEWLINE; ",
        ),
        ("'a'\n'b'", "1:1 'a'; 1:4 NEWLINE; 2:1 'b'; 2:4 NEWLINE; "),
        (
            "'a' f'b' 'c'",
            "1:1 'a'; 1:5 FORMATTED; 1:10 'c'; 1:13 NEWLINE; ",
        ),
        ("'''a\nb''' + x", "1:1 'a\nb'; 2:6 +; 2:8 x; 2:9 NEWLINE; "),
        (
            "x; x; __init__",
            "1:1 x; 1:2 ;; 1:4 x; 1:5 ;; 1:7 __init__; 1:15 NEWLINE; ",
        ),
        ("\u{e4} = 1", "1:1 \u{e4}; 1:3 =; 1:5 1; 1:6 NEWLINE; "),
        (
            "1.5 2j b'a'",
            "1:1 FLOAT; 1:5 IMAGINARY; 1:8 BYTES; 1:12 NEWLINE; ",
        ),
        (
            "if iffy: None",
            "1:1 if; 1:4 iffy; 1:8 :; 1:10 None; 1:14 NEWLINE; ",
        ),
    ];
    for (text, want) in cases {
        let mut names = Names::new(rt.alloc())?;
        match lex(rt.alloc(), text.as_bytes(), 0, Width::W32, &mut names) {
            Ok(tokens) => {
                let words = shown(&rt, &names, tokens.as_slice())?;
                assert_eq!(rt; words.as_str(), want, "at {text:?}");
            }
            Err(_) => assert!(rt; false, "refused: {text:?}"),
        }
    }
    Ok(())
}

fn refusal(rt: &HostRuntime, text: &[u8], width: Width) -> Result<Option<LexRefusal>, Fail> {
    let mut names = Names::new(rt.alloc())?;
    match lex(rt.alloc(), text, 7, width, &mut names) {
        Ok(_) => Ok(None),
        Err(refusal) => Ok(Some(refusal)),
    }
}

fn at(line: u32, column: u32) -> Place {
    Place {
        module: 7,
        line,
        column,
    }
}

#[test]
fn refuses_texts(rt: HostRuntime) -> Result<(), Fail> {
    let cases: [(&[u8], LexRefusal); 25] = [
        (b"a\n b\xff", LexRefusal::NotUtf8(at(2, 3))),
        (b"( \xff", LexRefusal::NotUtf8(at(1, 3))),
        (b"a $", LexRefusal::BadCharacter(at(1, 3))),
        (b"a # \x01", LexRefusal::BadCharacter(at(1, 5))),
        (b"a \\ b", LexRefusal::BadCharacter(at(1, 3))),
        (b"1a", LexRefusal::BadCharacter(at(1, 2))),
        (b"a\n  b\n c", LexRefusal::BadIndent(at(3, 2))),
        (b"a\n  b\n ?", LexRefusal::BadIndent(at(3, 2))),
        (b"a\n        b\n\tc", LexRefusal::MixedTabs(at(3, 2))),
        (b"a\n\tb\n    c", LexRefusal::MixedTabs(at(3, 5))),
        (b"a\n  b\n \tc", LexRefusal::MixedTabs(at(3, 3))),
        (b"a\n 'b\n", LexRefusal::UnclosedText(at(2, 2))),
        (b"x = (\n a,\n[\n", LexRefusal::UnclosedBracket(at(3, 1))),
        (b"a)", LexRefusal::UnclosedBracket(at(1, 2))),
        (b"(]", LexRefusal::UnclosedBracket(at(1, 2))),
        (b"[(]", LexRefusal::UnclosedBracket(at(1, 3))),
        (b"( $", LexRefusal::BadCharacter(at(1, 3))),
        (b"'''\n\\q\\x1'''", LexRefusal::BadEscape(at(2, 3))),
        (b"2147483648", LexRefusal::WideNumber(at(1, 1))),
        (b"'a\xc3\xa4'", LexRefusal::NonAsciiText(at(1, 3))),
        (b"\xef\xac\x81", LexRefusal::NotNormal(at(1, 1))),
        (b"a = e\xcc\x81", LexRefusal::NotNormal(at(1, 5))),
        (b"\xe2\x82\xac", LexRefusal::BadCharacter(at(1, 1))),
        (b"a\xc2\xa0b", LexRefusal::BadCharacter(at(1, 2))),
        (b"0777", LexRefusal::BadCharacter(at(1, 2))),
    ];
    for (text, want) in cases {
        assert_eq!(rt; refusal(&rt, text, Width::W32)?, Some(want), "at {text:?}");
    }
    Ok(())
}

#[test]
fn the_width_bounds_numbers(rt: HostRuntime) -> Result<(), Fail> {
    let cases: [(&[u8], Width, bool); 4] = [
        (b"2147483647", Width::W32, false),
        (b"2147483648", Width::W64, false),
        (b"9223372036854775807", Width::W64, false),
        (b"9223372036854775808", Width::W64, true),
    ];
    for (text, width, want) in cases {
        let refused = refusal(&rt, text, width)?.is_some();
        assert_eq!(rt; refused, want, "at {text:?}");
    }
    Ok(())
}

#[test]
fn bounds_names(rt: HostRuntime) -> Result<(), Fail> {
    let cases = [
        ("a", 1000, false),
        ("a", 1001, true),
        ("\u{e4}", 500, false),
        ("\u{e4}", 501, true),
    ];
    for (letter, count, is_long) in cases {
        let text = format!(in rt.alloc(); "x = {}", letter.repeat(rt.alloc(), count)?)?;
        let want = if is_long {
            Some(LexRefusal::TooLong(at(1, 5)))
        } else {
            None
        };
        assert_eq!(rt;
            refusal(&rt, text.as_bytes(), Width::W32)?,
            want,
            "{count} times {letter}"
        );
    }
    Ok(())
}
