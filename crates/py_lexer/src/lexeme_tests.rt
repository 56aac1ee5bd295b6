use crate::lexeme::front_of;
use shed_base::Width;
use std::alloc::{AllocError, Global};
use std::test::Fail;

fn front_said(alloc: Global, text: &str) -> Result<String, AllocError> {
    let characters: Vec<char> = text.chars().collect(alloc)?;
    let front = front_of(alloc, Width::W32, characters.as_slice())?;
    format!(in alloc; "{} {:?}", front.length, front.lexeme)
}

// CPython's tokenizer gave the words; all else is by hand.

#[test]
fn reads_names(rt: HostRuntime) -> Result<(), Fail> {
    let cases: [(&str, &str); 8] = [
        ("x", "1 Word(Name(\"x\"))"),
        ("if", "2 Word(Keyword(If))"),
        ("ifx", "3 Word(Name(\"ifx\"))"),
        ("None", "4 Word(Keyword(None))"),
        ("_a1-", "3 Word(Name(\"_a1\"))"),
        ("print(", "5 Word(Name(\"print\"))"),
        ("rb", "2 Word(Name(\"rb\"))"),
        ("ur", "2 Word(Name(\"ur\"))"),
    ];
    for (text, want) in cases {
        let said = front_said(rt.alloc(), text)?;
        assert_eq!(rt; said.as_str(), want);
    }
    Ok(())
}

#[test]
fn reads_texts(rt: HostRuntime) -> Result<(), Fail> {
    let cases: [(&str, &str); 12] = [
        ("rb'x'", "5 Word(Bytes)"),
        ("Rb'''x'y'''z", "11 Word(Bytes)"),
        ("BR\"\"\"\"\"\"", "8 Word(Bytes)"),
        ("f'a'", "4 Word(Formatted)"),
        ("u'a\\n'", "6 Word(Text(Items { items: [97, 10] }))"),
        (
            "'it\\'s'",
            "7 Word(Text(Items { items: [105, 116, 39, 115] }))",
        ),
        ("''", "2 Word(Text(Items { items: [] }))"),
        (
            "'''a'b\n'''",
            "10 Word(Text(Items { items: [97, 39, 98, 10] }))",
        ),
        ("r'\\''", "5 Word(Text(Items { items: [92, 39] }))"),
        (
            "'\\x41\\101\\0\\q\\\"'",
            "16 Word(Text(Items { items: [65, 65, 0, 92, 113, 34] }))",
        ),
        ("'a\\\nb'", "6 Word(Text(Items { items: [97, 98] }))"),
        (
            "'''a\r\nb'''",
            "10 Word(Text(Items { items: [97, 10, 98] }))",
        ),
    ];
    for (text, want) in cases {
        let said = front_said(rt.alloc(), text)?;
        assert_eq!(rt; said.as_str(), want);
    }
    Ok(())
}

#[test]
fn reads_numbers(rt: HostRuntime) -> Result<(), Fail> {
    let cases: [(&str, &str); 20] = [
        ("0", "1 Word(Number(0))"),
        ("00", "2 Word(Number(0))"),
        ("0_0", "3 Word(Number(0))"),
        ("1_000+", "5 Word(Number(1000))"),
        ("0x1F)", "4 Word(Number(31))"),
        ("0o17", "4 Word(Number(15))"),
        ("0b101", "5 Word(Number(5))"),
        ("12.5", "4 Word(Float)"),
        ("1.", "2 Word(Float)"),
        ("1.e5", "4 Word(Float)"),
        ("1e-5", "4 Word(Float)"),
        ("1E+5 ", "4 Word(Float)"),
        ("1e5j", "4 Word(Imaginary)"),
        ("00012.5", "7 Word(Float)"),
        ("0777j", "5 Word(Imaginary)"),
        (".5", "2 Word(Float)"),
        ("0e0", "3 Word(Float)"),
        ("1_0.0_1", "7 Word(Float)"),
        ("2147483647", "10 Word(Number(2147483647))"),
        ("1.5J", "4 Word(Imaginary)"),
    ];
    for (text, want) in cases {
        let said = front_said(rt.alloc(), text)?;
        assert_eq!(rt; said.as_str(), want);
    }
    Ok(())
}

#[test]
fn reads_operators(rt: HostRuntime) -> Result<(), Fail> {
    let cases: [(&str, &str); 12] = [
        ("**=", "3 Word(Operator(DoubleStarEqual))"),
        ("**", "2 Word(Operator(DoubleStar))"),
        ("*", "1 Word(Operator(Star))"),
        ("//=", "3 Word(Operator(DoubleSlashEqual))"),
        ("...", "3 Word(Operator(Ellipsis))"),
        ("..", "1 Word(Operator(Dot))"),
        ("->", "2 Word(Operator(Arrow))"),
        ("-=", "2 Word(Operator(MinusEqual))"),
        (":=", "2 Word(Operator(ColonEqual))"),
        ("!=", "2 Word(Operator(NotEqual))"),
        ("@=", "2 Word(Operator(AtEqual))"),
        ("@", "1 Word(Operator(At))"),
    ];
    for (text, want) in cases {
        let said = front_said(rt.alloc(), text)?;
        assert_eq!(rt; said.as_str(), want);
    }
    Ok(())
}

#[test]
fn reads_all_else(rt: HostRuntime) -> Result<(), Fail> {
    let cases: [(&str, &str); 22] = [
        ("\n", "1 LineEnd"),
        ("\r\nx", "2 LineEnd"),
        ("\rx", "1 Broken(BadCharacter, 0)"),
        (" x", "1 Blank(' ')"),
        ("\tx", "1 Blank('\\t')"),
        ("# x\ny", "3 Nothing"),
        ("# \u{1}", "1 Broken(BadCharacter, 2)"),
        ("\\\nx", "2 Nothing"),
        ("\\\r\nx", "3 Nothing"),
        ("\\x", "1 Broken(BadCharacter, 0)"),
        ("$", "1 Broken(BadCharacter, 0)"),
        ("'ab", "1 Broken(UnclosedText, 0)"),
        ("br'ab\n'", "1 Broken(UnclosedText, 2)"),
        ("'''ab''", "1 Broken(UnclosedText, 0)"),
        ("'\\N{DASH}'", "1 Broken(BadEscape, 1)"),
        ("'a\\x4'", "1 Broken(BadEscape, 2)"),
        ("'\\377'", "1 Broken(NonAsciiText, 1)"),
        ("2147483648", "1 Broken(WideNumber, 0)"),
        ("12a", "1 Broken(BadCharacter, 2)"),
        ("07", "1 Broken(BadCharacter, 1)"),
        ("0xg", "1 Broken(BadCharacter, 1)"),
        ("1e", "1 Broken(BadCharacter, 1)"),
    ];
    for (text, want) in cases {
        let said = front_said(rt.alloc(), text)?;
        assert_eq!(rt; said.as_str(), want);
    }
    Ok(())
}
