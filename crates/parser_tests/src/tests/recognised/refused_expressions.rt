//! Expressions that are no module, each with the first token that fits nowhere.

use super::differences;
use std::test::Fail;

// Operators between values.
const OPERATORS: [(&str, &str); 34] = [
    ("x +\n", "1:4 NEWLINE"),
    ("a + * b\n", "1:5 *"),
    ("a // // b\n", "1:6 //"),
    ("a % % b\n", "1:5 %"),
    ("a ** ** b\n", "1:6 **"),
    ("a * + *\n", "1:7 *"),
    ("a << >> b\n", "1:6 >>"),
    ("a &\n", "1:4 NEWLINE"),
    ("a ^ ^ b\n", "1:5 ^"),
    ("a | | b\n", "1:5 |"),
    ("a ~ b\n", "1:3 ~"),
    ("~\n", "1:2 NEWLINE"),
    ("+ = 1\n", "1:3 ="),
    ("- not a\n", "1:3 not"),
    ("a + not b\n", "1:5 not"),
    ("a < < b\n", "1:5 <"),
    ("a < > b\n", "1:5 >"),
    ("a == not b\n", "1:6 not"),
    ("a not b\n", "1:7 b"),
    ("a not\n", "1:6 NEWLINE"),
    ("a not is b\n", "1:7 is"),
    ("a not not in b\n", "1:7 not"),
    ("a in not b\n", "1:6 not"),
    ("a in in b\n", "1:6 in"),
    ("a is in b\n", "1:6 in"),
    ("a is not not b\n", "1:10 not"),
    ("a is not in b\n", "1:10 in"),
    ("a < b not c\n", "1:11 c"),
    ("a and\n", "1:6 NEWLINE"),
    ("a and or b\n", "1:7 or"),
    ("a or or b\n", "1:6 or"),
    ("a or and b\n", "1:6 and"),
    ("not\n", "1:4 NEWLINE"),
    ("not and a\n", "1:5 and"),
];

#[test]
fn operators_are_refused(rt: HostRuntime) -> Result<(), Fail> {
    assert_eq!(rt; differences(rt.alloc(), &OPERATORS)?.as_str(), "");
    Ok(())
}

// Conditional expressions, attributes and calls.
const CONDITIONALS: [(&str, &str); 29] = [
    ("a if\n", "1:5 NEWLINE"),
    ("a if b\n", "1:7 NEWLINE"),
    ("a if b: c\n", "1:7 :"),
    ("a if else b\n", "1:6 else"),
    ("a if b if c else d\n", "1:8 if"),
    ("a if b or\n", "1:10 NEWLINE"),
    ("a if b else\n", "1:12 NEWLINE"),
    ("a if b else c else d\n", "1:15 else"),
    ("a else b\n", "1:3 else"),
    ("a.\n", "1:3 NEWLINE"),
    ("a. 1\n", "1:4 1"),
    ("a..b\n", "1:3 ."),
    ("a.b.\n", "1:5 NEWLINE"),
    ("a.b c\n", "1:5 c"),
    ("a.if\n", "1:3 if"),
    ("a.'b'\n", "1:3 'b'"),
    ("a.(b)\n", "1:3 ("),
    ("f() g\n", "1:5 g"),
    ("f(,)\n", "1:3 ,"),
    ("f(a b)\n", "1:5 b"),
    ("f(a,, b)\n", "1:5 ,"),
    ("f(a; b)\n", "1:4 ;"),
    ("f(a: b)\n", "1:4 :"),
    ("f(a if b)\n", "1:9 )"),
    ("f(pass)\n", "1:3 pass"),
    ("a.f(b c)\n", "1:7 c"),
    ("a.f(,)\n", "1:5 ,"),
    ("a.f(b,, c)\n", "1:7 ,"),
    ("a.f(b: c)\n", "1:6 :"),
];

#[test]
fn conditionals_and_calls_are_refused(rt: HostRuntime) -> Result<(), Fail> {
    assert_eq!(rt; differences(rt.alloc(), &CONDITIONALS)?.as_str(), "");
    Ok(())
}

// Keyword arguments come last, and are names.
const KEYWORDS: [(&str, &str); 25] = [
    ("f(=1)\n", "1:3 ="),
    ("f(a=)\n", "1:5 )"),
    ("f(a=, b)\n", "1:5 ,"),
    ("f(a=1 b=2)\n", "1:7 b"),
    ("f(a=1, b)\n", "1:9 )"),
    ("f(a=1, b, c=2)\n", "1:9 ,"),
    ("f(a=1, b.c)\n", "1:9 ."),
    ("f(a=1, b())\n", "1:9 ("),
    ("f(a=1, 2)\n", "1:8 2"),
    ("f(a=1, 'b')\n", "1:8 'b'"),
    ("f(a=1, (b)=2)\n", "1:8 ("),
    ("f(a=1,, b=2)\n", "1:7 ,"),
    ("f(a, b=1, c)\n", "1:12 )"),
    ("f(1=2)\n", "1:4 ="),
    ("f('a'=1)\n", "1:6 ="),
    ("f(True=1)\n", "1:7 ="),
    ("f(a.b=1)\n", "1:6 ="),
    ("f(a[b]=1)\n", "1:7 ="),
    ("f(a + b=1)\n", "1:8 ="),
    ("f(a, b + c=1)\n", "1:11 ="),
    ("f(a == b = c)\n", "1:10 ="),
    ("f((a)=1)\n", "1:6 ="),
    ("f(a=b=c)\n", "1:6 ="),
    ("f(a += 1)\n", "1:5 +="),
    ("f(not a=1)\n", "1:8 ="),
];

#[test]
fn keyword_arguments_are_refused(rt: HostRuntime) -> Result<(), Fail> {
    assert_eq!(rt; differences(rt.alloc(), &KEYWORDS)?.as_str(), "");
    Ok(())
}

// Subscripts, parentheses and lists.
const BRACKETS: [(&str, &str); 30] = [
    ("a[]\n", "1:3 ]"),
    ("a[,]\n", "1:3 ,"),
    ("a[b c]\n", "1:5 c"),
    ("a[b,]\n", "1:4 ,"),
    ("a[b, c]\n", "1:4 ,"),
    ("a[b=c]\n", "1:4 ="),
    ("a[b:c d]\n", "1:7 d"),
    ("a[b:c, d]\n", "1:6 ,"),
    ("a[b:,]\n", "1:5 ,"),
    ("a[:b=c]\n", "1:5 ="),
    ("a[pass]\n", "1:3 pass"),
    ("a[b]c\n", "1:5 c"),
    ("(,)\n", "1:2 ,"),
    ("(a b)\n", "1:4 b"),
    ("(a,, b)\n", "1:4 ,"),
    ("(a = b)\n", "1:4 ="),
    ("(a; b)\n", "1:3 ;"),
    ("(a: b)\n", "1:3 :"),
    ("(pass)\n", "1:2 pass"),
    ("(not)\n", "1:5 )"),
    ("(a if b)\n", "1:8 )"),
    ("(a)b\n", "1:4 b"),
    ("[,]\n", "1:2 ,"),
    ("[a b]\n", "1:4 b"),
    ("[a,, b]\n", "1:4 ,"),
    ("[a = b]\n", "1:4 ="),
    ("[a: b]\n", "1:3 :"),
    ("[a, b c]\n", "1:7 c"),
    ("(a, b = c)\n", "1:7 ="),
    ("[a, b; c]\n", "1:6 ;"),
];

#[test]
fn brackets_are_refused(rt: HostRuntime) -> Result<(), Fail> {
    assert_eq!(rt; differences(rt.alloc(), &BRACKETS)?.as_str(), "");
    Ok(())
}

// Comprehensions, dictionaries and sets.
const DISPLAYS: [(&str, &str); 31] = [
    ("[for a in b]\n", "1:2 for"),
    ("[a for]\n", "1:7 ]"),
    ("[a for 1 in b]\n", "1:8 1"),
    ("[a for b]\n", "1:9 ]"),
    ("[a for b.c in d]\n", "1:9 ."),
    ("[a for b in]\n", "1:12 ]"),
    ("[a for b in c d]\n", "1:15 d"),
    ("[a for b in c, d]\n", "1:14 ,"),
    ("[a for b in c else d]\n", "1:15 else"),
    ("[a for b in c if]\n", "1:17 ]"),
    ("[a for b in c if d else e]\n", "1:20 else"),
    ("[a for b in c if d, e]\n", "1:19 ,"),
    ("[a for b in c for]\n", "1:18 ]"),
    ("[a, b for c in d]\n", "1:7 for"),
    ("[a if b for c in d]\n", "1:9 for"),
    ("{,}\n", "1:2 ,"),
    ("{a b}\n", "1:4 b"),
    ("{a,, b}\n", "1:4 ,"),
    ("{a = b}\n", "1:4 ="),
    ("{a, b: c}\n", "1:6 :"),
    ("{a, b = c}\n", "1:7 ="),
    ("{: a}\n", "1:2 :"),
    ("{a: }\n", "1:5 }"),
    ("{a:: b}\n", "1:4 :"),
    ("{a: b c}\n", "1:7 c"),
    ("{a: b: c}\n", "1:6 :"),
    ("{a: b = c}\n", "1:7 ="),
    ("{a: b, , c: d}\n", "1:8 ,"),
    ("{a: b, c}\n", "1:9 }"),
    ("{a: b, c, d: e}\n", "1:9 ,"),
    ("{a: b, c: }\n", "1:11 }"),
];

#[test]
fn displays_are_refused(rt: HostRuntime) -> Result<(), Fail> {
    assert_eq!(rt; differences(rt.alloc(), &DISPLAYS)?.as_str(), "");
    Ok(())
}
