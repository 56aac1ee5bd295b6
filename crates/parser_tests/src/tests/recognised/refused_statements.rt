//! Lines and simple statements that are no module, each with the first token that fits nowhere.

use super::differences;
use std::test::Fail;

// Lines and blocks: what begins a line, what stands behind a statement, and where a block begins and ends.
const LINES: [(&str, &str); 30] = [
    ("= 1\n", "1:1 ="),
    (", x\n", "1:1 ,"),
    (": x\n", "1:1 :"),
    ("; x\n", "1:1 ;"),
    ("** x\n", "1:1 **"),
    ("in x\n", "1:1 in"),
    ("x y\n", "1:3 y"),
    ("x 12\n", "1:3 12"),
    ("12 x\n", "1:4 x"),
    ("'a' x\n", "1:5 x"),
    ("x 'a'\n", "1:3 'a'"),
    ("x; y z\n", "1:6 z"),
    ("x;; y\n", "1:3 ;"),
    ("x; ;\n", "1:4 ;"),
    ("x;\n;\n", "2:1 ;"),
    ("x = 1 y = 2\n", "1:7 y"),
    ("pass x\n", "1:6 x"),
    ("break 1\n", "1:7 1"),
    ("continue = 1\n", "1:10 ="),
    (" x\n", "1:2 INDENT"),
    ("x = 1\n  y = 2\n", "2:3 INDENT"),
    ("x = (1\n  + 2)\n  y\n", "3:3 INDENT"),
    ("if a:\n  b\n    c\n", "3:5 INDENT"),
    ("if a: b\n  c\n", "2:3 INDENT"),
    ("if a:\n  if b:\nc\n", "3:1 DEDENT"),
    ("def f():\n  if a:\n", "2:8 DEDENT"),
    ("class C:\n  def f(self):\n", "2:15 DEDENT"),
    ("if a:\n  try:\n    b\n", "3:6 DEDENT"),
    ("if a:\n  try:\n    b\nc\n", "4:1 DEDENT"),
    ("x =\n\n# y\nz\n", "1:4 NEWLINE"),
];

#[test]
fn lines_are_refused(rt: HostRuntime) -> Result<(), Fail> {
    assert_eq!(rt; differences(rt.alloc(), &LINES)?.as_str(), "");
    Ok(())
}

// Where a token stands: lines that are joined or end otherwise, tabs, characters beyond ASCII, and texts that end with no line end.
const PLACES: [(&str, &str); 24] = [
    ("x = (\n  1\n  2\n)\n", "3:3 2"),
    ("x = [\n  1,\n  ,\n]\n", "3:3 ,"),
    ("f(a,\n  b=1,\n  c)\n", "3:4 )"),
    ("a + \\\n  * b\n", "2:3 *"),
    ("x = '''a\nb''' c\n", "2:6 c"),
    ("x = 'a' \"b\" 1\n", "1:13 1"),
    ("x = (1, # one\n  2 3)\n", "2:5 3"),
    ("if a:\n\tb c\n", "2:4 c"),
    ("x y\r\n", "1:3 y"),
    ("x =\r\ny\n", "1:4 NEWLINE"),
    ("x\n\n\r\n  # z\n  y\n", "5:3 INDENT"),
    ("\u{e9} \u{e8}\n", "1:3 \u{e8}"),
    ("x = '\\x41' \u{e9}\n", "1:12 \u{e9}"),
    ("\u{feff}x y\n", "1:3 y"),
    ("x =", "1:4 NEWLINE"),
    ("x = 1 +  ", "1:10 NEWLINE"),
    ("if a:", "1:6 END"),
    ("if a:\n\n# b\n", "1:6 END"),
    ("if a:\n  b +", "2:6 NEWLINE"),
    ("if a:\n  if b:\n    c d", "3:7 d"),
    ("x 'it\\'s'\n", "1:3 'it's'"),
    ("x 'a\\n\\\\'\n", "1:3 'a\n\\'"),
    ("x 0x1F\n", "1:3 31"),
    ("x 1_000\n", "1:3 1000"),
];

#[test]
fn places_are_told(rt: HostRuntime) -> Result<(), Fail> {
    assert_eq!(rt; differences(rt.alloc(), &PLACES)?.as_str(), "");
    Ok(())
}

// What stands before `=` and before `+=`: targets alone.
const TARGETS: [(&str, &str); 30] = [
    ("x + 1 = 2\n", "1:7 ="),
    ("f(x) = 1\n", "1:6 ="),
    ("x.f() = 1\n", "1:7 ="),
    ("1 = x\n", "1:3 ="),
    ("'a' = x\n", "1:5 ="),
    ("None = x\n", "1:6 ="),
    ("True = 1\n", "1:6 ="),
    ("() = x\n", "1:4 ="),
    ("[] = x\n", "1:4 ="),
    ("{} = x\n", "1:4 ="),
    ("{a} = x\n", "1:5 ="),
    ("(a + b) = c\n", "1:9 ="),
    ("[a, 1] = b\n", "1:8 ="),
    ("[a for b in c] = d\n", "1:16 ="),
    ("a, b + c = d\n", "1:10 ="),
    ("a, 1 = b\n", "1:6 ="),
    ("a < b = c\n", "1:7 ="),
    ("a == b = c\n", "1:8 ="),
    ("not a = b\n", "1:7 ="),
    ("a and b = c\n", "1:9 ="),
    ("a or b = c\n", "1:8 ="),
    ("-a = b\n", "1:4 ="),
    ("a ** b = c\n", "1:8 ="),
    ("a if b else c = d\n", "1:15 ="),
    ("a = b + c = d\n", "1:11 ="),
    ("a = 1 = b\n", "1:7 ="),
    ("a = b = c() = d\n", "1:13 ="),
    ("a = = b\n", "1:5 ="),
    ("a =\n", "1:4 NEWLINE"),
    ("a = b =\n", "1:8 NEWLINE"),
];

#[test]
fn what_is_no_target_is_refused(rt: HostRuntime) -> Result<(), Fail> {
    assert_eq!(rt; differences(rt.alloc(), &TARGETS)?.as_str(), "");
    Ok(())
}

// Assignments with an operator, and other words in the place of a value.
const AUGMENTED: [(&str, &str); 26] = [
    ("f(x) += 1\n", "1:6 +="),
    ("1 -= x\n", "1:3 -="),
    ("(a) *= 1\n", "1:5 *="),
    ("[a] //= 1\n", "1:5 //="),
    ("(a, b) %= c\n", "1:8 %="),
    ("a, b **= c\n", "1:6 **="),
    ("a, <<= b\n", "1:4 <<="),
    ("a + b >>= c\n", "1:7 >>="),
    ("-a &= b\n", "1:4 &="),
    ("a < b |= c\n", "1:7 |="),
    ("not a ^= b\n", "1:7 ^="),
    ("a = b += c\n", "1:7 +="),
    ("a += b = c\n", "1:8 ="),
    ("a += b += c\n", "1:8 +="),
    ("a +=\n", "1:5 NEWLINE"),
    ("a += pass\n", "1:6 pass"),
    ("a += = b\n", "1:6 ="),
    ("x = pass\n", "1:5 pass"),
    ("x = return y\n", "1:5 return"),
    ("x = del y[z]\n", "1:5 del"),
    ("x = if\n", "1:5 if"),
    ("x = else\n", "1:5 else"),
    ("x = class\n", "1:5 class"),
    ("x = in y\n", "1:5 in"),
    ("x = 1,, 2\n", "1:7 ,"),
    ("x, , y\n", "1:4 ,"),
];

#[test]
fn augmented_assignments_are_refused(rt: HostRuntime) -> Result<(), Fail> {
    assert_eq!(rt; differences(rt.alloc(), &AUGMENTED)?.as_str(), "");
    Ok(())
}

// Other small statements.
const SMALL: [(&str, &str); 24] = [
    ("return = 1\n", "1:8 ="),
    ("return a b\n", "1:10 b"),
    ("return a,, b\n", "1:10 ,"),
    ("return pass\n", "1:8 pass"),
    ("raise a, b\n", "1:8 ,"),
    ("raise a b\n", "1:9 b"),
    ("raise = a\n", "1:7 ="),
    ("yield a b\n", "1:9 b"),
    ("yield = a\n", "1:7 ="),
    ("yield a = b\n", "1:9 ="),
    ("global\n", "1:7 NEWLINE"),
    ("global a,\n", "1:10 NEWLINE"),
    ("global a b\n", "1:10 b"),
    ("global a.b\n", "1:9 ."),
    ("global 1\n", "1:8 1"),
    ("global a = 1\n", "1:10 ="),
    ("global a, , b\n", "1:11 ,"),
    ("global (a)\n", "1:8 ("),
    ("assert\n", "1:7 NEWLINE"),
    ("assert a,\n", "1:10 NEWLINE"),
    ("assert a, b, c\n", "1:12 ,"),
    ("assert = 1\n", "1:8 ="),
    ("assert a b\n", "1:10 b"),
    ("assert a = b\n", "1:10 ="),
];

#[test]
fn small_statements_are_refused(rt: HostRuntime) -> Result<(), Fail> {
    assert_eq!(rt; differences(rt.alloc(), &SMALL)?.as_str(), "");
    Ok(())
}

// What `del` deletes: a member of what stands before the last bracket.
const DELETED: [(&str, &str); 24] = [
    ("del\n", "1:4 NEWLINE"),
    ("del 1\n", "1:6 NEWLINE"),
    ("del 'a'\n", "1:8 NEWLINE"),
    ("del a.b\n", "1:8 NEWLINE"),
    ("del a(b)\n", "1:9 NEWLINE"),
    ("del a.b(c)\n", "1:11 NEWLINE"),
    ("del a[b].c\n", "1:11 NEWLINE"),
    ("del a[b]()\n", "1:11 NEWLINE"),
    ("del (a + b)\n", "1:12 NEWLINE"),
    ("del a[b], c[d]\n", "1:9 ,"),
    ("del a[b] = c\n", "1:10 ="),
    ("del a[b] + c\n", "1:10 +"),
    ("del a[b] c\n", "1:10 c"),
    ("del -a[b]\n", "1:5 -"),
    ("del not a[b]\n", "1:5 not"),
    ("del a[]\n", "1:7 ]"),
    ("del a[b c]\n", "1:9 c"),
    ("del a[b, c]\n", "1:8 ,"),
    ("del a.(b)\n", "1:7 ("),
    ("del a.b.\n", "1:9 NEWLINE"),
    ("del a(b c)[d]\n", "1:9 c"),
    ("del a.b(c d)[e]\n", "1:11 d"),
    ("del a[b:c d][e]\n", "1:11 d"),
    ("del a[b:c, d][e]\n", "1:10 ,"),
];

#[test]
fn deletions_are_refused(rt: HostRuntime) -> Result<(), Fail> {
    assert_eq!(rt; differences(rt.alloc(), &DELETED)?.as_str(), "");
    Ok(())
}
