//! Texts that are modules, each with the number of its statements. Together they use each row of the grammar's table.

use py_lexer::lex;
use py_parser::parse;
use shed_base::{Names, Width};
use std::alloc::Global;
use std::test::Fail;

// How many statements a text has, if it is a module.
fn statements(alloc: Global, text: &str) -> Result<Option<usize>, Fail> {
    let mut names = Names::new(alloc)?;
    let Ok(tokens) = lex(alloc, text.as_bytes(), 0, Width::W32, &mut names) else {
        return Ok(None);
    };
    match parse(alloc, tokens.as_slice(), &names) {
        Ok(module) => Ok(Some(module.body.len())),
        Err(_) => Ok(None),
    }
}

// The texts that are no modules of as many statements as stand beside them.
fn differences(alloc: Global, rows: &[(&str, usize)]) -> Result<String, Fail> {
    let mut differences = String::new(alloc);
    for (text, want) in rows {
        let count = statements(alloc, text)?;
        if count != Some(*want) {
            let difference = format!(in alloc; "{text:?} gives {count:?}; ")?;
            differences.push_str(difference.as_str())?;
        }
    }
    Ok(differences)
}

// Lines, imports and classes.
const LINES: [(&str, usize); 28] = [
    ("", 0),
    ("\n\n# nothing\n  # more\n", 0),
    ("x", 1),
    ("x\n", 1),
    ("\u{feff}x\r\ny\r\n", 2),
    ("x = 1; y = 2\n", 2),
    ("x = 1; y = 2;\n", 2),
    ("x;\ny;\n", 2),
    ("pass; break; continue; return\n", 4),
    ("x = (1 +\n  2)\ny\n", 2),
    ("x = 1 + \\\n  2\n", 1),
    ("import a\n", 1),
    ("import a as b\n", 1),
    ("import a, b\n", 1),
    ("import a as b, c as \u{e9}, d\n", 1),
    ("from a import b\n", 1),
    ("from a import b as c\n", 1),
    ("from a import b, \u{e9}, c\n", 1),
    ("from a import b as c, d, \u{e9} as f\n", 1),
    ("class C: pass\n", 1),
    ("class C(): pass\n", 1),
    ("class C(B): 'text'\n", 1),
    ("class \u{c9}(m.B): pass\nx\n", 2),
    ("class C:\n  pass\n", 1),
    ("class C:\n  'one' \"two\"\n  pass\n", 1),
    ("class C(B):\n  def f(self): pass\n", 1),
    (
        "class C:\n  'text'\n  def f(self):\n    return 1\n\n  def g(self): return 2\n  pass\nx\n",
        2,
    ),
    ("class C:\n  pass\nclass D(C): pass\n", 2),
];

#[test]
fn lines_are_accepted(rt: HostRuntime) -> Result<(), Fail> {
    assert_eq!(rt; differences(rt.alloc(), &LINES)?.as_str(), "");
    Ok(())
}

// Definitions, and blocks in one another.
const DEFINITIONS: [(&str, usize); 28] = [
    ("def f(): pass\n", 1),
    ("def f(): a; b; c\n", 1),
    ("def f(): a; b;\ng\n", 2),
    ("def f(a): return a\n", 1),
    ("def f(a,): return a\n", 1),
    ("def f(a, b): return a, b\n", 1),
    ("def f(a, b,): return a\n", 1),
    ("def f(a=1): pass\n", 1),
    ("def f(a=1,): pass\n", 1),
    ("def f(a, b=x if y else z, c=[1]): pass\n", 1),
    ("def f(a=1, b): pass\n", 1),
    ("def \u{e9}(\u{e8}): pass\n", 1),
    ("def f(a):\n  x = a\n  return x\ndef g():\n  yield 1\n", 2),
    ("def f():\n  global x, y\n  x = y = 1\n", 1),
    ("def f():\n\tif a:\n\t\tb\n\tc\nd\n", 2),
    ("if a: b\n", 1),
    ("if a:\n  b\n", 1),
    ("if a:\n  b; c;\n  d\ne\n", 2),
    ("if a: b\nelse: c\n", 1),
    ("if a: b\nelif c: d\n", 1),
    ("if a: b\nelif c: d\nelif e:\n  f\nelse:\n  g\nh\n", 2),
    ("if a:\n  if b: c\n  else: d\ne\n", 2),
    ("if a:\n  if b: c\nelse: d\n", 1),
    ("if a:\n  if b:\n    c\n  elif d: e\nelif f: g\n", 1),
    ("if a if b else c: d\n", 1),
    ("while a: b\n", 1),
    ("while a and b:\n  break\n  continue\nc\n", 2),
    ("while a:\n  if b:\n    while c:\n      d", 1),
];

#[test]
fn definitions_and_branches_are_accepted(rt: HostRuntime) -> Result<(), Fail> {
    assert_eq!(rt; differences(rt.alloc(), &DEFINITIONS)?.as_str(), "");
    Ok(())
}

// Loops over names, and handlers.
const LOOPS: [(&str, usize); 23] = [
    ("for a in b: c\n", 1),
    ("for a in b:\n  c\n  d\ne\n", 2),
    ("for a in b, c: d\n", 1),
    ("for a in b,: c\n", 1),
    ("for a in b if c else d: e\n", 1),
    ("for a, b in c: d\n", 1),
    ("for a, in b: c\n", 1),
    ("for a, b, in c: d\n", 1),
    ("for a, b, \u{e9} in d: e\n", 1),
    ("for (a) in b: c\n", 1),
    ("for (a, b) in c: d\n", 1),
    ("for (a,) in b: c\n", 1),
    ("for ((a, b)) in c: d\n", 1),
    ("for a in range(3):\n  for b in a: c\n", 1),
    ("try: a\nexcept: b\n", 1),
    ("try: a\nexcept E: b\n", 1),
    ("try: a\nexcept m.E: b\n", 1),
    ("try: a\nexcept E as e: b\n", 1),
    ("try: a\nexcept m.E as \u{e9}: b\n", 1),
    ("try: a\nexcept E: b\nexcept F as f: c\nexcept: d\ng\n", 2),
    ("try: a\nexcept E as e: b\nexcept m.F: c\n", 1),
    ("try:\n  a\n  b\nexcept E:\n  c\nexcept:\n  d\n", 1),
    (
        "try:\n  try: a\n  except: b\nexcept E:\n  try:\n    c\n  except F: d\ne\n",
        2,
    ),
];

#[test]
fn loops_and_handlers_are_accepted(rt: HostRuntime) -> Result<(), Fail> {
    assert_eq!(rt; differences(rt.alloc(), &LOOPS)?.as_str(), "");
    Ok(())
}

// Assignments: to names, to attributes and members, and to several targets.
const ASSIGNMENTS: [(&str, usize); 32] = [
    ("a = b\n", 1),
    ("a = b = c = d\n", 1),
    ("a = b, c\n", 1),
    ("a = b, = c\n", 1),
    ("a, b = c\n", 1),
    ("a, = b\n", 1),
    ("a, b, = c\n", 1),
    ("(a) = b\n", 1),
    ("(a, b) = c\n", 1),
    ("(a,) = b\n", 1),
    ("(a, b,) = c\n", 1),
    ("((a, b)) = c\n", 1),
    ("[a] = b\n", 1),
    ("[a,] = b\n", 1),
    ("[a, b] = c\n", 1),
    ("[a, b,] = c\n", 1),
    ("[(a, b)] = c\n", 1),
    ("([a, b]) = c\n", 1),
    ("[[a]] = (b) = c\n", 1),
    ("a.b = c\n", 1),
    ("a[b] = c\n", 1),
    ("a.b[c].d = e\n", 1),
    ("a(b).c = d\n", 1),
    ("a.b(c)[d] = e\n", 1),
    ("a[b:c][d] = e\n", 1),
    ("(a).b = c\n", 1),
    ("(a + b)[c] = d\n", 1),
    ("'a'.b = c\n", 1),
    ("[][a] = {}[b] = c\n", 1),
    ("None.a = 1 .b = c\n", 1),
    ("a, b.c, d[e] = f\n", 1),
    ("(a.b, [c][d]) = e\n", 1),
];

#[test]
fn assignments_are_accepted(rt: HostRuntime) -> Result<(), Fail> {
    assert_eq!(rt; differences(rt.alloc(), &ASSIGNMENTS)?.as_str(), "");
    Ok(())
}

// Assignments with an operator, and other small statements.
const SMALL: [(&str, usize); 38] = [
    ("a += 1\n", 1),
    ("a -= b, c\n", 1),
    ("a *= b\n", 1),
    ("a //= b\n", 1),
    ("a %= b\n", 1),
    ("a **= b,\n", 1),
    ("a <<= b\n", 1),
    ("a >>= b\n", 1),
    ("a.b &= c\n", 1),
    ("a[b] |= c\n", 1),
    ("a.b(c)[d] ^= e if f else g\n", 1),
    ("return a\n", 1),
    ("return a, b,\n", 1),
    ("raise a\n", 1),
    ("raise a(b) if c else d\n", 1),
    ("yield a\n", 1),
    ("yield a, b\n", 1),
    ("global a\n", 1),
    ("global a, \u{e9}, c\n", 1),
    ("assert a\n", 1),
    ("assert a, b if c else d\n", 1),
    ("del a[b]\n", 1),
    ("del a[b if c else d]\n", 1),
    ("del a.b[c]\n", 1),
    ("del a.b.c[d]\n", 1),
    ("del a(b)[c]\n", 1),
    ("del a(b, c=d)(e)[f]\n", 1),
    ("del a(b).c[d]\n", 1),
    ("del a.b(c, d)[e]\n", 1),
    ("del a[b][c]\n", 1),
    ("del a[b].c[d]\n", 1),
    ("del a[b](c)[d]\n", 1),
    ("del a[b:c][d]\n", 1),
    ("del a[b:].c[d]\n", 1),
    ("del a[:b](c)[d]\n", 1),
    ("del a[:][b]\n", 1),
    ("del (a + b)[c]\n", 1),
    ("del [a, b][c]; del {}[d]\n", 2),
];

#[test]
fn small_statements_are_accepted(rt: HostRuntime) -> Result<(), Fail> {
    assert_eq!(rt; differences(rt.alloc(), &SMALL)?.as_str(), "");
    Ok(())
}

// Operators, by their levels.
const OPERATORS: [(&str, usize); 37] = [
    ("a if b else c\n", 1),
    ("a if b else c if d else e\n", 1),
    ("(a if b else c) if d else e\n", 1),
    ("a or b if c and d else not e\n", 1),
    ("a or b\n", 1),
    ("a or b or c or d\n", 1),
    ("a and b\n", 1),
    ("a and b and c and d\n", 1),
    ("a and b or c and d\n", 1),
    ("not a\n", 1),
    ("not not a or not b\n", 1),
    ("not a == b\n", 1),
    ("a < b\n", 1),
    ("a > b >= c <= d\n", 1),
    ("a == b != c\n", 1),
    ("a in b in c\n", 1),
    ("a not in b\n", 1),
    ("a is b\n", 1),
    ("a is not b\n", 1),
    ("a not in b is not c in d not in e\n", 1),
    ("not a in b\n", 1),
    ("a | b | c\n", 1),
    ("a ^ b ^ c\n", 1),
    ("a & b & c\n", 1),
    ("a << b >> c << d\n", 1),
    ("a + b - c + d\n", 1),
    ("a * b // c % d\n", 1),
    ("-a\n", 1),
    ("+a\n", 1),
    ("~a\n", 1),
    ("- -+~a\n", 1),
    ("a ** b\n", 1),
    ("a ** b ** c\n", 1),
    ("a ** -b\n", 1),
    ("-a ** -b ** ~c\n", 1),
    ("a | b ^ c & d << e + f * -g ** h\n", 1),
    ("'%d %s' % (a, b)\n", 1),
];

#[test]
fn operators_are_accepted(rt: HostRuntime) -> Result<(), Fail> {
    assert_eq!(rt; differences(rt.alloc(), &OPERATORS)?.as_str(), "");
    Ok(())
}

// Attributes, calls and subscripts.
const CALLS: [(&str, usize); 39] = [
    ("a.b\n", 1),
    ("a.b.c\n", 1),
    ("a()\n", 1),
    ("a(b)\n", 1),
    ("a(b,)\n", 1),
    ("a(b, c)\n", 1),
    ("a(b, c,)\n", 1),
    ("a(b=c)\n", 1),
    ("a(b=c,)\n", 1),
    ("a(b=c, \u{e9}=e)\n", 1),
    ("a(b=c, d=e, f=g,)\n", 1),
    ("a(b, c=d)\n", 1),
    ("a(b, c, d=e, f=g,)\n", 1),
    ("a(b == c, d=e == f)\n", 1),
    ("a(b if c else d, e=f if g else h)\n", 1),
    ("a()()(b)\n", 1),
    ("a.b()\n", 1),
    ("a.b(c)\n", 1),
    ("a.b(c, d,)\n", 1),
    ("a.b(c)(d=e)\n", 1),
    ("a.b.c(d).e(f)\n", 1),
    ("a.b[c](d=e)\n", 1),
    ("a[b].c(d)\n", 1),
    ("(a)(b=c)\n", 1),
    ("[a](b)\n", 1),
    ("a[b]\n", 1),
    ("a[b][c]\n", 1),
    ("a[b if c else d]\n", 1),
    ("a[b:c]\n", 1),
    ("a[b:]\n", 1),
    ("a[:b]\n", 1),
    ("a[:]\n", 1),
    ("a[b if c else d:e if f else g]\n", 1),
    ("a[b:c][d:]\n", 1),
    ("a[(b, c)]\n", 1),
    ("a[b].c\n", 1),
    ("'a'.b(c)[d]\n", 1),
    ("1 .a\n", 1),
    ("None()\n", 1),
];

#[test]
fn calls_and_subscripts_are_accepted(rt: HostRuntime) -> Result<(), Fail> {
    assert_eq!(rt; differences(rt.alloc(), &CALLS)?.as_str(), "");
    Ok(())
}

// Names, numbers, texts, and what stands in brackets.
const ATOMS: [(&str, usize); 42] = [
    ("a, \u{e9}, __name__, _, print\n", 1),
    ("0, 00, 12, 0x1F, 0o17, 0b11, 1_000\n", 1),
    ("'a', \"b\", '''c''', r'\\d', u'e', ''\n", 1),
    ("'a' 'b' r\"c\"\n", 1),
    ("True, False, None\n", 1),
    ("a,\n", 1),
    ("a, b,\n", 1),
    ("()\n", 1),
    ("(a)\n", 1),
    ("((a))\n", 1),
    ("(a,)\n", 1),
    ("(a, b)\n", 1),
    ("(a, b,)\n", 1),
    ("[]\n", 1),
    ("[a]\n", 1),
    ("[a,]\n", 1),
    ("[a, b, c]\n", 1),
    ("[a, b,]\n", 1),
    ("[(), [], {}]\n", 1),
    ("[a for b in c]\n", 1),
    ("[a for b, in c]\n", 1),
    ("[a for b, c in d]\n", 1),
    ("[a for (b, c) in d]\n", 1),
    ("[a for b in c if d]\n", 1),
    ("[a for b in c if d if not e]\n", 1),
    ("[a for b in c for d in e]\n", 1),
    ("[a for b in c if d for e in f if g or h]\n", 1),
    ("[a if b else c for d in e or f]\n", 1),
    ("[[a for b in c] for d in e]\n", 1),
    ("[(a, b) for c in d]\n", 1),
    ("{}\n", 1),
    ("{a: b}\n", 1),
    ("{a: b,}\n", 1),
    ("{a: b, c: d, e: f}\n", 1),
    ("{a: b, c: d,}\n", 1),
    ("{a if b else c: d if e else f}\n", 1),
    ("{(a, b): {c: {}}}\n", 1),
    ("{a}\n", 1),
    ("{a,}\n", 1),
    ("{a, b, c}\n", 1),
    ("{a, b,}\n", 1),
    ("{a if b else c, (d, e)}\n", 1),
];

#[test]
fn atoms_are_accepted(rt: HostRuntime) -> Result<(), Fail> {
    assert_eq!(rt; differences(rt.alloc(), &ATOMS)?.as_str(), "");
    Ok(())
}
