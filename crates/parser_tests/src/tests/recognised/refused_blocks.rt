//! Compound statements, definitions, classes and imports that are no module, each with the first token that fits nowhere.

use super::differences;
use std::test::Fail;

// Branches and loops.
const BRANCHES: [(&str, &str); 32] = [
    ("if\n", "1:3 NEWLINE"),
    ("if :\n", "1:4 :"),
    ("if a\n", "1:5 NEWLINE"),
    ("if a b: c\n", "1:6 b"),
    ("if a = b: c\n", "1:6 ="),
    ("if a, b: c\n", "1:5 ,"),
    ("if a:\n", "1:6 END"),
    ("if a:\nb\n", "2:1 b"),
    ("if a: ;\n", "1:7 ;"),
    ("if a: if b: c\n", "1:7 if"),
    ("if a: while b: c\n", "1:7 while"),
    ("if a: for b in c: d\n", "1:7 for"),
    ("if a: try: b\n", "1:7 try"),
    ("if a: b; if c: d\n", "1:10 if"),
    ("if a:\n  if b:\n  c\n", "3:3 c"),
    ("if a: b\nelse\n", "2:5 NEWLINE"),
    ("if a: b\nelse c\n", "2:6 c"),
    ("if a: b\nelse if c: d\n", "2:6 if"),
    ("if a: b\nelse:\n", "2:6 END"),
    ("if a: b\nelse:\nc\n", "3:1 c"),
    ("if a: b\nelif: c\n", "2:5 :"),
    ("if a: b\nelif c\n", "2:7 NEWLINE"),
    ("if a: b\nelif c:\n", "2:8 END"),
    ("if a: b\nelse: c\nelse: d\n", "3:1 else"),
    ("if a: b\nelse: c\nelif d: e\n", "3:1 elif"),
    ("if a: b\n  else: c\n", "2:3 INDENT"),
    ("if a:\n  b\n  else: c\n", "3:3 else"),
    ("if a: b\nc\nelse: d\n", "3:1 else"),
    ("if a: b\nelif c: d\ne\nelif f: g\n", "4:1 elif"),
    ("else: a\n", "1:1 else"),
    ("elif a: b\n", "1:1 elif"),
    ("if a:\n  if b: c\n  else: d\n  else: e\n", "4:3 else"),
];

#[test]
fn branches_are_refused(rt: HostRuntime) -> Result<(), Fail> {
    assert_eq!(rt; differences(rt.alloc(), &BRANCHES)?.as_str(), "");
    Ok(())
}

// Loops, and the names that `for` binds.
const LOOPS: [(&str, &str); 33] = [
    ("while\n", "1:6 NEWLINE"),
    ("while : a\n", "1:7 :"),
    ("while a\n", "1:8 NEWLINE"),
    ("while a, b: c\n", "1:8 ,"),
    ("while a:\n", "1:9 END"),
    ("while a:\nb\n", "2:1 b"),
    ("while a: b\nelif c: d\n", "2:1 elif"),
    ("for\n", "1:4 NEWLINE"),
    ("for in a: b\n", "1:5 in"),
    ("for 1 in a: b\n", "1:5 1"),
    ("for () in a: b\n", "1:6 )"),
    ("for (a in b): c\n", "1:8 in"),
    ("for (a b) in c: d\n", "1:8 b"),
    ("for (1) in a: b\n", "1:6 1"),
    ("for (a,, b) in c: d\n", "1:8 ,"),
    ("for a\n", "1:6 NEWLINE"),
    ("for a: b\n", "1:6 :"),
    ("for a = b: c\n", "1:7 ="),
    ("for a b in c: d\n", "1:7 b"),
    ("for a.b in c: d\n", "1:6 ."),
    ("for a[0] in b: c\n", "1:6 ["),
    ("for a, 1 in b: c\n", "1:8 1"),
    ("for a,, b in c: d\n", "1:7 ,"),
    ("for a, b c in d: e\n", "1:10 c"),
    ("for a not in b: c\n", "1:7 not"),
    ("for a in\n", "1:9 NEWLINE"),
    ("for a in : b\n", "1:10 :"),
    ("for a in b\n", "1:11 NEWLINE"),
    ("for a in b c: d\n", "1:12 c"),
    ("for a in b,, c: d\n", "1:12 ,"),
    ("for a in b if c: d\n", "1:16 :"),
    ("for a in b:\n", "1:12 END"),
    ("for a in b:\nc\n", "2:1 c"),
];

#[test]
fn loops_are_refused(rt: HostRuntime) -> Result<(), Fail> {
    assert_eq!(rt; differences(rt.alloc(), &LOOPS)?.as_str(), "");
    Ok(())
}

// `try` and its handlers: one without a class is the last.
const HANDLERS: [(&str, &str); 34] = [
    ("try\n", "1:4 NEWLINE"),
    ("try a\n", "1:5 a"),
    ("try:\n", "1:5 END"),
    ("try:\na\n", "2:1 a"),
    ("try: a\n", "1:7 END"),
    ("try:\n  a\n", "2:4 END"),
    ("try: a\nb\n", "2:1 b"),
    ("try:\n  a\nb\n", "3:1 b"),
    ("try: a\nelse: b\n", "2:1 else"),
    ("try: try: a\n", "1:6 try"),
    ("try: a\nexcept\n", "2:7 NEWLINE"),
    ("try: a\nexcept:\n", "2:8 END"),
    ("try: a\nexcept:\nb\n", "3:1 b"),
    ("try: a\nexcept E\n", "2:9 NEWLINE"),
    ("try: a\nexcept E F: b\n", "2:10 F"),
    ("try: a\nexcept E, F: b\n", "2:9 ,"),
    ("try: a\nexcept E(): b\n", "2:9 ("),
    ("try: a\nexcept E.F.G: b\n", "2:11 ."),
    ("try: a\nexcept E. : b\n", "2:11 :"),
    ("try: a\nexcept 1: b\n", "2:8 1"),
    ("try: a\nexcept as e: b\n", "2:8 as"),
    ("try: a\nexcept E as\n", "2:12 NEWLINE"),
    ("try: a\nexcept E as 1: b\n", "2:13 1"),
    ("try: a\nexcept E as e.f: b\n", "2:14 ."),
    ("try: a\nexcept E as e, f: b\n", "2:14 ,"),
    ("try: a\nexcept: b\nexcept E: c\n", "3:1 except"),
    ("try: a\nexcept: b\nexcept: c\n", "3:1 except"),
    (
        "try: a\nexcept E: b\nexcept: c\nexcept F: d\n",
        "4:1 except",
    ),
    ("try:\n  a\nexcept E:\n", "3:10 END"),
    ("try: a\n  except: b\n", "2:3 INDENT"),
    ("try: a\nexcept E: b\n  c\n", "3:3 INDENT"),
    ("try: a\nexcept E: b\nelif c: d\n", "3:1 elif"),
    ("try:\n  a\n  except: b\n", "3:3 except"),
    ("except: a\n", "1:1 except"),
];

#[test]
fn handlers_are_refused(rt: HostRuntime) -> Result<(), Fail> {
    assert_eq!(rt; differences(rt.alloc(), &HANDLERS)?.as_str(), "");
    Ok(())
}

// Definitions and their parameters.
const DEFINITIONS: [(&str, &str); 28] = [
    ("def\n", "1:4 NEWLINE"),
    ("def 1(): a\n", "1:5 1"),
    ("def pass(): a\n", "1:5 pass"),
    ("def (): a\n", "1:5 ("),
    ("def f\n", "1:6 NEWLINE"),
    ("def f: a\n", "1:6 :"),
    ("def f.g(): a\n", "1:6 ."),
    ("def f()\n", "1:8 NEWLINE"),
    ("def f() a\n", "1:9 a"),
    ("def f() = a\n", "1:9 ="),
    ("def f()(): a\n", "1:8 ("),
    ("def f(1): a\n", "1:7 1"),
    ("def f('a'): b\n", "1:7 'a'"),
    ("def f(,): a\n", "1:7 ,"),
    ("def f((a)): b\n", "1:7 ("),
    ("def f(a b): c\n", "1:9 b"),
    ("def f(a,, b): c\n", "1:9 ,"),
    ("def f(a.b): c\n", "1:8 ."),
    ("def f(a=): b\n", "1:9 )"),
    ("def f(a=,): b\n", "1:9 ,"),
    ("def f(a=1 b): c\n", "1:11 b"),
    ("def f(a=1=2): b\n", "1:10 ="),
    ("def f(a += 1): b\n", "1:9 +="),
    ("def f(not a): b\n", "1:7 not"),
    ("def f():\n", "1:9 END"),
    ("def f():\na\n", "2:1 a"),
    ("def f(): if a: b\n", "1:10 if"),
    ("def f():\n  return\n\n  a b\n", "4:5 b"),
];

#[test]
fn definitions_are_refused(rt: HostRuntime) -> Result<(), Fail> {
    assert_eq!(rt; differences(rt.alloc(), &DEFINITIONS)?.as_str(), "");
    Ok(())
}

// Classes: `pass`, texts and definitions, and one base at most.
const CLASSES: [(&str, &str); 30] = [
    ("class\n", "1:6 NEWLINE"),
    ("class 1: pass\n", "1:7 1"),
    ("class C\n", "1:8 NEWLINE"),
    ("class C pass\n", "1:9 pass"),
    ("class C.D: pass\n", "1:8 ."),
    ("class C = 1\n", "1:9 ="),
    ("class C(1): pass\n", "1:9 1"),
    ("class C(A B): pass\n", "1:11 B"),
    ("class C(A.): pass\n", "1:11 )"),
    ("class C(A.B.C): pass\n", "1:12 ."),
    ("class C(A()): pass\n", "1:10 ("),
    ("class C(()): pass\n", "1:9 ("),
    ("class C(B) pass\n", "1:12 pass"),
    ("class C()(): pass\n", "1:10 ("),
    ("class C:\n", "1:9 END"),
    ("class C():\n", "1:11 END"),
    ("class C:\npass\n", "2:1 pass"),
    ("class C: 1\n", "1:10 1"),
    ("class C: return\n", "1:10 return"),
    ("class C: def f(): pass\n", "1:10 def"),
    ("class C: pass; pass\n", "1:14 ;"),
    ("class C: pass x\n", "1:15 x"),
    ("class C: 'a', 'b'\n", "1:13 ,"),
    ("class C: pass\n  pass\n", "2:3 INDENT"),
    ("class C:\n  if a: b\n", "2:3 if"),
    ("class C:\n  pass x\n", "2:8 x"),
    ("class C:\n  pass;\n", "2:7 ;"),
    ("class C:\n  'a' + 'b'\n", "2:7 +"),
    ("class C:\n  pass\n    pass\n", "3:5 INDENT"),
    ("class C:\n  def f(self): pass\n  return\n", "3:3 return"),
];

#[test]
fn classes_are_refused(rt: HostRuntime) -> Result<(), Fail> {
    assert_eq!(rt; differences(rt.alloc(), &CLASSES)?.as_str(), "");
    Ok(())
}

// Imports stand alone on their lines.
const IMPORTS: [(&str, &str); 29] = [
    ("import\n", "1:7 NEWLINE"),
    ("import 1\n", "1:8 1"),
    ("import 'a'\n", "1:8 'a'"),
    ("import (a)\n", "1:8 ("),
    ("import a b\n", "1:10 b"),
    ("import a = 1\n", "1:10 ="),
    ("import a; b\n", "1:9 ;"),
    ("import a,\n", "1:10 NEWLINE"),
    ("import a, , b\n", "1:11 ,"),
    ("import a as\n", "1:12 NEWLINE"),
    ("import a as 1\n", "1:13 1"),
    ("import a as b.c\n", "1:14 ."),
    ("import a as b as c\n", "1:15 as"),
    ("from\n", "1:5 NEWLINE"),
    ("from 1 import a\n", "1:6 1"),
    ("from import a\n", "1:6 import"),
    ("from a\n", "1:7 NEWLINE"),
    ("from a b\n", "1:8 b"),
    ("from a as b import c\n", "1:8 as"),
    ("from a import\n", "1:14 NEWLINE"),
    ("from a import 1\n", "1:15 1"),
    ("from a import (b)\n", "1:15 ("),
    ("from a import b.c\n", "1:16 ."),
    ("from a import b c\n", "1:17 c"),
    ("from a import b; c\n", "1:16 ;"),
    ("from a import b,\n", "1:17 NEWLINE"),
    ("from a import b as\n", "1:19 NEWLINE"),
    ("from a import b as 1\n", "1:20 1"),
    ("from a import b as c d\n", "1:22 d"),
];

#[test]
fn imports_are_refused(rt: HostRuntime) -> Result<(), Fail> {
    assert_eq!(rt; differences(rt.alloc(), &IMPORTS)?.as_str(), "");
    Ok(())
}
