//! Constructs outside the profile, at their heads.

use super::differences;
use std::test::Fail;

// What is written as a number or a text is.
const LITERALS: [(&str, &str); 26] = [
    ("x = 1.5\n", "1:5 outside float"),
    ("x = 1e3\n", "1:5 outside float"),
    ("f(a, .5)\n", "1:6 outside float"),
    ("if a:\n  while 0.5:\n", "2:9 outside float"),
    ("x = [1, 2.", "no tokens"),
    ("x 1.5\n", "1:3 OUTSIDE"),
    ("1.5 x\n", "1:1 outside float"),
    ("x = 2j\n", "1:5 outside imaginary"),
    ("x = -2.5j\n", "1:6 outside imaginary"),
    ("print(a, 1J)\n", "1:10 outside imaginary"),
    ("2j\n", "1:1 outside imaginary"),
    ("x = b'a'\n", "1:5 outside bytes"),
    ("x = b'a' b'b'\n", "1:5 outside bytes"),
    ("return rb'a'\n", "1:8 outside bytes"),
    ("class C:\n  b'a'\n", "2:3 OUTSIDE"),
    ("x = f'a'\n", "1:5 outside fstring"),
    ("x = 'a' f'b'\n", "1:9 outside fstring"),
    ("x = 'a' f'b' 'c' f'd'\n", "1:9 outside fstring"),
    ("f(F'a', 1)\n", "1:3 outside fstring"),
    ("class C:\n  'a' f'b'\n", "2:7 OUTSIDE"),
    ("x 'a' f'b'\n", "1:3 'a'"),
    ("x y f'b'\n", "1:3 y"),
    ("x = ...\n", "1:5 outside ellipsis"),
    ("def f(): ...\n", "1:10 outside ellipsis"),
    ("x[...]\n", "1:3 outside ellipsis"),
    ("class C: ...\n", "1:10 ..."),
];

// Operators and words.
const OPERATORS: [(&str, &str); 22] = [
    ("x = 1 / 2\n", "1:7 outside division"),
    ("x = (a / b) / c\n", "1:8 outside division"),
    ("x /= 2\n", "1:3 outside division"),
    ("x.y[0] /= 2\n", "1:8 outside division"),
    ("if a / b: c\n", "1:6 outside division"),
    ("x = / 2\n", "1:5 /"),
    ("x + 1 /= 2\n", "1:7 /="),
    ("x, y /= 2\n", "1:6 /="),
    ("x = a @ b\n", "1:7 outside matmul"),
    ("x @= b\n", "1:3 outside matmul"),
    ("f(a @ b)\n", "1:5 outside matmul"),
    ("x = y @= b\n", "1:7 @="),
    ("nonlocal x\n", "1:1 outside nonlocal"),
    ("def f():\n  nonlocal x, y\n", "2:3 outside nonlocal"),
    ("if a: nonlocal x\n", "1:7 outside nonlocal"),
    ("x = nonlocal\n", "1:5 nonlocal"),
    ("class C:\n  nonlocal x\n", "2:3 nonlocal"),
    ("x = 1 / 2.5\n", "1:7 outside division"),
    ("x = 2.5 / 1\n", "1:5 outside float"),
    ("x = f'a' @ 2j\n", "1:5 outside fstring"),
    ("x = (1\ny = 2 / 3\n", "no tokens"),
    ("x = 1 +\ny = 2 / 3\n", "1:8 NEWLINE"),
];

// Functions, classes and what stands before them.
const DEFINITIONS: [(&str, &str); 51] = [
    ("@f\ndef g(): pass\n", "1:1 outside decorator"),
    ("x = 1\n@f.g(1)\nclass C: pass\n", "2:1 outside decorator"),
    (
        "class C:\n  @f\n  def g(self): pass\n",
        "2:3 outside decorator",
    ),
    ("if x:\n  @f\n  def g(): pass\n", "2:3 outside decorator"),
    ("x = 1; @f\n", "1:8 @"),
    ("def f():\n  def g(): pass\n", "2:3 outside nested-def"),
    ("if x:\n  y\n  def g(): pass\n", "3:3 outside nested-def"),
    (
        "class C:\n  def f(self):\n    while x:\n      def g(): pass\n",
        "4:7 outside nested-def",
    ),
    ("if x: def g(): pass\n", "1:7 def"),
    ("x = 1; def f(): pass\n", "1:8 def"),
    ("class C:\n  class D: pass\n", "2:3 outside nested-class"),
    ("def f():\n  class D: pass\n", "2:3 outside nested-class"),
    (
        "class C:\n  pass\n  class D:\n    x = 1\n",
        "3:3 outside nested-class",
    ),
    ("if x: class D: pass\n", "1:7 class"),
    ("def f(*a): pass\n", "1:7 outside star-parameter"),
    ("def f(a, b=1, *, c): pass\n", "1:15 outside star-parameter"),
    ("def f(**k): pass\n", "1:7 outside star-parameter"),
    (
        "class C:\n  def f(self, *a, **k): pass\n",
        "2:15 outside star-parameter",
    ),
    ("def f(a *b): pass\n", "1:9 *"),
    ("def f(a: int): pass\n", "1:8 outside annotation"),
    ("def f(a, b) -> int: pass\n", "1:13 outside annotation"),
    ("x: int\n", "1:2 outside annotation"),
    ("def f():\n  x.y[1]: int = 2\n", "2:9 outside annotation"),
    ("(x): int\n", "1:4 outside annotation"),
    ("((x)): int\n", "1:6 :"),
    ("(x, y): int\n", "1:7 :"),
    ("[x]: int\n", "1:4 :"),
    ("class C:\n  x: int = 3\n", "2:4 outside annotation"),
    ("class C:\n  x.y(1)[2]: int\n", "2:12 outside annotation"),
    ("class C:\n  (x): int\n", "2:6 outside annotation"),
    ("class C:\n  'a'.x: int\n", "2:8 outside annotation"),
    ("x + 1: int\n", "1:6 :"),
    ("class C:\n  x = 1\n", "2:5 outside class-attribute"),
    (
        "class C:\n  pass\n  x, y.z = 1, 2\n",
        "3:10 outside class-attribute",
    ),
    ("class C:\n  [x, y] = z\n", "2:10 outside class-attribute"),
    ("class C: x = y = 1\n", "1:12 outside class-attribute"),
    ("class C:\n  (x).y[0] = z\n", "2:12 outside class-attribute"),
    ("class C:\n  'a'.b = 1\n", "2:9 outside class-attribute"),
    ("class C:\n  x\n", "2:3 x"),
    ("class C:\n  f(x) = 1\n", "2:3 f"),
    ("class C:\n  x += 1\n", "2:3 x"),
    ("class C(A, B): pass\n", "1:10 outside several-bases"),
    ("class C(m.A, B.c, D): pass\n", "1:12 outside several-bases"),
    ("class C(A,): pass\n", "1:10 outside several-bases"),
    ("class C(A, m=B): pass\n", "1:10 outside several-bases"),
    ("class C(m=A): pass\n", "1:10 outside class-keyword"),
    ("class C(m=A, n=B): pass\n", "1:10 outside class-keyword"),
    ("class C(m.n=A): pass\n", "1:12 ="),
    ("class C(m=): pass\n", "1:10 outside class-keyword"),
    ("f(), a: int\n", "1:7 :"),
    ("class C:\n  [f(), x] = y\n", "2:3 ["),
];

// What stands in calls, subscripts and comprehensions.
const CALLS: [(&str, &str); 46] = [
    ("f(*a)\n", "1:3 outside star-argument"),
    ("f(a, *b, c)\n", "1:6 outside star-argument"),
    ("f(**k)\n", "1:3 outside star-argument"),
    ("f(a, b=1, **k)\n", "1:11 outside star-argument"),
    ("x.f(*a)\n", "1:5 outside star-argument"),
    ("x = g(1)(y, *a)\n", "1:13 outside star-argument"),
    ("f(a *)\n", "1:6 )"),
    ("x.f(a=1)\n", "1:6 outside method-keyword"),
    ("x.y.f(1, a=2)\n", "1:11 outside method-keyword"),
    ("del x.f(a=1)[0]\n", "1:10 outside method-keyword"),
    ("x.f(a.b=1)\n", "1:8 ="),
    ("x.f((a)=1)\n", "1:8 ="),
    ("x[1:2:3]\n", "1:6 outside slice-step"),
    ("x = y[::2]\n", "1:8 outside slice-step"),
    ("f(x[a:b:])\n", "1:8 outside slice-step"),
    ("x[1:2:3:4]\n", "1:6 outside slice-step"),
    ("x = (a for b in c)\n", "1:8 outside generator-expression"),
    ("f(a for b in c)\n", "1:5 outside generator-expression"),
    (
        "x.f(a for b in c if d)\n",
        "1:7 outside generator-expression",
    ),
    ("f(x, a for b in c)\n", "1:8 for"),
    ("f(a=b for c in d)\n", "1:7 for"),
    ("x = (a, b for c in d)\n", "1:11 for"),
    ("x = {a for b in c}\n", "1:8 outside set-comprehension"),
    ("f({-a for b in c})\n", "1:7 outside set-comprehension"),
    (
        "{a for (b, c) in d for e in f}\n",
        "1:4 outside set-comprehension",
    ),
    ("x = {a, b for c in d}\n", "1:11 for"),
    ("x = {a: b for c in d}\n", "1:11 outside dict-comprehension"),
    (
        "return {a: f(b) for c in d}\n",
        "1:17 outside dict-comprehension",
    ),
    ("{1: 2 for a in b if c}\n", "1:7 outside dict-comprehension"),
    ("x = {a: b, c: d for e in f}\n", "1:17 for"),
    ("if x := 1: pass\n", "1:6 outside walrus"),
    ("while a:\n  f(x := y)\n", "2:7 outside walrus"),
    ("z = [x := 1, 2]\n", "1:8 outside walrus"),
    ("z = (1, x := 2)\n", "1:11 outside walrus"),
    ("z = [a for a in b if x := c]\n", "1:24 outside walrus"),
    ("z = {x := 1, 2}\n", "1:8 outside walrus"),
    ("a[x := 1]\n", "1:5 outside walrus"),
    ("x.f(y := 1)\n", "1:7 outside walrus"),
    ("x := 1\n", "1:3 :="),
    ("(x.y := 1)\n", "1:6 :="),
    ("((x) := 1)\n", "1:6 :="),
    ("(a if b else x := 1)\n", "1:16 :="),
    ("f(a=x := 1)\n", "1:7 :="),
    ("{x := 1: 2}\n", "1:4 outside walrus"),
    (
        "any(f(x) for x in y)\n",
        "1:10 outside generator-expression",
    ),
    ("f((g()) for x in y)\n", "1:9 outside generator-expression"),
];

// Compound statements.
const BLOCKS: [(&str, &str); 31] = [
    ("while x: pass\nelse: pass\n", "2:1 outside loop-else"),
    (
        "for x in y:\n  pass\nelse:\n  pass\n",
        "3:1 outside loop-else",
    ),
    ("if a:\n  while b: c\n  else: d\n", "3:3 outside loop-else"),
    ("x = 1\nelse: y\n", "2:1 else"),
    ("try: a\nexcept: b\nelse: c\n", "3:1 outside try-else"),
    (
        "try: a\nexcept A: b\nexcept B: c\nelse: d\n",
        "4:1 outside try-else",
    ),
    (
        "if x:\n  try: a\n  except A: b\n  else: c\n",
        "4:3 outside try-else",
    ),
    ("try: a\nelse: b\n", "2:1 else"),
    ("try: a\nfinally: b\n", "2:1 outside finally"),
    ("try: a\nexcept A: b\nfinally: c\n", "3:1 outside finally"),
    (
        "def f():\n  try:\n    a\n  finally:\n    b\n",
        "4:3 outside finally",
    ),
    ("x = 1\nfinally: y\n", "2:1 finally"),
    ("with x: pass\n", "1:1 outside with"),
    ("if a:\n  with f(x) as y, z: pass\n", "2:3 outside with"),
    ("def f():\n  with (a, b): pass\n", "2:3 outside with"),
    ("x = 1; with y: pass\n", "1:8 with"),
    ("if a: with b: pass\n", "1:7 with"),
    ("async def f(): pass\n", "1:1 outside async"),
    ("class C:\n  async def f(self): pass\n", "2:3 outside async"),
    ("def f():\n  async for x in y: pass\n", "2:3 outside async"),
    ("x = [a async for a in b]\n", "1:8 outside async"),
    (
        "x = [a for b in c async for d in e]\n",
        "1:19 outside async",
    ),
    ("x = async\n", "1:5 async"),
    ("await x\n", "1:1 outside await"),
    ("y = -await x.f()\n", "1:6 outside await"),
    ("f(a, await b ** 2)\n", "1:6 outside await"),
    ("x.await\n", "1:3 await"),
    ("try: a\nexcept (A, B): c\n", "2:8 outside except-tuple"),
    (
        "try: a\nexcept A: b\nexcept (C): d\n",
        "3:8 outside except-tuple",
    ),
    (
        "try:\n  a\nexcept (m.A, B,) as e:\n  c\n",
        "3:8 outside except-tuple",
    ),
    ("try: a\nexcept m.(A): c\n", "2:10 ("),
];

// Simple statements and what they assign.
const SIMPLE: [(&str, &str); 64] = [
    ("f = lambda x: x\n", "1:5 outside lambda"),
    ("f(a, lambda: 1)\n", "1:6 outside lambda"),
    ("x = a if b else lambda y=1, z: y\n", "1:17 outside lambda"),
    ("return lambda: 1\n", "1:8 outside lambda"),
    ("x = a + lambda: 1\n", "1:9 lambda"),
    ("x = not lambda: 1\n", "1:9 lambda"),
    ("x = [a for b in lambda: 1]\n", "1:17 lambda"),
    ("x = yield y\n", "1:5 outside yield-expression"),
    ("x = y = yield\n", "1:9 outside yield-expression"),
    ("x += yield 1\n", "1:6 outside yield-expression"),
    ("f((yield))\n", "1:4 outside yield-expression"),
    ("x = f(yield)\n", "1:7 yield"),
    ("yield\n", "1:6 NEWLINE"),
    ("yield from x\n", "1:7 outside yield-from"),
    ("def f():\n  yield from g(1)\n", "2:9 outside yield-from"),
    ("if a: yield from b; c\n", "1:13 outside yield-from"),
    ("raise x from y\n", "1:9 outside raise-from"),
    ("if a: raise f(x) from None\n", "1:18 outside raise-from"),
    ("raise from x\n", "1:7 from"),
    ("raise\n", "1:1 outside bare-raise"),
    ("try: a\nexcept: raise; b\n", "2:9 outside bare-raise"),
    ("def f():\n  raise\n  x\n", "2:3 outside bare-raise"),
    ("raise)", "no tokens"),
    ("raise :\n", "1:7 :"),
    ("del x\n", "1:1 outside del-name"),
    ("del x, y\n", "1:1 outside del-name"),
    ("if a: del (x, [y]); z\n", "1:7 outside del-name"),
    ("del (x)\n", "1:1 outside del-name"),
    ("del x.y\n", "1:8 NEWLINE"),
    ("del 1\n", "1:6 NEWLINE"),
    ("del x[0], y\n", "1:9 ,"),
    ("del (x, 1)\n", "1:11 NEWLINE"),
    ("import a.b\n", "1:9 outside dotted-import"),
    ("import a, b.c as d\n", "1:12 outside dotted-import"),
    ("from a.b import c\n", "1:7 outside dotted-import"),
    ("from . import a\n", "1:6 outside relative-import"),
    ("from ..a import b\n", "1:6 outside relative-import"),
    ("from ... import b\n", "1:6 outside relative-import"),
    ("from a import *\n", "1:15 outside star-import"),
    ("x = 1\nfrom m import *\n", "2:15 outside star-import"),
    ("from a import b, *\n", "1:18 *"),
    ("if x: import a\n", "1:7 outside nested-import"),
    ("def f():\n  from a import b\n", "2:3 outside nested-import"),
    ("class C:\n  import a\n", "2:3 outside nested-import"),
    ("def f():\n  x; import a\n", "2:6 outside nested-import"),
    ("x = 1; import a\n", "1:8 import"),
    ("import é\n", "1:8 outside nonascii-module"),
    ("import a, é as b\n", "1:11 outside nonascii-module"),
    ("from é import b\n", "1:6 outside nonascii-module"),
    ("*a, b = x\n", "1:1 outside starred-target"),
    ("a, *b = x\n", "1:4 outside starred-target"),
    ("[a, *b] = x\n", "1:5 outside starred-target"),
    ("(a, *b) = x\n", "1:5 outside starred-target"),
    ("x = *a, b = y\n", "1:5 outside starred-target"),
    ("x = [*a]\n", "1:6 outside starred-target"),
    ("for a, *b in c: pass\n", "1:8 outside starred-target"),
    ("x = [d for *a, b in c]\n", "1:12 outside starred-target"),
    ("print([*a])\n", "1:8 *"),
    ("x = -[*a]\n", "1:7 *"),
    ("return *a, b\n", "1:8 *"),
    ("a + b, *c\n", "1:8 *"),
    ("f(x), *c\n", "1:7 *"),
    ("f(), a = lambda: 1\n", "1:8 ="),
    ("del (f(), a)\n", "1:13 NEWLINE"),
];

// Slices that are assigned to or deleted.
const SLICES: [(&str, &str); 25] = [
    ("x[1:2] = y\n", "1:2 outside slice-target"),
    ("x[:] = y = z\n", "1:2 outside slice-target"),
    ("x = y[1:2] = z\n", "1:6 outside slice-target"),
    ("a, b[1:] = x\n", "1:5 outside slice-target"),
    ("(a[1:2]) = x\n", "1:3 outside slice-target"),
    ("[a[:2], b[c:]] = x\n", "1:3 outside slice-target"),
    ("a.b[c][1:2] = x\n", "1:7 outside slice-target"),
    ("f(a[1:2])[3:4] = x\n", "1:10 outside slice-target"),
    ("a[1:2] += 1\n", "1:2 outside slice-target"),
    ("a[b[1:2]:] **= 1\n", "1:2 outside slice-target"),
    ("del a[1:2]\n", "1:6 outside slice-target"),
    ("if x: del a.b[:]; c\n", "1:14 outside slice-target"),
    ("del a[1:2][3:4]\n", "1:11 outside slice-target"),
    ("(a[1:2]) += 1\n", "1:10 +="),
    ("a[1:2], b += 1\n", "1:11 +="),
    ("del a[1:2], b\n", "1:11 ,"),
    ("del (a[1:2])\n", "1:13 NEWLINE"),
    ("del a[1:2].b\n", "1:13 NEWLINE"),
    ("a[1:2] + b = c\n", "1:12 ="),
    ("a[1:2](b) = c\n", "1:11 ="),
    ("f(a[1:2], b) = c\n", "1:14 ="),
    ("a[1:2], (b, c) = d\n", "1:16 ="),
    ("(a[1:2]), b = c\n", "1:13 ="),
    ("{a[1:2]} = b\n", "1:10 ="),
    ("for a[1:2] in b: pass\n", "1:6 ["),
];

// Brackets as one of several targets. Behind `for` a comma may yet come after the first, and the brackets round may be targets.
const BRACKETS: [(&str, &str); 41] = [
    ("(a, (b, c)) = x\n", "1:5 outside nested-target"),
    ("(a, b), c = x\n", "1:1 outside nested-target"),
    ("((a, b), c), d = x\n", "1:1 outside nested-target"),
    ("((a, b), c) = x\n", "1:2 outside nested-target"),
    ("[a, [b, [c]]] = x\n", "1:5 outside nested-target"),
    ("x = a, [b] = y\n", "1:8 outside nested-target"),
    ("(a), b = x\n", "1:1 outside nested-target"),
    ("(a.b, c[0]), [d] = x\n", "1:1 outside nested-target"),
    ("[(a, b),] = x\n", "1:2 outside nested-target"),
    ("for (a, (b, c)) in x: pass\n", "1:5 outside nested-target"),
    ("for (a, b), c in x: pass\n", "1:5 outside nested-target"),
    ("for a, (b, c) in x: pass\n", "1:8 outside nested-target"),
    (
        "for a, b, [c, d] in x: pass\n",
        "1:11 outside nested-target",
    ),
    ("for [a, b] in x: pass\n", "1:5 outside nested-target"),
    ("for ((a, b), c) in x: pass\n", "1:5 outside nested-target"),
    ("for ([a], b) in x: pass\n", "1:5 outside nested-target"),
    ("x = [y for (a, b), c in z]\n", "1:12 outside nested-target"),
    ("x = [y for a, (b, c) in z]\n", "1:15 outside nested-target"),
    (
        "x = [y for a in b for (c, [d]) in z]\n",
        "1:23 outside nested-target",
    ),
    ("x = (a, (b, c))\n", "module"),
    ("(a), += 1\n", "1:6 +="),
    ("(a, b) += 1\n", "1:8 +="),
    ("(a, 1), b = x\n", "1:11 ="),
    ("(a, ()) = x\n", "1:9 ="),
    ("(a + b), c = x\n", "1:12 ="),
    ("f(a), (b, c) = x\n", "1:14 ="),
    ("{a, b}, c = x\n", "1:11 ="),
    ("for (a, 1) in x: pass\n", "1:9 1"),
    ("for a, (b.c) in x: pass\n", "1:8 outside nested-target"),
    ("for (a) in (b, c): pass\n", "module"),
    ("del (a, b), [c]\n", "1:1 outside del-name"),
    (
        "x = [[a for b, (c, d) in e] for f in g]\n",
        "1:5 outside nested-target",
    ),
    (
        "x = [(1 + [a for [b, c] in d]).e]\n",
        "1:5 outside nested-target",
    ),
    (
        "x = y, [[a for (b, c), d in e]]\n",
        "1:8 outside nested-target",
    ),
    (
        "x = (a, b), [c for d, (e, f) in g]\n",
        "1:5 outside nested-target",
    ),
    (
        "x = [y + [a for b, (c, d) in e]]\n",
        "1:20 outside nested-target",
    ),
    (
        "x = f([[a for b, (c, d) in e]])\n",
        "1:18 outside nested-target",
    ),
    (
        "x = [1, [a for b, (c, d) in e]]\n",
        "1:19 outside nested-target",
    ),
    (
        "x = -[[a for b, (c, d) in e]]\n",
        "1:17 outside nested-target",
    ),
    (
        "x = {a: [[b for c, (d, e) in f]]}\n",
        "1:20 outside nested-target",
    ),
    (
        "return [[a for b, (c, d) in e]]\n",
        "1:19 outside nested-target",
    ),
];

// Two constructs in one module, in both orders.
const TOGETHER: [(&str, &str); 18] = [
    ("x = lambda: 1.5\n", "1:5 outside lambda"),
    ("x = 1.5; y = lambda: 1\n", "1:5 outside float"),
    ("x = lambda: 1; y = 1.5\n", "1:5 outside lambda"),
    ("f(*a, b := 1)\n", "1:3 outside star-argument"),
    ("f(b := 1, *a)\n", "1:5 outside walrus"),
    ("@f\nasync def g(): pass\n", "1:1 outside decorator"),
    ("async def g():\n  @f\n", "1:1 outside async"),
    ("class C(A, B):\n  x = 1\n", "1:10 outside several-bases"),
    (
        "class C:\n  x: int = 1\n  y = 2\n",
        "2:4 outside annotation",
    ),
    (
        "class C:\n  y = 2\n  x: int = 1\n",
        "2:5 outside class-attribute",
    ),
    ("raise x from 1.5\n", "1:9 outside raise-from"),
    ("raise 1.5 from x\n", "1:7 outside float"),
    ("def f(*a: int): pass\n", "1:7 outside star-parameter"),
    ("def f(a: int, *b): pass\n", "1:8 outside annotation"),
    (
        "x = {a: b for c in d if e := f}\n",
        "1:11 outside dict-comprehension",
    ),
    ("if e := {a: b for c in d}: pass\n", "1:6 outside walrus"),
    ("with await x: pass\n", "1:1 outside with"),
    ("await f(*x)\n", "1:1 outside await"),
];

#[test]
fn literals_outside_the_profile_are_told(rt: HostRuntime) -> Result<(), Fail> {
    assert_eq!(rt; differences(rt.alloc(), &LITERALS)?.as_str(), "");
    Ok(())
}

#[test]
fn operators_outside_the_profile_are_told(rt: HostRuntime) -> Result<(), Fail> {
    assert_eq!(rt; differences(rt.alloc(), &OPERATORS)?.as_str(), "");
    Ok(())
}

#[test]
fn definitions_outside_the_profile_are_told(rt: HostRuntime) -> Result<(), Fail> {
    assert_eq!(rt; differences(rt.alloc(), &DEFINITIONS)?.as_str(), "");
    Ok(())
}

#[test]
fn calls_and_comprehensions_outside_the_profile_are_told(rt: HostRuntime) -> Result<(), Fail> {
    assert_eq!(rt; differences(rt.alloc(), &CALLS)?.as_str(), "");
    Ok(())
}

#[test]
fn blocks_outside_the_profile_are_told(rt: HostRuntime) -> Result<(), Fail> {
    assert_eq!(rt; differences(rt.alloc(), &BLOCKS)?.as_str(), "");
    Ok(())
}

#[test]
fn simple_statements_outside_the_profile_are_told(rt: HostRuntime) -> Result<(), Fail> {
    assert_eq!(rt; differences(rt.alloc(), &SIMPLE)?.as_str(), "");
    Ok(())
}

#[test]
fn slices_as_targets_are_told(rt: HostRuntime) -> Result<(), Fail> {
    assert_eq!(rt; differences(rt.alloc(), &SLICES)?.as_str(), "");
    Ok(())
}

#[test]
fn brackets_among_targets_are_told(rt: HostRuntime) -> Result<(), Fail> {
    assert_eq!(rt; differences(rt.alloc(), &BRACKETS)?.as_str(), "");
    Ok(())
}

#[test]
fn the_first_of_two_constructs_is_told(rt: HostRuntime) -> Result<(), Fail> {
    assert_eq!(rt; differences(rt.alloc(), &TOGETHER)?.as_str(), "");
    Ok(())
}
