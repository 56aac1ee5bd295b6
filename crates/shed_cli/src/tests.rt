use crate::shed;
use shed_base::{MemoryFolder, MemorySink, MemorySource};
use std::test::Fail;

const FORWARD: &str = "#pragma once\n#include \"shed-support.hpp\"\n";

const HEADER: &str = "#pragma once\n#include \"shed-forward.hpp\"\nvoid body_main();\n";

const SOURCE: &str =
    "#include \"shed-support.hpp\"\n#include \"shed-forward.hpp\"\n#include \"main.hpp\"\nvoid body_main() {\n}\nint main() { return shed::start(&body_main); }\n";

const MAKEFILE: &str =
    "CXX ?= g++\nCXXFLAGS ?= -O2\nmain: main.cpp\n\t$(CXX) -std=c++20 -fwrapv $(CXXFLAGS) -o main main.cpp -lshed\n\n";

const TYPES: &str = "shed types 1\nrounds 1\ntemplate T0 main ()\nfamily F0\ngroup G0 T0\n";

// The files of the empty module, and the number of the call that writes each. Call 0 is the read.
const FILES: [(u64, &str, &str); 5] = [
    (1, "shed-forward.hpp", FORWARD),
    (2, "main.hpp", HEADER),
    (3, "main.cpp", SOURCE),
    (4, "Makefile", MAKEFILE),
    (5, "main.types", TYPES),
];

const USAGE: &str =
    "usage: shed translate [-l] [-b] [-w] [-o] [-a] [-m FILE] NAME | run [--ticks N] NAME | bulk SEED COUNT\n";

const TOO_LARGE: &str = "shed: M6 TooLarge main\n";

// Runs the command with words, which spaces part, and gives the number that it ends with.
fn run(
    rt: &HostRuntime,
    words: &str,
    folder: &mut MemoryFolder,
    err: &mut MemorySink,
) -> Result<u8, Fail> {
    let alloc = rt.alloc();
    let mut list = Vec::new(alloc);
    for word in words.split_whitespace() {
        list.push(String::from_str(alloc, word)?)?;
    }
    let mut input = MemorySource::new(Vec::new(alloc), 1, Vec::new(alloc));
    let mut out = MemorySink::new(alloc, 1, Vec::new(alloc));
    Ok(shed(alloc, list.as_slice(), folder, &mut input, &mut out, err).number())
}

// Whether the command ends with this number, and says this.
fn ends(
    rt: &HostRuntime,
    words: &str,
    folder: &mut MemoryFolder,
    want: u8,
    said: &str,
) -> Result<bool, Fail> {
    let mut err = MemorySink::new(rt.alloc(), 3, Vec::new(rt.alloc()));
    let status = run(rt, words, folder, &mut err)?;
    Ok(status == want && err.bytes() == said.as_bytes())
}

// A folder with one file.
fn folder_with(rt: &HostRuntime, name: &str, text: &str) -> Result<MemoryFolder, Fail> {
    let mut folder = MemoryFolder::new(rt.alloc(), Vec::new(rt.alloc()));
    folder.put(name, text.as_bytes())?;
    Ok(folder)
}

// Whether a file has this text.
fn holds(folder: &MemoryFolder, name: &str, want: &str) -> bool {
    folder.file(name) == Some(want.as_bytes())
}

// Whether any file was written.
fn is_any_written(folder: &MemoryFolder) -> bool {
    for (_, name, _) in FILES {
        if folder.file(name).is_some() {
            return true;
        }
    }
    false
}

// A module's name, its text, and one file of its translation.
const WRITTEN: [(&str, &str, &str, &str); 19] = [
    ("main", "", "shed-forward.hpp", FORWARD),
    ("main", "", "main.hpp", HEADER),
    ("main", "", "main.cpp", SOURCE),
    ("main", "", "Makefile", MAKEFILE),
    ("main", "", "main.types", TYPES),
    (
        "main",
        "print(2147483647 + 1)\n",
        "main.cpp",
        "#include \"shed-support.hpp\"\n#include \"shed-forward.hpp\"\n#include \"main.hpp\"\nvoid body_main() {\n  shed::str* t_0 = nullptr;\n  t_0 = shed::text_of((2147483647 + 1));\n  shed::write(t_0);\n  shed::write(\"\\012\"_t);\n}\nint main() { return shed::start(&body_main); }\n",
    ),
    (
        "main",
        "x = 1\nprint(x + 2)\n",
        "main.cpp",
        "#include \"shed-support.hpp\"\n#include \"shed-forward.hpp\"\n#include \"main.hpp\"\nint32_t g_0_x = 0;\nvoid body_main() {\n  shed::str* t_0 = nullptr;\n  g_0_x = 1;\n  t_0 = shed::text_of((g_0_x + 2));\n  shed::write(t_0);\n  shed::write(\"\\012\"_t);\n}\nint main() { return shed::start(&body_main); }\n",
    ),
    (
        "main",
        "x = 1\nprint(x + 2)\n",
        "main.types",
        "shed types 1\nrounds 1\ntemplate T0 main ()\nfamily F0\ngroup G0 T0\nglobal main.x int {int}\n",
    ),
    (
        "main",
        "x = 1\ny = - x * 2 - 3\nx = y\n",
        "main.cpp",
        "#include \"shed-support.hpp\"\n#include \"shed-forward.hpp\"\n#include \"main.hpp\"\nint32_t g_0_x = 0;\nint32_t g_0_y = 0;\nvoid body_main() {\n  g_0_x = 1;\n  g_0_y = (((-g_0_x) * 2) - 3);\n  g_0_x = g_0_y;\n}\nint main() { return shed::start(&body_main); }\n",
    ),
    (
        "main",
        "_ = 1\n__x = 2\nZ = 3\naZ_ = 4\nx_ = 5\n",
        "main.hpp",
        "#pragma once\n#include \"shed-forward.hpp\"\nextern int32_t g_0_Z_;\nextern int32_t g_0_Z_Z_x;\nextern int32_t g_0_ZZ;\nextern int32_t g_0_aZZ_;\nextern int32_t g_0_x_;\nvoid body_main();\n",
    ),
    (
        "main",
        "x = 1\nif x < 3:\n    print(x)\n",
        "main.cpp",
        "#include \"shed-support.hpp\"\n#include \"shed-forward.hpp\"\n#include \"main.hpp\"\nint32_t g_0_x = 0;\nvoid body_main() {\n  shed::str* t_0 = nullptr;\n  g_0_x = 1;\n  if ((g_0_x < 3)) {\n    t_0 = shed::text_of(g_0_x);\n    shed::write(t_0);\n    shed::write(\"\\012\"_t);\n  }\n}\nint main() { return shed::start(&body_main); }\n",
    ),
    (
        "main",
        "x = 1\nif x >= - 3 + x:\n x = 2\nelse:\n x = 3\ny = x\n",
        "main.cpp",
        "#include \"shed-support.hpp\"\n#include \"shed-forward.hpp\"\n#include \"main.hpp\"\nint32_t g_0_x = 0;\nint32_t g_0_y = 0;\nvoid body_main() {\n  g_0_x = 1;\n  if ((g_0_x >= ((-3) + g_0_x))) {\n    g_0_x = 2;\n  } else {\n    g_0_x = 3;\n  }\n  g_0_y = g_0_x;\n}\nint main() { return shed::start(&body_main); }\n",
    ),
    (
        "main",
        "x = 3\nwhile x != 0:\n\n  x = x - 1\n  \n\n  print(x * 2)\n",
        "main.cpp",
        "#include \"shed-support.hpp\"\n#include \"shed-forward.hpp\"\n#include \"main.hpp\"\nint32_t g_0_x = 0;\nvoid body_main() {\n  shed::str* t_0 = nullptr;\n  g_0_x = 3;\n  while ((g_0_x != 0)) {\n    g_0_x = (g_0_x - 1);\n    t_0 = shed::text_of((g_0_x * 2));\n    shed::write(t_0);\n    shed::write(\"\\012\"_t);\n  }\n}\nint main() { return shed::start(&body_main); }\n",
    ),
    (
        "main",
        "x = 0\nwhile x <= 9:\n   if x == 4:\n    while x > 5:\n          b = 1\n    x = x + 1\n   else:\n        if 1 < 2:\n         a = x\n   x = x - 1\nif x < 1:\n  x = 7\n  if x < 2:\n    x = 8\n",
        "main.cpp",
        "#include \"shed-support.hpp\"\n#include \"shed-forward.hpp\"\n#include \"main.hpp\"\nint32_t g_0_x = 0;\nint32_t g_0_b = 0;\nint32_t g_0_a = 0;\nvoid body_main() {\n  g_0_x = 0;\n  while ((g_0_x <= 9)) {\n    if ((g_0_x == 4)) {\n      while ((g_0_x > 5)) {\n        g_0_b = 1;\n      }\n      g_0_x = (g_0_x + 1);\n    } else {\n      if ((1 < 2)) {\n        g_0_a = g_0_x;\n      }\n    }\n    g_0_x = (g_0_x - 1);\n  }\n  if ((g_0_x < 1)) {\n    g_0_x = 7;\n    if ((g_0_x < 2)) {\n      g_0_x = 8;\n    }\n  }\n}\nint main() { return shed::start(&body_main); }\n",
    ),
    (
        "main",
        "x = 1\nif x > 0:\n  b = 1\nelse:\n  a = 1\n  x = 2\nwhile x == 3:\n  y = 1\n  b = 4\n_ = 5\n",
        "main.hpp",
        "#pragma once\n#include \"shed-forward.hpp\"\nextern int32_t g_0_x;\nextern int32_t g_0_b;\nextern int32_t g_0_a;\nextern int32_t g_0_y;\nextern int32_t g_0_Z_;\nvoid body_main();\n",
    ),
    (
        "main",
        "x = 1\nif x > 0:\n  b = 1\nelse:\n  a = 1\n  x = 2\nwhile x == 3:\n  y = 1\n  b = 4\n_ = 5\n",
        "main.types",
        "shed types 1\nrounds 1\ntemplate T0 main ()\nfamily F0\ngroup G0 T0\nglobal main.x int {int}\nglobal main.b int {int}\nglobal main.a int {int}\nglobal main.y int {int}\nglobal main._ int {int}\n",
    ),
    (
        "main",
        "# a module\n\n\t\nx\t=  0x1F # thirty-one\r\ny = x ; print(y,);\nif x < 0b11: y = 1\nelif x < 0o17:\n\ty = 2\nelse : y = \\\n 1_0",
        "main.cpp",
        "#include \"shed-support.hpp\"\n#include \"shed-forward.hpp\"\n#include \"main.hpp\"\nint32_t g_0_x = 0;\nint32_t g_0_y = 0;\nvoid body_main() {\n  shed::str* t_0 = nullptr;\n  g_0_x = 31;\n  g_0_y = g_0_x;\n  t_0 = shed::text_of(g_0_y);\n  shed::write(t_0);\n  shed::write(\"\\012\"_t);\n  if ((g_0_x < 3)) {\n    g_0_y = 1;\n  } else {\n    if ((g_0_x < 15)) {\n      g_0_y = 2;\n    } else {\n      g_0_y = 10;\n    }\n  }\n}\nint main() { return shed::start(&body_main); }\n",
    ),
    (
        "main",
        "\u{feff}x = - - 1 - \\\r\n 2",
        "main.cpp",
        "#include \"shed-support.hpp\"\n#include \"shed-forward.hpp\"\n#include \"main.hpp\"\nint32_t g_0_x = 0;\nvoid body_main() {\n  g_0_x = ((-(-1)) - 2);\n}\nint main() { return shed::start(&body_main); }\n",
    ),
    (
        "Z",
        "",
        "Z.hpp",
        "#pragma once\n#include \"shed-forward.hpp\"\nvoid body_ZZ();\n",
    ),
];

// Whether the translation of a module leaves this file, and says nothing. A second run is to leave the same.
fn leaves(rt: &HostRuntime, name: &str, text: &str, file: &str, want: &str) -> Result<bool, Fail> {
    let alloc = rt.alloc();
    let source = format!(in alloc; "{name}.py")?;
    let words = format!(in alloc; "translate {name}")?;
    let mut folder = folder_with(rt, source.as_str(), text)?;
    let first = ends(rt, words.as_str(), &mut folder, 0, "")? && holds(&folder, file, want);
    let second = ends(rt, words.as_str(), &mut folder, 0, "")? && holds(&folder, file, want);
    Ok(first && second)
}

#[test]
fn writes_the_files(rt: HostRuntime) -> Result<(), Fail> {
    for (name, text, file, want) in WRITTEN {
        let is_left = leaves(&rt, name, text, file, want)?;
        assert!(rt; is_left, "{file} at {text:?}");
    }
    Ok(())
}

// A text, the number that its translation ends with, and what is said.
const REFUSED: [(&[u8], u8, &str); 71] = [
    (b"a = 1\n\xff", 3, "main.py:2:1: L1 NotUtf8\n"),
    (b"x = $\n", 3, "main.py:1:5: L2 BadCharacter\n"),
    (b"x = 1__0\n", 3, "main.py:1:6: P1 Unexpected __0\n"),
    (b"x = 007\n", 3, "main.py:1:7: L2 BadCharacter\n"),
    (
        b"x = 1\nif x < 2:\n    x = 2\n  x = 3\n",
        3,
        "main.py:4:3: L3 BadIndent\n",
    ),
    (
        b"if 1:\n\tx = 1\n        y = 2\n",
        3,
        "main.py:3:9: L4 MixedTabs\n",
    ),
    (b"x = 'a\n", 3, "main.py:1:5: L5 UnclosedText\n"),
    (b"print((1", 3, "main.py:1:7: L6 UnclosedBracket\n"),
    (b"x = 'a\\x1'\n", 3, "main.py:1:7: L7 BadEscape\n"),
    (b"x = 2147483648\n", 3, "main.py:1:5: L8 WideNumber\n"),
    (b"x = 'a\xc3\xa4'\n", 3, "main.py:1:7: L9 NonAsciiText\n"),
    (b"x = e\xcc\x81\n", 3, "main.py:1:5: L10 NotNormal\n"),
    (b"x 7\n", 3, "main.py:1:3: P1 Unexpected 7\n"),
    (b"x 0x1F\n", 3, "main.py:1:3: P1 Unexpected 31\n"),
    (b"x y\n", 3, "main.py:1:3: P1 Unexpected y\n"),
    (b"x \xc3\xa4\n", 3, "main.py:1:3: P1 Unexpected \u{e4}\n"),
    (b"x def\n", 3, "main.py:1:3: P1 Unexpected def\n"),
    (b"x = //\n", 3, "main.py:1:5: P1 Unexpected //\n"),
    (b"x 'a'\n", 3, "main.py:1:3: P1 Unexpected 'a'\n"),
    (b"x 'a' \"b\"\n", 3, "main.py:1:3: P1 Unexpected 'ab'\n"),
    (b"x \"a'\"\n", 3, "main.py:1:3: P1 Unexpected \"a'\"\n"),
    (
        b"x \"a'\" '\"'\n",
        3,
        "main.py:1:3: P1 Unexpected 'a\\'\"'\n",
    ),
    (
        b"x '\\t\\n\\r\\\\\\x01\\x1f\\x7f~'\n",
        3,
        "main.py:1:3: P1 Unexpected '\\t\\n\\r\\\\\\x01\\x1f\\x7f~'\n",
    ),
    (b"x 1.5\n", 3, "main.py:1:3: P1 Unexpected float\n"),
    (b"x 2j\n", 3, "main.py:1:3: P1 Unexpected imaginary\n"),
    (b"x b'a'\n", 3, "main.py:1:3: P1 Unexpected bytes\n"),
    (b"x f'a'\n", 3, "main.py:1:3: P1 Unexpected fstring\n"),
    (b"x =\n", 3, "main.py:1:4: P1 Unexpected NEWLINE\n"),
    (b"x = 1.5\n", 3, "main.py:1:5: P2 Outside float\n"),
    (b"x = 1 / 2\n", 3, "main.py:1:7: P2 Outside division\n"),
    (
        b"x = 1\nprint('a' f'b')\n",
        3,
        "main.py:2:11: P2 Outside fstring\n",
    ),
    (b"\tx = 1\n", 3, "main.py:1:2: P1 Unexpected INDENT\n"),
    (b"  x = 1\n", 3, "main.py:1:3: P1 Unexpected INDENT\n"),
    (
        b"x = 1\n  x = 2\n",
        3,
        "main.py:2:3: P1 Unexpected INDENT\n",
    ),
    (
        b"if x:\n try:\n  x = 2\n y = 1\n",
        3,
        "main.py:4:2: P1 Unexpected y\n",
    ),
    (
        b"if x:\n try:\n  x = 2\ny = 1\n",
        3,
        "main.py:4:1: P1 Unexpected DEDENT\n",
    ),
    (
        b"x = 1\nwhile x < 2:\n",
        3,
        "main.py:2:13: P1 Unexpected END\n",
    ),
    (
        b"x = 1\nelse:\n  x = 2\n",
        3,
        "main.py:2:1: P1 Unexpected else\n",
    ),
    (
        b"x = 1\nif x < 2:\nx = 2\n",
        3,
        "main.py:3:1: P1 Unexpected x\n",
    ),
    (
        b"x = 1\nif x < 2:\n  x = 2\nelse:\nx = 3\n",
        3,
        "main.py:5:1: P1 Unexpected x\n",
    ),
    (
        b"x = 1\nif x < 2\n  x = 2\n",
        3,
        "main.py:2:9: P1 Unexpected NEWLINE\n",
    ),
    (b"x = y\n", 3, "main.py:1:5: P2 Outside unbuilt\n"),
    (b"x = x\n", 3, "main.py:1:5: P2 Outside unbuilt\n"),
    (b"x = \xc3\xa4\n", 3, "main.py:1:5: P2 Outside unbuilt\n"),
    (b"\xc3\xa4 = 1\n", 3, "main.py:1:1: P2 Outside unbuilt\n"),
    (b"x = (1)\n", 3, "main.py:1:5: P2 Outside unbuilt\n"),
    (b"x = 'a'\n", 3, "main.py:1:5: P2 Outside unbuilt\n"),
    (b"x = 1 ** 2\n", 3, "main.py:1:7: P2 Outside unbuilt\n"),
    (b"x = 1 < 2\n", 3, "main.py:1:7: P2 Outside unbuilt\n"),
    (b"x = + 1\n", 3, "main.py:1:5: P2 Outside unbuilt\n"),
    (b"x-=1\n", 3, "main.py:1:1: P2 Outside unbuilt\n"),
    (b"x = y = 1\n", 3, "main.py:1:1: P2 Outside unbuilt\n"),
    (b"print()\n", 3, "main.py:1:1: P2 Outside unbuilt\n"),
    (b"print(1, 2)\n", 3, "main.py:1:1: P2 Outside unbuilt\n"),
    (b"print = 1\n", 3, "main.py:1:1: P2 Outside unbuilt\n"),
    (b"__name__ = 1\n", 3, "main.py:1:1: P2 Outside unbuilt\n"),
    (
        b"x = 1; print(x); pass\n",
        3,
        "main.py:1:18: P2 Outside unbuilt\n",
    ),
    (
        b"x = 1\nif x < 2:\n  pass\n",
        3,
        "main.py:3:3: P2 Outside unbuilt\n",
    ),
    (
        b"x = 1\nif x:\n  x = 2\n",
        3,
        "main.py:2:4: P2 Outside unbuilt\n",
    ),
    (
        b"x = 1\nif 0 < x < 3:\n  x = 2\n",
        3,
        "main.py:2:6: P2 Outside unbuilt\n",
    ),
    (
        b"x = 1\nif x < 2:\n  y = 1\nprint(y)\n",
        3,
        "main.py:4:7: P2 Outside unbuilt\n",
    ),
    (
        b"x = 1\nif x < 2:\n  y = 1\n  print(y)\n",
        3,
        "main.py:4:9: P2 Outside unbuilt\n",
    ),
    (
        b"x = 1\nwhile y < 2:\n  y = 1\n",
        3,
        "main.py:2:7: P2 Outside unbuilt\n",
    ),
    (
        b"x = 1\nwhile x < 2: print(y)\nprint(z)\n",
        3,
        "main.py:2:20: P2 Outside unbuilt\n",
    ),
    (b"x = y * (1)\n", 3, "main.py:1:5: P2 Outside unbuilt\n"),
    (b"x = y ** (1)\n", 3, "main.py:1:5: P2 Outside unbuilt\n"),
    (b"x = y\n$\n", 3, "main.py:2:1: L2 BadCharacter\n"),
    (b"x = y\n1 2\n", 3, "main.py:2:3: P1 Unexpected 2\n"),
    (b"1 2\n$\n", 3, "main.py:2:1: L2 BadCharacter\n"),
    (b"$\n\xff\n", 3, "main.py:2:1: L1 NotUtf8\n"),
    (
        b"def f(x):\n    return x\n",
        3,
        "main.py:1:1: P2 Outside unbuilt\n",
    ),
];

// Whether a text is refused in this way, and nothing written.
fn is_refused(rt: &HostRuntime, text: &[u8], want: u8, said: &str) -> Result<bool, Fail> {
    let mut folder = MemoryFolder::new(rt.alloc(), Vec::new(rt.alloc()));
    folder.put("main.py", text)?;
    let is_told = ends(rt, "translate main", &mut folder, want, said)?;
    Ok(is_told && !is_any_written(&folder) && folder.file("main.py") == Some(text))
}

#[test]
fn refuses_texts(rt: HostRuntime) -> Result<(), Fail> {
    for (text, want, said) in REFUSED {
        let is_refused = is_refused(&rt, text, want, said)?;
        assert!(rt; is_refused, "at {text:?}: {said}");
    }
    Ok(())
}

// What comes before, how many times a piece, what comes behind, the number that it ends with, and what is said.
const LIMITS: [(&str, usize, &str, &str, u8, &str); 13] = [
    ("x = ", 99, "-", "1\n", 0, ""),
    ("x = ", 100, "-", "1\n", 5, "main.py:1:105: P3 TooDeep\n"),
    ("x = 1", 99, " + 1", "\n", 0, ""),
    ("x = 1", 100, " + 1", "\n", 5, "main.py:1:5: P3 TooDeep\n"),
    ("print(", 98, "-", "1)\n", 0, ""),
    ("print(", 99, "-", "1)\n", 5, "main.py:1:106: P3 TooDeep\n"),
    (
        "x = 1",
        99,
        " + 1",
        " 2\n",
        3,
        "main.py:1:403: P1 Unexpected 2\n",
    ),
    ("x = 1", 100, " + 1", " 2\n", 5, "main.py:1:5: P3 TooDeep\n"),
    ("", 1000, "a", " = 1\n", 0, ""),
    (
        "x = 1; ",
        1001,
        "a",
        " = 1\n",
        5,
        "main.py:1:8: L11 TooLong\n",
    ),
    ("x=1\n", 1048572, "\n", "", 0, ""),
    ("x =1\n", 1048572, "\n", "", 5, TOO_LARGE),
    ("$", 1048576, "\n", "", 5, TOO_LARGE),
];

#[test]
fn keeps_the_limits(rt: HostRuntime) -> Result<(), Fail> {
    let alloc = rt.alloc();
    for (front, count, piece, back, want, said) in LIMITS {
        let text = format!(in alloc; "{front}{}{back}", piece.repeat(alloc, count)?)?;
        let mut folder = folder_with(&rt, "main.py", text.as_str())?;
        let is_told = ends(&rt, "translate main", &mut folder, want, said)?;
        assert!(rt; is_told, "{count} times {piece:?}");
        assert_eq!(rt;
            is_any_written(&folder),
            want == 0,
            "{count} times {piece:?}"
        );
    }
    Ok(())
}

// Blocks in one another, and a statement in the innermost.
fn nested(rt: &HostRuntime, depth: usize) -> Result<String, Fail> {
    let alloc = rt.alloc();
    let mut text = String::new(alloc);
    for level in 0..depth {
        text.push_str(" ".repeat(alloc, level)?.as_str())?;
        text.push_str("if 1 < 2:\n")?;
    }
    text.push_str(" ".repeat(alloc, depth)?.as_str())?;
    text.push_str("x = 1\n")?;
    Ok(text)
}

#[test]
fn keeps_the_limit_of_blocks(rt: HostRuntime) -> Result<(), Fail> {
    for (depth, want, said) in [
        (20, 0, ""),
        (99, 0, ""),
        (100, 5, "main.py:100:103: P3 TooDeep\n"),
    ] {
        let text = nested(&rt, depth)?;
        let mut folder = folder_with(&rt, "main.py", text.as_str())?;
        let is_told = ends(&rt, "translate main", &mut folder, want, said)?;
        assert!(rt; is_told, "{depth} blocks");
        assert_eq!(rt; is_any_written(&folder), want == 0, "{depth} blocks");
    }
    Ok(())
}

// Words, the number that they end with, and what is said.
const WORDS: [(&str, u8, &str); 10] = [
    ("", 2, USAGE),
    ("translate", 2, USAGE),
    ("translate -q main", 2, USAGE),
    ("translate main.py", 0, ""),
    ("translate main", 0, ""),
    ("translate main.txt", 2, USAGE),
    ("translate 1x", 2, USAGE),
    ("translate if", 2, USAGE),
    ("run main", 2, USAGE),
    ("translate nope", 3, "nope.py: M1 Missing nope\n"),
];

#[test]
fn reads_the_words(rt: HostRuntime) -> Result<(), Fail> {
    for (words, want, said) in WORDS {
        let mut folder = folder_with(&rt, "main.py", "")?;
        let is_told = ends(&rt, words, &mut folder, want, said)?;
        assert!(rt; is_told, "at {words:?}");
        assert_eq!(rt; is_any_written(&folder), want == 0, "at {words:?}");
    }
    Ok(())
}

// Whether the files before this call are whole, the first half of its own file stands, and no later one is there.
fn breaks_off(folder: &MemoryFolder, fails: u64) -> bool {
    for (call, name, text) in FILES {
        let whole = text.as_bytes();
        let half = &whole[..whole.len() / 2];
        let is_so = match folder.file(name) {
            Some(bytes) => (call < fails && bytes == whole) || (call == fails && bytes == half),
            None => call > fails,
        };
        if !is_so {
            return false;
        }
    }
    true
}

// The number of the call that fails, that of the run's end, and what is said.
const FAULTS: [(u64, u8, &str); 7] = [
    (0, 6, "shed: read fault\n"),
    (1, 7, "shed: write fault\n"),
    (2, 7, "shed: write fault\n"),
    (3, 7, "shed: write fault\n"),
    (4, 7, "shed: write fault\n"),
    (5, 7, "shed: write fault\n"),
    (6, 0, ""),
];

#[test]
fn tells_each_fault_of_the_folder(rt: HostRuntime) -> Result<(), Fail> {
    let alloc = rt.alloc();
    for (fails, want, said) in FAULTS {
        let mut folder = MemoryFolder::new(alloc, vec![in alloc; fails]?);
        folder.put("main.py", b"")?;
        let is_told = ends(&rt, "translate main", &mut folder, want, said)?;
        assert!(rt; is_told, "where call {fails} fails");
        assert!(rt; breaks_off(&folder, fails), "where call {fails} fails");
    }
    Ok(())
}

#[test]
fn tells_a_fault_of_err(rt: HostRuntime) -> Result<(), Fail> {
    let alloc = rt.alloc();
    for (fails, held) in [(0, ""), (1, "nop"), (2, "nope.p")] {
        let mut folder = folder_with(&rt, "main.py", "")?;
        let mut err = MemorySink::new(alloc, 3, vec![in alloc; fails]?);
        let status = run(&rt, "translate nope", &mut folder, &mut err)?;
        assert_eq!(rt; status, 7, "where call {fails} fails");
        assert_eq!(rt; err.bytes(), held.as_bytes(), "where call {fails} fails");
        assert!(rt; !is_any_written(&folder), "where call {fails} fails");
    }
    Ok(())
}
