//! Numbers of the kinds of tokens that rows read. `tools/additions.py` writes this file from `tools/grammar.txt` and `tools/additions.txt`.

pub(crate) const OTHER_NAME: u8 = 0;

pub(crate) const ASCII_NAME: u8 = 1;

pub(crate) const NUMBER: u8 = 2;

pub(crate) const TEXT: u8 = 3;

pub(crate) const FLOAT: u8 = 4;

pub(crate) const IMAGINARY: u8 = 5;

pub(crate) const BYTES: u8 = 6;

pub(crate) const FORMATTED: u8 = 7;

pub(crate) const NEWLINE: u8 = 8;

pub(crate) const INDENT: u8 = 9;

pub(crate) const DEDENT: u8 = 10;

pub(crate) const THE_FALSE: u8 = 11;

pub(crate) const THE_NONE: u8 = 12;

pub(crate) const THE_TRUE: u8 = 13;

pub(crate) const THE_AS: u8 = 15;

pub(crate) const THE_ASSERT: u8 = 16;

pub(crate) const THE_ASYNC: u8 = 17;

pub(crate) const THE_AWAIT: u8 = 18;

pub(crate) const THE_BREAK: u8 = 19;

pub(crate) const THE_CLASS: u8 = 20;

pub(crate) const THE_CONTINUE: u8 = 21;

pub(crate) const THE_DEF: u8 = 22;

pub(crate) const THE_DEL: u8 = 23;

pub(crate) const THE_ELIF: u8 = 24;

pub(crate) const THE_ELSE: u8 = 25;

pub(crate) const THE_EXCEPT: u8 = 26;

pub(crate) const THE_FINALLY: u8 = 27;

pub(crate) const THE_FOR: u8 = 28;

pub(crate) const THE_FROM: u8 = 29;

pub(crate) const THE_GLOBAL: u8 = 30;

pub(crate) const THE_IF: u8 = 31;

pub(crate) const THE_IMPORT: u8 = 32;

pub(crate) const THE_IN: u8 = 33;

pub(crate) const THE_LAMBDA: u8 = 35;

pub(crate) const THE_NONLOCAL: u8 = 36;

pub(crate) const THE_PASS: u8 = 39;

pub(crate) const THE_RAISE: u8 = 40;

pub(crate) const THE_RETURN: u8 = 41;

pub(crate) const THE_TRY: u8 = 42;

pub(crate) const THE_WHILE: u8 = 43;

pub(crate) const THE_WITH: u8 = 44;

pub(crate) const THE_YIELD: u8 = 45;

pub(crate) const THE_DOUBLE_SLASH_EQUAL: u8 = 47;

pub(crate) const THE_DOUBLE_STAR_EQUAL: u8 = 48;

pub(crate) const THE_LEFT_SHIFT_EQUAL: u8 = 49;

pub(crate) const THE_RIGHT_SHIFT_EQUAL: u8 = 50;

pub(crate) const THE_ELLIPSIS: u8 = 51;

pub(crate) const THE_DOUBLE_STAR: u8 = 53;

pub(crate) const THE_PLUS_EQUAL: u8 = 60;

pub(crate) const THE_MINUS_EQUAL: u8 = 61;

pub(crate) const THE_STAR_EQUAL: u8 = 62;

pub(crate) const THE_PERCENT_EQUAL: u8 = 63;

pub(crate) const THE_AMPERSAND_EQUAL: u8 = 64;

pub(crate) const THE_BAR_EQUAL: u8 = 65;

pub(crate) const THE_CARET_EQUAL: u8 = 66;

pub(crate) const THE_SLASH_EQUAL: u8 = 67;

pub(crate) const THE_AT_EQUAL: u8 = 68;

pub(crate) const THE_ARROW: u8 = 69;

pub(crate) const THE_COLON_EQUAL: u8 = 70;

pub(crate) const THE_STAR: u8 = 73;

pub(crate) const THE_OPEN_PARENTHESIS: u8 = 81;

pub(crate) const THE_CLOSE_PARENTHESIS: u8 = 82;

pub(crate) const THE_OPEN_BRACKET: u8 = 83;

pub(crate) const THE_CLOSE_BRACKET: u8 = 84;

pub(crate) const THE_OPEN_BRACE: u8 = 85;

pub(crate) const THE_CLOSE_BRACE: u8 = 86;

pub(crate) const THE_COMMA: u8 = 87;

pub(crate) const THE_COLON: u8 = 88;

pub(crate) const THE_DOT: u8 = 89;

pub(crate) const THE_SEMICOLON: u8 = 90;

pub(crate) const THE_EQUAL: u8 = 91;

pub(crate) const THE_SLASH: u8 = 92;

pub(crate) const THE_AT: u8 = 93;
