//! Numbers of the kinds of tokens that rows read. `tools/table.py` writes this file from `tools/grammar.txt`.

pub(crate) const OTHER_NAME: u8 = 0;

pub(crate) const ASCII_NAME: u8 = 1;

pub(crate) const NUMBER: u8 = 2;

pub(crate) const TEXT: u8 = 3;

pub(crate) const NEWLINE: u8 = 8;

pub(crate) const INDENT: u8 = 9;

pub(crate) const DEDENT: u8 = 10;

pub(crate) const THE_FALSE: u8 = 11;

pub(crate) const THE_NONE: u8 = 12;

pub(crate) const THE_TRUE: u8 = 13;

pub(crate) const THE_AND: u8 = 14;

pub(crate) const THE_AS: u8 = 15;

pub(crate) const THE_ASSERT: u8 = 16;

pub(crate) const THE_BREAK: u8 = 19;

pub(crate) const THE_CLASS: u8 = 20;

pub(crate) const THE_CONTINUE: u8 = 21;

pub(crate) const THE_DEF: u8 = 22;

pub(crate) const THE_DEL: u8 = 23;

pub(crate) const THE_ELIF: u8 = 24;

pub(crate) const THE_ELSE: u8 = 25;

pub(crate) const THE_EXCEPT: u8 = 26;

pub(crate) const THE_FOR: u8 = 28;

pub(crate) const THE_FROM: u8 = 29;

pub(crate) const THE_GLOBAL: u8 = 30;

pub(crate) const THE_IF: u8 = 31;

pub(crate) const THE_IMPORT: u8 = 32;

pub(crate) const THE_IN: u8 = 33;

pub(crate) const THE_IS: u8 = 34;

pub(crate) const THE_NOT: u8 = 37;

pub(crate) const THE_OR: u8 = 38;

pub(crate) const THE_PASS: u8 = 39;

pub(crate) const THE_RAISE: u8 = 40;

pub(crate) const THE_RETURN: u8 = 41;

pub(crate) const THE_TRY: u8 = 42;

pub(crate) const THE_WHILE: u8 = 43;

pub(crate) const THE_YIELD: u8 = 45;

pub(crate) const THE_DOUBLE_SLASH_EQUAL: u8 = 47;

pub(crate) const THE_DOUBLE_STAR_EQUAL: u8 = 48;

pub(crate) const THE_LEFT_SHIFT_EQUAL: u8 = 49;

pub(crate) const THE_RIGHT_SHIFT_EQUAL: u8 = 50;

pub(crate) const THE_DOUBLE_SLASH: u8 = 52;

pub(crate) const THE_DOUBLE_STAR: u8 = 53;

pub(crate) const THE_LEFT_SHIFT: u8 = 54;

pub(crate) const THE_RIGHT_SHIFT: u8 = 55;

pub(crate) const THE_LESS_EQUAL: u8 = 56;

pub(crate) const THE_GREATER_EQUAL: u8 = 57;

pub(crate) const THE_EQUAL_EQUAL: u8 = 58;

pub(crate) const THE_NOT_EQUAL: u8 = 59;

pub(crate) const THE_PLUS_EQUAL: u8 = 60;

pub(crate) const THE_MINUS_EQUAL: u8 = 61;

pub(crate) const THE_STAR_EQUAL: u8 = 62;

pub(crate) const THE_PERCENT_EQUAL: u8 = 63;

pub(crate) const THE_AMPERSAND_EQUAL: u8 = 64;

pub(crate) const THE_BAR_EQUAL: u8 = 65;

pub(crate) const THE_CARET_EQUAL: u8 = 66;

pub(crate) const THE_PLUS: u8 = 71;

pub(crate) const THE_MINUS: u8 = 72;

pub(crate) const THE_STAR: u8 = 73;

pub(crate) const THE_PERCENT: u8 = 74;

pub(crate) const THE_AMPERSAND: u8 = 75;

pub(crate) const THE_BAR: u8 = 76;

pub(crate) const THE_CARET: u8 = 77;

pub(crate) const THE_TILDE: u8 = 78;

pub(crate) const THE_LESS: u8 = 79;

pub(crate) const THE_GREATER: u8 = 80;

pub(crate) const THE_OPEN_PARENTHESIS: u8 = 81;

pub(crate) const THE_CLOSE_PARENTHESIS: u8 = 82;

pub(crate) const THE_OPEN_BRACKET: u8 = 83;

pub(crate) const THE_CLOSE_BRACKET: u8 = 84;

pub(crate) const THE_OPEN_BRACE: u8 = 85;

pub(crate) const THE_CLOSE_BRACE: u8 = 86;

pub(crate) const THE_COMMA: u8 = 87;

pub(crate) const THE_COLON: u8 = 88;

pub(crate) const THE_DOT: u8 = 89;

pub(crate) const THE_SEMICOLON: u8 = 90;

pub(crate) const THE_EQUAL: u8 = 91;
