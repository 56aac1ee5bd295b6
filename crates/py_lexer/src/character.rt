//! Characters, and what a text begins with.

ghost use Rattle.std.specs.Prelude.{◌≡◌, ◌≤◌, length};
ghost use Rattle.py_tokens.specs.Characters as spec;
ghost use Rattle.py_lexer.specs.Digits.{is_digit_of};

pub(crate) fn is_digit(c: char) -> bool
    ensures { result ≡ spec.is_digit c }
{
    '0' <= c && c <= '9'
}

pub(crate) fn is_hexadecimal(c: char) -> bool
    ensures { result ≡ spec.is_hexadecimal c }
{
    is_digit(c) || ('a' <= c && c <= 'f') || ('A' <= c && c <= 'F')
}

/// What a digit counts, in either case of the letters.
pub(crate) fn digit_value(c: char) -> u32
    ensures { result ≡ spec.digit_value c }
{
    let code = u32::from(c);
    if c <= '9' {
        code.saturating_sub(48)
    } else if c <= 'F' {
        code.saturating_sub(55)
    } else {
        code.saturating_sub(87)
    }
}

/// Whether a control character may not stand outside texts.
pub(crate) fn is_control(c: char) -> bool
    ensures { result ≡ spec.is_control c }
{
    (c < ' ' && c != '\t') || ('\u{7f}' <= c && c <= '\u{9f}')
}

pub(crate) fn is_quote(c: char) -> bool
    ensures { result ≡ spec.is_quote c }
{
    c == '\'' || c == '"'
}

pub(crate) fn begins_name(c: char) -> bool
    ensures { result ≡ spec.begins_name c }
{
    c == '_'
        || (if c.is_ascii() {
            c.is_ascii_alphabetic()
        } else {
            unicode_ident::is_xid_start(c)
        })
}

pub(crate) fn continues_name(c: char) -> bool
    ensures { result ≡ spec.continues_name c }
{
    if c.is_ascii() {
        c.is_ascii_alphanumeric() || c == '_'
    } else {
        unicode_ident::is_xid_continue(c)
    }
}

/// How many characters the line end has with which a text begins, or 0.
pub(crate) fn line_end(text: &[char]) -> usize
    ensures { result ≡ spec.line_end text.now }
{
    let Some((first, after)) = text.split_first() else {
        return 0;
    };
    if *first == '\n' {
        return 1;
    }
    match after.split_first() {
        Some((second, _)) => if *first == '\r' && *second == '\n' {
            2
        } else {
            0
        },
        None => 0,
    }
}

/// How many characters stand before the first line end.
pub(crate) fn len_to_line_end(text: &[char]) -> usize
    ensures value { result ≡ length (spec.to_line_end text.now) }
    ensures within { result ≤ length text.now }
{
    let mut rest = text;
    let mut n: usize = 0;
    while let Some((_, after)) = rest.split_first() {
        if line_end(rest) != 0 {
            return n;
        }
        n += 1;
        rest = after;
    }
    n
}

/// The digits of a base, or zeros alone.
#[derive(Clone, Copy)]
pub(crate) enum Digits {
    Zero,
    Binary,
    Octal,
    Decimal,
    Hexadecimal,
}

impl Digits {
    pub(crate) fn has(self, c: char) -> bool
        ensures { result ≡ is_digit_of self c }
    {
        match self {
            Digits::Zero => c == '0',
            Digits::Binary => '0' <= c && c < '2',
            Digits::Octal => '0' <= c && c < '8',
            Digits::Decimal => is_digit(c),
            Digits::Hexadecimal => is_hexadecimal(c),
        }
    }
}

/// How long the longest front of digits is, with single underscores between them and before the first.
fn grouped_further(digits: Digits, text: &[char]) -> usize
    ensures value { result ≡ spec.grouped_further (is_digit_of digits) text.now }
    ensures within { result ≤ length text.now }
{
    let mut rest = text;
    let mut n: usize = 0;
    while let Some((first, after)) = rest.split_first() {
        if digits.has(*first) {
            n += 1;
            rest = after;
        } else {
            match after.split_first() {
                Some((second, behind)) => {
                    if *first != '_' || !digits.has(*second) {
                        return n;
                    }
                    n += 2;
                    rest = behind;
                }
                None => return n,
            }
        }
    }
    n
}

/// How long the longest front of digits is, with single underscores between them.
pub(crate) fn grouped(digits: Digits, text: &[char]) -> usize
    ensures value { result ≡ spec.grouped (is_digit_of digits) text.now }
    ensures within { result ≤ length text.now }
{
    match text.split_first() {
        Some((first, after)) => if digits.has(*first) {
            grouped_further(digits, after) + 1
        } else {
            0
        },
        None => 0,
    }
}
