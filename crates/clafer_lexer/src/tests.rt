//! Worked texts.

use crate::{lay, lex};
use clf_base::{Fault, List};
use clf_tree::{Token, TokenKind};
use std::alloc::{AllocError, Global};
use std::fmt::Write;
use std::test::Fail;

/// The tokens in one line, each with its place and bytes.
fn show_tokens(alloc: Global, tokens: &List<Token>) -> Result<String, AllocError> {
    let mut shown = String::new(alloc);
    for token in tokens.as_slice() {
        match &token.kind {
            TokenKind::Name(_) => write!(shown, "name")?,
            TokenKind::Number(value) => write!(shown, "{value}")?,
            TokenKind::Word(word) => write!(shown, "{word:?}")?,
            TokenKind::Sign(sign) => write!(shown, "{sign:?}")?,
            TokenKind::Open => write!(shown, "(")?,
            TokenKind::Close => write!(shown, ")")?,
            TokenKind::Next => write!(shown, "|")?,
            TokenKind::End => write!(shown, "end")?,
        }
        let (line, column, from, to) = (token.at.line, token.at.column, token.from, token.to);
        write!(shown, " {line}:{column} {from}-{to}, ")?;
    }
    Ok(shown)
}

fn show_fault(alloc: Global, fault: Fault) -> Result<String, AllocError> {
    let mut shown = String::new(alloc);
    match fault {
        Fault::Refused(refusal) => {
            let (code, line, column, value) = (
                refusal.code,
                refusal.at.line,
                refusal.at.column,
                refusal.value,
            );
            write!(shown, "E{code} {line}:{column} {value}")?
        }
        Fault::NoMemory => write!(shown, "no memory")?,
    }
    Ok(shown)
}

fn show_lexed(alloc: Global, text: &[u8]) -> Result<String, AllocError> {
    if text.len() > 1048576 {
        return Ok(String::new(alloc));
    }
    match lex(alloc, text) {
        Ok(tokens) => show_tokens(alloc, &tokens),
        Err(fault) => show_fault(alloc, fault),
    }
}

fn show_laid(alloc: Global, text: &[u8]) -> Result<String, AllocError> {
    if text.len() > 1048576 {
        return Ok(String::new(alloc));
    }
    match lex(alloc, text) {
        Ok(tokens) => match lay(alloc, &tokens) {
            Ok(laid) => show_tokens(alloc, &laid),
            Err(fault) => show_fault(alloc, fault),
        },
        Err(fault) => show_fault(alloc, fault),
    }
}

#[test]
fn cuts_texts(rt: HostRuntime) -> Result<(), Fail> {
    let cases: [(&[u8], &str); 20] = [
        (b"", "end 1:1 0-0, "),
        (
            b"a->>b",
            "name 1:1 0-1, BagArrow 1:2 1-4, name 1:5 4-5, end 1:6 5-5, ",
        ),
        (
            b"if iffy 0012..*",
            "If 1:1 0-2, name 1:4 3-7, 12 1:9 8-12, DotDot 1:13 12-14, Star 1:15 14-15, end 1:16 15-15, ",
        ),
        (
            b"a\t\tb\r\n\tc",
            "name 1:1 0-1, name 1:17 3-4, name 2:9 7-8, end 2:10 8-8, ",
        ),
        (
            b"a // x\n/* y\n */b",
            "name 1:1 0-1, name 3:4 15-16, end 3:5 16-16, ",
        ),
        (b"/* \xc3\xa9 */ a", "name 1:9 9-10, end 1:10 10-10, "),
        (
            b"x'_1 <=> <= < =>",
            "name 1:1 0-4, Iff 1:6 5-8, LessEqual 1:10 9-11, Less 1:13 12-13, Implies 1:15 14-16, end 1:17 16-16, ",
        ),
        (b"a\n \xff b", "E11 2:2 3"),
        (b"a\x80", "E11 1:2 1"),
        (b"\xc3\xa9\xe2\x82", "E11 1:2 2"),
        (b"a\tb\xf0\x9f\x98", "E11 1:10 3"),
        (b"\xc0\xaf /* b", "E11 1:1 0"),
        (b"ab\xed\xa0\x80", "E11 1:3 2"),
        (b"abc\xf4\x90\x80\x80", "E11 1:4 3"),
        (b"\xef\xbb\xbfa", "E20 1:1 0"),
        (b"a & b", "E20 1:3 0"),
        (b"a /* b", "E21 1:3 0"),
        (b"/*/", "E21 1:1 0"),
        (b"a 2147483648", "E22 1:3 0"),
        (
            b"2147483647a",
            "2147483647 1:1 0-10, name 1:11 10-11, end 1:12 11-11, ",
        ),
    ];
    for (text, want) in &cases {
        let shown = show_lexed(rt.alloc(), *text)?;
        assert_eq!(rt; shown.as_str(), *want);
    }
    Ok(())
}

#[test]
fn lays_texts(rt: HostRuntime) -> Result<(), Fail> {
    let cases: [(&[u8], &str); 12] = [
        (b"", "end 1:1 0-0, "),
        (b"a\n    b\n  c", "E30 3:3 3"),
        (b"a\n    b\n  [ b ]\n", "E30 3:3 3"),
        (b"  a\nb", "E30 2:1 1"),
        (
            b"a\r\n\tb // c\r\n\n        d\n   ",
            "name 1:1 0-1, ( 2:9 4-4, name 2:9 4-5, | 4:9 21-21, name 4:9 21-22, ) 5:4 26-26, end 5:4 26-26, ",
        ),
        (
            b"a\nb",
            "name 1:1 0-1, | 2:1 2-2, name 2:1 2-3, end 2:2 3-3, ",
        ),
        (
            b"a\n  b\nc",
            "name 1:1 0-1, ( 2:3 4-4, name 2:3 4-5, ) 3:1 6-6, | 3:1 6-6, name 3:1 6-7, end 3:2 7-7, ",
        ),
        (
            b"a\n  b\n   c",
            "name 1:1 0-1, ( 2:3 4-4, name 2:3 4-5, ( 3:4 9-9, name 3:4 9-10, ) 3:5 10-10, ) 3:5 10-10, end 3:5 10-10, ",
        ),
        (
            b"a { b; c }",
            "name 1:1 0-1, ( 1:3 2-3, name 1:5 4-5, | 1:6 5-6, name 1:8 7-8, ) 1:10 9-10, end 1:11 10-10, ",
        ),
        (
            b"  a\n{\nb }\n  c",
            "name 1:3 2-3, ( 2:1 4-5, name 3:1 6-7, ) 3:3 8-9, | 4:3 12-12, name 4:3 12-13, end 4:4 13-13, ",
        ),
        (
            b"[ (a;\nb] ; c) ; d",
            "BracketOpen 1:1 0-1, ParenOpen 1:3 2-3, name 1:4 3-4, Semicolon 1:5 4-5, name 2:1 6-7, BracketClose 2:2 7-8, Semicolon 2:4 9-10, name 2:6 11-12, ParenClose 2:7 12-13, | 2:9 14-15, name 2:11 16-17, end 2:12 17-17, ",
        ),
        (b"{ a", "( 1:1 0-1, name 1:3 2-3, end 1:4 3-3, "),
    ];
    for (text, want) in &cases {
        let shown = show_laid(rt.alloc(), *text)?;
        assert_eq!(rt; shown.as_str(), *want);
    }
    Ok(())
}
