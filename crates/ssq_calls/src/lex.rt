//! Worked texts, and their tokens or their first fault.

use ssq_lex::{
    Keyword, LexCause, Printer, Refusal, Symbol, push_quoted, tokens, tokens_to_fault, unquoted,
};
use std::alloc::Global;
use std::test::Fail;

/// The tokens of a text with their places, or its fault.
fn shown(alloc: Global, text: &str) -> Result<String, Fail> {
    match tokens(alloc, text) {
        Ok(found) => {
            let mut out = String::new(alloc);
            for token in &found {
                write!(out, "{}-{} {:?} ", token.start, token.end, token.kind)?;
            }
            Ok(out)
        }
        Err(fault) => Ok(format!(in alloc; "{fault}")?),
    }
}

#[test]
fn cuts_texts(rt: HostRuntime) -> Result<(), Fail> {
    let rows = [
        ("", ""),
        ("a<=1", "0-1 Name(\"a\") 1-3 Symbol(AtMost) 3-4 Number(1) "),
        ("'x", "Unclosed at 0"),
        ("a ?", "BadChar at 2"),
        (
            "( ) , ; .",
            "0-1 Symbol(LeftParen) 2-3 Symbol(RightParen) 4-5 Symbol(Comma) 6-7 Symbol(Semicolon) 8-9 Symbol(Dot) ",
        ),
        (
            "+-*%||",
            "0-1 Symbol(Plus) 1-2 Symbol(Minus) 2-3 Symbol(Star) 3-4 Symbol(Percent) 4-6 Symbol(Concat) ",
        ),
        (
            "<>!=<=>=",
            "0-2 Symbol(NotEqual) 2-4 Symbol(NotEqual) 4-6 Symbol(AtMost) 6-8 Symbol(AtLeast) ",
        ),
        (
            "= < > >",
            "0-1 Symbol(Equal) 2-3 Symbol(Less) 4-5 Symbol(Greater) 6-7 Symbol(Greater) ",
        ),
        ("<", "0-1 Symbol(Less) "),
        (">", "0-1 Symbol(Greater) "),
        ("a|", "BadChar at 1"),
        ("a|b|", "BadChar at 1"),
        ("!", "BadChar at 0"),
        ("! =", "BadChar at 0"),
        (
            "sElEcT selects SELECT",
            "0-6 Keyword(Select) 7-14 Name(\"selects\") 15-21 Keyword(Select) ",
        ),
        ("_a1 1a", "0-3 Name(\"_a1\") 4-5 Number(1) 5-6 Name(\"a\") "),
        (
            "9223372036854775807 007",
            "0-19 Number(9223372036854775807) 20-23 Number(7) ",
        ),
        ("a 009223372036854775808", "BadNumber at 2"),
        ("'it''s' ''", "0-7 Text(\"it''s\") 8-10 Text(\"\") "),
        ("''''", "0-4 Text(\"''\") "),
        ("a'''", "Unclosed at 1"),
        ("'a''", "Unclosed at 0"),
        ("'\u{e9}\n'", "0-5 Text(\"\u{e9}\\n\") "),
        ("-- ?", ""),
        ("a--", "0-1 Name(\"a\") "),
        ("--\u{e9}\r?\n?", "BadChar at 7"),
        (
            "a\t\r\n - -b",
            "0-1 Name(\"a\") 5-6 Symbol(Minus) 7-8 Symbol(Minus) 8-9 Name(\"b\") ",
        ),
        ("a \u{e9}", "BadChar at 2"),
        ("\u{b}", "BadChar at 0"),
        ("? 'x", "BadChar at 0"),
    ];
    for (text, want) in rows {
        let found = shown(rt.alloc(), text)?;
        assert_eq!(rt; found.as_str(), want, "at {text}");
    }
    Ok(())
}

#[test]
fn keeps_tokens_before_a_fault(rt: HostRuntime) -> Result<(), Fail> {
    let found = tokens_to_fault(rt.alloc(), "a + ?")?;
    assert_eq!(rt; found.tokens.len(), 2);
    let cause = LexCause::BadChar;
    assert_eq!(rt; found.fault, Some(Refusal { at: 4, cause }));
    Ok(())
}

#[test]
fn quotes_and_unquotes(rt: HostRuntime) -> Result<(), Fail> {
    let text = unquoted(rt.alloc(), "it''s")?;
    assert_eq!(rt; text.as_str(), "it's");
    let mut out = String::from_str(rt.alloc(), "FROM ")?;
    push_quoted(&mut out, text.as_str())?;
    assert_eq!(rt; out.as_str(), "FROM 'it''s'");
    Ok(())
}

#[test]
fn prints_words(rt: HostRuntime) -> Result<(), Fail> {
    let mut printer = Printer::new(rt.alloc());
    printer.keyword(Keyword::Sum);
    printer.symbol(Symbol::LeftParen);
    printer.name("s");
    printer.symbol(Symbol::Dot);
    printer.name("v");
    printer.symbol(Symbol::RightParen);
    printer.symbol(Symbol::Star);
    printer.symbol(Symbol::LeftParen);
    printer.symbol(Symbol::Minus);
    printer.number(5);
    printer.symbol(Symbol::RightParen);
    printer.symbol(Symbol::Comma);
    printer.keyword(Keyword::Interval);
    printer.quoted("it's");
    printer.symbol(Symbol::Semicolon);
    let text = printer.into_string()?;
    assert_eq!(rt; text.as_str(), "SUM(s.v) * (- 5), INTERVAL 'it''s';");
    Ok(())
}
