//! Texts between quotes, where two quotes stand for one.

ghost use Rattle.std.specs.Prelude.{◌≡◌, ◌≤◌, [], ◌∷◌, ◌++◌, length, IfOk, OnOk, string_bytes};
ghost use Rattle.ssq_lex.specs.Lexeme.{undoubled, doubled};

use std::alloc::{AllocError, Global};

/// What stands after a quote and the second one that may follow it.
fn behind_quote(rest: &str) -> &str
    ensures value { undoubled (39 ∷ rest.now) ≡ 39 ∷ undoubled result.now }
    ensures shorter { length result.now ≤ length rest.now }
{
    match rest.strip_prefix('\'') {
        Some(behind) => behind,
        None => rest,
    }
}

/// What the content of a quoted text says: two quotes one after the other are one.
pub fn unquoted(alloc: Global, content: &str) -> Result<String, AllocError>
    ensures { IfOk result (λ text. string_bytes text ≡ undoubled content.now) }
{
    let mut text = String::new(alloc);
    let mut rest = content;
    while let Some((before, after)) = rest.split_once('\'') {
        text.push_str(before)?;
        text.push_str("'")?;
        rest = behind_quote(after);
    }
    text.push_str(rest)?;
    Ok(text)
}

/// Adds a text between quotes, with each quote in it twice.
pub fn push_quoted(out: &mut String, text: &str) -> Result<(), AllocError>
    ensures { OnOk result (string_bytes out.new ≡ string_bytes out.old ++ 39 ∷ doubled text.now ++ 39 ∷ []) }
{
    out.push_str("'")?;
    let mut rest = text;
    while let Some((before, after)) = rest.split_once('\'') {
        out.push_str(before)?;
        out.push_str("''")?;
        rest = after;
    }
    out.push_str(rest)?;
    out.push_str("'")?;
    Ok(())
}
