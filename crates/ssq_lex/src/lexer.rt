//! Cuts a text into tokens, up to its first fault.

ghost use Rattle.std.specs.Prelude.{◌≡◌, ◌+◌, ◌<◌, ◌^◌, ◌++◌, map, IfOk, OnOk};
ghost use Rattle.std.specs.Option.{option_map};
ghost use Rattle.ssq_lex.specs.Answer.{Gives, cut_by};
ghost use Rattle.ssq_lex.specs.Cut.{cut_of, tokens_of, token_at};
ghost use Rattle.ssq_lex.specs.Lexeme.{lexeme, lexed};
ghost use Rattle.ssq_lex.specs.Sayable.{AreTokensOf, TokensAreSayable};

use crate::fault::{LexFault, Refusal};
use crate::front::{Front, front_of};
use crate::token::Token;
use std::alloc::{AllocError, Global};

/// Adds the token that a front at a place is, if it is one.
fn add<'a>(found: &mut Vec<Token<'a>>, at: usize, front: &Front<'a>) -> Result<(), AllocError>
    requires { at + front.now.len < 2 ^ 64 }
    ensures { OnOk result (map lexed found.new.items
        ≡ map lexed found.old.items ++ token_at at front.now.len (option_map lexeme front.now.kind)) }
{
    if let Some(kind) = front.kind {
        found.push(Token {
            start: at,
            end: at + front.len,
            kind,
        })?;
    }
    Ok(())
}

/// The tokens of a text in order, up to its first fault.
#[derive(Drop)]
pub struct Lexical<'a> {
    /// All tokens in front of the fault.
    pub tokens: Vec<Token<'a>>,
    /// None where the whole text is cut.
    pub fault: Option<Refusal>,
}

/// The tokens of a text in order up to its first fault, and that fault.
///
/// Blanks are space, tab, CR and LF. A comment goes from `--` up to a line feed. The longest symbol is taken.
/// Places are counted in bytes.
pub fn tokens_to_fault(alloc: Global, text: &str) -> Result<Lexical<'_>, AllocError>
    ensures cut { IfOk result (λ found. cut_by found ≡ cut_of text.now) }
    ensures sound { IfOk result (λ found. AreTokensOf text.now (map lexed found.tokens.items)) }
{
    let mut tokens = Vec::new(alloc);
    let mut at = 0;
    let mut rest = text;
    while !rest.is_empty() {
        match front_of(rest) {
            Ok(front) => {
                add(&mut tokens, at, &front)?;
                at += front.len;
                rest = front.rest;
            }
            Err(cause) => {
                let fault = Some(Refusal { at, cause });
                return Ok(Lexical { tokens, fault });
            }
        }
    }
    Ok(Lexical {
        tokens,
        fault: None,
    })
}

/// All tokens of a text in order, or its first fault, as [`tokens_to_fault`] cuts it.
#[tactic(auto, unfolding(crate::specs::Cut::tokens_of))]
pub fn tokens(alloc: Global, text: &str) -> Result<Vec<Token<'_>>, LexFault>
    ensures answer { Gives result (tokens_of text.now) }
    ensures sound { IfOk result (λ tokens. AreTokensOf text.now (map lexed tokens.items)) }
{
    let found = tokens_to_fault(alloc, text)?;
    match found.fault {
        Some(Refusal { at, cause }) => Err(LexFault::Refused { at, cause }),
        None => Ok(found.tokens),
    }
}

/// The tokens of a text, up to its first fault, say words that [`crate::Printer`] can say again.
pub fn tokens_are_sayable()
    ensures { TokensAreSayable }
{}
