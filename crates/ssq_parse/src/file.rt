//! The query that a file is.

ghost use Rattle.std.specs.Prelude.{◌≡◌, ◌≤◌, length, map, IfErr, IfOk};
ghost use Rattle.std.specs.Str.{IsUtf8};
ghost use Rattle.ssq_ast.specs.declared.query.Query.{Query};
ghost use Rattle.ssq_lex.specs.Cut.{cut_of};
ghost use Rattle.ssq_lex.specs.Lexeme.{lexed};
ghost use Rattle.ssq_parse.specs.Again.{HasFile, TextIsParsed};
ghost use Rattle.ssq_parse.specs.Faults.{StandsAt};
ghost use Rattle.ssq_parse.specs.File as spec;
ghost use Rattle.ssq_parse.specs.File.{Answers};

use crate::fault::{ParseCause, ParseFault, Stop};
use crate::query::query;
use crate::reader::Reader;
use ssq_ast::{Query, text_is_read_again, text_is_sayable};
use ssq_lex::{LexCause, Refusal, printed_is_read, tokens_are_sayable, tokens_to_fault};
use std::alloc::Global;

/// A query file has at most so many bytes.
const MOST_BYTES: usize = 65_536;

fn cause_of(cause: LexCause) -> ParseCause
    ensures { result ≡ spec.as_cause cause }
{
    match cause {
        LexCause::BadChar => ParseCause::BadChar,
        LexCause::BadNumber => ParseCause::BadNumber,
        LexCause::Unclosed => ParseCause::Unclosed,
    }
}

/// The fault at the end of the tokens, where more of them are expected.
fn ended(len: usize, fault: Option<Refusal>) -> ParseFault
    ensures { result ≡ spec.fault_of (spec.ended len fault) }
{
    match fault {
        Some(Refusal { at, cause }) => ParseFault::Refused {
            at,
            cause: cause_of(cause),
        },
        None => ParseFault::Refused {
            at: len,
            cause: ParseCause::Expected,
        },
    }
}

/// What the tokens of a file are, with the fault after them.
fn judged(
    len: usize,
    fault: Option<Refusal>,
    found: Result<Query, Stop>,
) -> Result<Query, ParseFault>
    ensures { spec.Judges len fault found result }
{
    match found {
        Err(
            Stop::Refused {
                at: Some(at),
                cause,
            },
        ) => Err(ParseFault::Refused { at, cause }),
        Err(Stop::Refused { at: None, .. }) => Err(ended(len, fault)),
        Err(Stop::NoMemory) => Err(ParseFault::NoMemory),
        Ok(query) => match fault {
            None => Ok(query),
            Some(_) => {
                drop(query);
                Err(ended(len, fault))
            }
        },
    }
}

/// The query that a text is.
fn parse_text(alloc: Global, text: &str) -> Result<Query, ParseFault>
    ensures { Answers (spec.judged_cut (length text.now) (cut_of text.now)) result }
{
    let found = tokens_to_fault(alloc, text)?;
    let read = query(alloc, &mut Reader::new(found.tokens.as_slice()));
    judged(text.len(), found.fault, read)
}

/// Reads a query file, as it is written: a query and the places of its parts in the file.
///
/// # Errors
///
/// [`ParseFault::Refused`] tells the first fault of a file that is no query. A file of over 65,536 bytes is
/// [`ParseCause::TooLong`], else one that is no UTF-8 is [`ParseCause::NotUtf8`]. Of the other faults the one with the
/// least place counts.
#[tactic(auto, unfolding(crate::specs::File::query_of))]
pub fn parse(alloc: Global, file: &[u8]) -> Result<Query, ParseFault>
    ensures answer { Answers (spec.query_of file.now) result }
    // the query is written so in the file, by the grammar
    ensures written { IfOk result (λ query. spec.IsQuery file.now query) }
    // and each query that is written so is found: a file that is refused is written as none
    ensures each { (query : Query) → spec.IsQuery file.now query → spec.Finds query result }
    // where something else is expected, no query goes on like this; nor with a text that is no span or no time where one has to
    // stand; what is too deep is the 65th bracket that stands open, or an operator with which a tree is 65 high
    ensures first { IfErr result (StandsAt file.now) }
    // the text of the query is read as that query, places aside
    ensures again { IfOk result HasFile }
{
    if file.len() > MOST_BYTES {
        return Err(ParseFault::Refused {
            at: MOST_BYTES,
            cause: ParseCause::TooLong,
        });
    }
    match str::from_utf8(file) {
        Ok(text) => {
            text_is_parsed();
            parse_text(alloc, text)
        }
        Err(error) => Err(ParseFault::Refused {
            at: error.valid_up_to(),
            cause: ParseCause::NotUtf8,
        }),
    }
}

/// The canonical text of a query that [`parse`] gave is read as that query, places aside, where it has at most 65,536
/// bytes.
pub fn text_is_parsed()
    ensures { TextIsParsed }
{
    tokens_are_sayable();
    printed_is_read();
    text_is_read_again();
    text_is_sayable();
}
