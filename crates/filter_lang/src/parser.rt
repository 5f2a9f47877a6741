//! The filter that a text is.

ghost use Rattle.std.specs.Prelude.{◌≡◌, IfOk, IfErr};
ghost use Rattle.filter_lang.specs.FilterView.{filter_of, Answers};
ghost use Rattle.filter_lang.specs.FaultView.{IsRefusedAt, IsPlaceIn};
ghost use Rattle.filter_lang.specs.Texts.{IsFilterText};

use crate::fault::FilterFault;
use crate::filter::Filter;
use crate::lexer::lex;
use crate::parse_fault::ParseFault;
use crate::reader::Reader;
use crate::token::Token;
use std::alloc::Global;

/// The filter that tokens are, or the place of the first token with which no filter goes on.
fn parse_tokens<'a>(alloc: Global, tokens: &'a [Token<'a>]) -> Result<Filter, ParseFault>
    ensures { Answers tokens.now result }
{
    Reader { alloc, tokens }.filter()
}

/// The filter whose text this is: `EVENT[,EVENT..][:CONDITION]`, as trace-cmd-report(1) has it under `-F`, with the
/// operators of C.
///
/// # Errors
///
/// [`FilterFault::At`] exactly where the text is no filter, with the place where it is refused; else only want of
/// memory.
pub fn parse_filter(alloc: Global, text: &[u8]) -> Result<Filter, FilterFault>
    ensures found { IfOk result (λ f. IsFilterText text.now (filter_of f)) }
    ensures refused { IfErr result (λ e. IsRefusedAt text.now e) }
    ensures within { IfErr result (λ e. IsPlaceIn text.now e) }
{
    let lexed = lex(alloc, text)?;
    match parse_tokens(alloc, &lexed.tokens) {
        Ok(filter) => {
            if lexed.end < text.len() {
                return Err(FilterFault::At(lexed.end as u64));
            }
            Ok(filter)
        }
        Err(ParseFault::Before(at)) => Err(FilterFault::At(lexed.place(at) as u64)),
        Err(ParseFault::Memory) => Err(FilterFault::Memory),
    }
}
