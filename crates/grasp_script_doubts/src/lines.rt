//! Reading the lines of a script of a network of doubters.

ghost use Rattle.std.specs.Prelude.{◌≡◌, IfOk, IfSome, IfNone, true, false};
ghost use Rattle.std.specs.Str.{IsUtf8};
ghost use Rattle.grasp_script_doubts.specs.Lines.{HasNoPlain, IsDoubtLine, IsNoDoubtLine, makes_own};
ghost use Rattle.grasp_script_doubts.specs.declared.line.DoubtLineAct.TheVariants as act;

use crate::line::{DoubtLine, DoubtLineAct};
use crate::words::read_doubts;
use grasp_cbor::{Chars, OutOfMemory};
use grasp_model_network::Event;
use grasp_script::{Line, LineAct, read_line};
use grasp_text::{WordFault, Words};
use std::alloc::Global;

/// The number of the agent of prefixes.
const PREFIXES: u32 = 1;

/// The number of the doubter.
const DOUBTER: u32 = 2;

/// What a line is, in a script of so many nodes, or `None` where no line behind the header reads so.
pub fn read_doubt_line(
    alloc: Global,
    line: &[u8],
    nodes: u8,
) -> Result<Option<DoubtLine>, OutOfMemory>
    ensures text { IfOk result (λ o. IfSome o (λ x. x.text ≡ line.now)) }
    ensures found { IfOk result (λ o. IfSome o (λ x. IsDoubtLine nodes line.now x.act)) }
    ensures none { IfOk result (λ o. IfNone o (IsNoDoubtLine nodes line.now)) }
{
    let mut words = Words::of(line);
    match read_doubts(&mut words, nodes) {
        Ok(act) => with_text(alloc, line, act),
        Err(WordFault::Unfit { .. }) => read_plain(alloc, line, nodes),
        Err(WordFault::OutOfMemory) => Err(OutOfMemory),
    }
}

/// The line with what it means, or `None` where it is no text.
fn with_text(
    alloc: Global,
    line: &[u8],
    act: DoubtLineAct,
) -> Result<Option<DoubtLine>, OutOfMemory>
    ensures text { IfOk result (λ o. IfSome o (λ x. x.text ≡ line.now)) }
    ensures act { IfOk result (λ o. IfSome o (λ x. x.act ≡ act)) }
    ensures utf8 { IfOk result (λ o. IfSome o (λ x. IsUtf8 line.now)) }
    ensures none { IfOk result (λ o. IfNone o (¬ IsUtf8 line.now)) }
{
    match Chars::of_bytes(alloc, line)? {
        Some(text) => Ok(Some(DoubtLine { text, act })),
        None => Ok(None),
    }
}

/// The line as one of any script, or `None` where it is none, or one that makes a call for an agent of the node's own.
fn read_plain(alloc: Global, line: &[u8], nodes: u8) -> Result<Option<DoubtLine>, OutOfMemory>
    ensures text { IfOk result (λ o. IfSome o (λ x. x.text ≡ line.now)) }
    ensures found { IfOk result (λ o. IfSome o (λ x. IsDoubtLine nodes line.now x.act)) }
    ensures none { IfOk result (λ o. IfNone o (HasNoPlain nodes line.now)) }
{
    match read_line(alloc, line, nodes)? {
        Some(line) => Ok(plain_line(line)),
        None => Ok(None),
    }
}

/// The line of any script as one of a network of doubters, or `None` where it makes a call for an agent of the node's own.
fn plain_line(line: Line) -> Option<DoubtLine>
    ensures text { IfSome result (λ x. x.text ≡ line.text) }
    ensures act { IfSome result (λ x. x.act ≡ act.Plain line.act) }
    ensures other { IfSome result (λ x. makes_own line.act ≡ false) }
    ensures none { IfNone result (makes_own line.act ≡ true) }
{
    if makes_own(&line.act) {
        return None;
    }
    Some(DoubtLine {
        text: line.text,
        act: DoubtLineAct::Plain(line.act),
    })
}

/// Whether the line makes a call for an agent of the node's own.
fn makes_own(act: &LineAct) -> bool
    ensures { result ≡ makes_own act.now }
{
    match act {
        LineAct::Event(Event::Api { asa, .. }) => *asa == PREFIXES || *asa == DOUBTER,
        _ => false,
    }
}
