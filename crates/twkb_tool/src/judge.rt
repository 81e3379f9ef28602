//! Whether a file is a certified layer, and the text that says so. Used by `run` and `status`.
ghost use Rattle.std.specs.Prelude.{◌≡◌, ◌≤◌, List, length, IfOk, IfErr, IsOkUnless};
ghost use Rattle.twkb_body.specs.Geometry.{Geometry};
ghost use Rattle.twkb_layer.specs.Refusal.{IsRefusedFor, NamesKind};
ghost use Rattle.twkb_tool.specs.Output.{IsOutput, IsAccepted, IsTrueFor};
ghost use Rattle.twkb_tool.specs.Words.{HoldsWindows};

use crate::request::Request;
use crate::run::MAX_FILE;
use crate::text::{push_layer_text, push_no_line};
use std::alloc::{AllocError, Allocator};
use twkb_layer::{Certified, Cursor, Refusal, certify_tight_with, certify_with};

/// Whether a file is a certified layer.
#[derive(Clone, Copy, Debug, PartialEq, Eq)]
pub enum Verdict {
    Yes,
    No,
}

/// Judges the bytes of a file: the text to print, and the verdict.
pub fn answer<'a, A: Allocator>(
    alloc: &'a A,
    request: &Request,
    bytes: &[u8],
) -> Result<(Vec<u8, &'a A>, Verdict), AllocError>
    requires windows { HoldsWindows request.now }
    requires small { length bytes.now ≤ MAX_FILE }
    ensures { IfOk result (λ answer. IsOutput request.now bytes.now answer.0.items answer.1) }
{
    let mut text = Vec::new(alloc);
    match certified(alloc, request, bytes) {
        Ok(mut layer) => {
            push_layer_text(alloc, &mut text, request, &mut layer)?;
            Ok((text, Verdict::Yes))
        }
        Err(Refusal::No { blob, offset, kind }) => {
            push_no_line(&mut text, blob, offset, kind)?;
            Ok((text, Verdict::No))
        }
        Err(Refusal::Memory) => Err(AllocError),
    }
}

/// Certifies the bytes for a request, or returns why they are refused.
fn certified<'b, A: Allocator>(
    mut alloc: &A,
    request: &Request,
    bytes: &'b [u8],
) -> Result<Certified<'b>, Refusal>
    ensures accepted { IfOk result (λ layer. (trees : List Geometry) × IsAccepted request.now trees bytes.entry.now) }
    ensures bytes { IfOk result (λ layer. layer.bytes ≡ bytes.entry.now) }
    ensures read { IfOk result (λ layer. layer.count ≤ length bytes.entry.now) }
    ensures refused { IfErr result (λ refusal. IsRefusedFor (IsTrueFor request.now) refusal bytes.entry.now) }
    ensures kinds { IfErr result (NamesKind 9) }
    ensures complete { (trees : List Geometry) → IsAccepted request.now trees bytes.entry.now
        → IsOkUnless result Refusal.Memory }
{
    let cursor = Cursor::new(bytes);
    match request {
        Request::CheckTight => certify_tight_with(&mut alloc, cursor),
        Request::Check | Request::List | Request::Scan(_) => certify_with(&mut alloc, cursor),
    }
}
