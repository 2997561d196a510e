//! Writing the reports of crashes.

ghost use Rattle.std.specs.Prelude.{◌≡◌, ◌++◌, ◌∷◌, OnOk, OnErr, IfOk, codes, string_bytes};
ghost use Rattle.grasp_cbor.specs.Extends.{Extends};
ghost use Rattle.grasp_text.specs.Words.{spaced};
ghost use Rattle.grasp_script.specs.Answers.{prefix_words};
ghost use Rattle.grasp_script_kept.specs.Reports.{image_words, told_restart};

use grasp_cbor::{Chars, OutOfMemory};
use grasp_pool::{PoolImage, PrefixList};
use grasp_text::{push_prefix, push_word};
use std::alloc::Global;

/// The report of a crash: its line, ` = restarted ` and the prefixes that the node holds and has in doubt as it begins anew, as words
/// with one blank between two.
pub fn told_restart(alloc: Global, line: &Chars, image: &PoolImage) -> Result<Chars, OutOfMemory>
    ensures { IfOk result (λ text. text ≡ told_restart line.now image.now) }
{
    let mut out = String::from_str(alloc, line.text())?;
    push_restart(alloc, &mut out, image)?;
    Chars::of(alloc, out.as_str())
}

/// Appends the part of the report behind the line.
#[tactic(auto, using(grasp_script::proofs::Pushed::pushes))]
fn push_restart(alloc: Global, out: &mut String, image: &PoolImage) -> Result<(), OutOfMemory>
    ensures text { OnOk result (string_bytes out.new ≡ string_bytes out.old ++ spaced (codes "=" ∷ codes "restarted" ∷ image_words image.now)) }
    ensures err { OnErr result (Extends (string_bytes out.old) (string_bytes out.new)) }
{
    push_word(out, "=")?;
    push_word(out, "restarted")?;
    push_image(alloc, out, image)
}

/// Appends the prefixes of an image, each word behind a blank.
fn push_image(alloc: Global, out: &mut String, image: &PoolImage) -> Result<(), OutOfMemory>
    ensures text { OnOk result (string_bytes out.new ≡ string_bytes out.old ++ spaced (image_words image.now)) }
    ensures err { OnErr result (Extends (string_bytes out.old) (string_bytes out.new)) }
{
    push_held(alloc, out, &image.free)?;
    push_doubt(alloc, out, &image.doubtful)
}

/// Appends `held` and the prefixes, each behind a blank.
#[tactic(auto, using(grasp_script::proofs::Pushed::pushes))]
fn push_held(alloc: Global, out: &mut String, prefixes: &PrefixList) -> Result<(), OutOfMemory>
    ensures text { OnOk result (string_bytes out.new ≡ string_bytes out.old ++ spaced (codes "held" ∷ prefix_words prefixes.now)) }
    ensures err { OnErr result (Extends (string_bytes out.old) (string_bytes out.new)) }
{
    push_word(out, "held")?;
    push_all(alloc, out, prefixes)
}

/// Appends `doubt` and the prefixes, each behind a blank.
#[tactic(auto, using(grasp_script::proofs::Pushed::pushes))]
fn push_doubt(alloc: Global, out: &mut String, prefixes: &PrefixList) -> Result<(), OutOfMemory>
    ensures text { OnOk result (string_bytes out.new ≡ string_bytes out.old ++ spaced (codes "doubt" ∷ prefix_words prefixes.now)) }
    ensures err { OnErr result (Extends (string_bytes out.old) (string_bytes out.new)) }
{
    push_word(out, "doubt")?;
    push_all(alloc, out, prefixes)
}

/// Appends the prefixes, each behind a blank.
fn push_all(alloc: Global, out: &mut String, prefixes: &PrefixList) -> Result<(), OutOfMemory>
    ensures text { OnOk result (string_bytes out.new ≡ string_bytes out.old ++ spaced (prefix_words prefixes.now)) }
    ensures err { OnErr result (Extends (string_bytes out.old) (string_bytes out.new)) }
{
    for i in 0..prefixes.len() {
        let Some(prefix) = prefixes.at(i) else {
            unreachable!()
        };
        push_prefix(alloc, out, *prefix)?;
    }
    Ok(())
}
