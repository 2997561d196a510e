//! What is so of the scripts that are drawn from numbers. It says nothing at run time.

ghost use Rattle.grasp_laws_draws.specs.Generated.{DrawnTextsAreScripts};

/// Whatever the number is, the text that is drawn from it is a script of 16 nodes and 20,000 lines.
#[tactic(auto, using(crate::proofs::Drawn::drawn_texts_are_scripts))]
pub fn drawn_texts_are_scripts()
    ensures { DrawnTextsAreScripts }
{}
