//! Laws on scripts of networks whose nodes crash.

ghost use Rattle.grasp_script_kept.specs.Laws.{KeptLinesMeanOneThing, TextsHaveOneKeptScript};

/// A line means one thing at most.
pub fn kept_lines_mean_one_thing()
    ensures { KeptLinesMeanOneThing }
{}

/// A text is at most one script.
pub fn texts_have_one_kept_script()
    ensures { TextsHaveOneKeptScript }
{}
