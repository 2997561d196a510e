//! Laws on scripts of networks of doubters.

ghost use Rattle.grasp_script_doubts.specs.Laws.{DoubtLinesMeanOneThing, TextsHaveOneDoubtScript};

/// A line means one thing at most.
pub fn doubt_lines_mean_one_thing()
    ensures { DoubtLinesMeanOneThing }
{}

/// A text is at most one script.
pub fn texts_have_one_doubt_script()
    ensures { TextsHaveOneDoubtScript }
{}
