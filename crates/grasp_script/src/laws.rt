//! Laws on the lines of scripts, and on scripts.

ghost use Rattle.grasp_script.specs.Laws.{LinesMeanOneThing, EachActHasOneLine, TextsHaveOneScript, TextsHaveOneBadLine, ScriptsHaveNoBadLine};

/// A line means one thing at most.
pub fn lines_mean_one_thing()
    ensures { LinesMeanOneThing }
{}

/// What a line can mean has exactly one line.
pub fn each_act_has_one_line()
    ensures { EachActHasOneLine }
{}

/// A text is at most one script.
pub fn texts_have_one_script()
    ensures { TextsHaveOneScript }
{}

/// A text has at most one bad line.
pub fn texts_have_one_bad_line()
    ensures { TextsHaveOneBadLine }
{}

/// A text that is a script has no bad line.
pub fn scripts_have_no_bad_line()
    ensures { ScriptsHaveNoBadLine }
{}
