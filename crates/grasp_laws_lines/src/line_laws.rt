//! Laws of the lines of scripts with crashes and with doubters. They say nothing at run time.

ghost use Rattle.grasp_laws_lines.specs.Lines.{EachCrashHasOneLine, EachDoubtActHasOneLine};

/// Each crash that a script may have has exactly one line: its words with one blank between two of them.
pub fn each_crash_has_one_line()
    ensures { EachCrashHasOneLine }
{}

/// So has each thing that a line of a script of doubters may mean.
pub fn each_doubt_act_has_one_line()
    ensures { EachDoubtActHasOneLine }
{}
