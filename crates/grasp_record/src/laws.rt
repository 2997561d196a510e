//! Laws on the lines of records.

ghost use Rattle.grasp_record.specs.Laws.{RecordLinesMeanOneThing, EachRecordHasOneLine};

/// A line means one thing at most.
pub fn record_lines_mean_one_thing()
    ensures { RecordLinesMeanOneThing }
{}

/// What a line can mean has exactly one line.
pub fn each_record_has_one_line()
    ensures { EachRecordHasOneLine }
{}
