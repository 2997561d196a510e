//! Laws on the lines of requests.

ghost use Rattle.grasp_control.specs.Laws.{RequestsMeanOneThing, RequestsAreTheirWords, RequestsGoWrongOnce};

/// A line means one thing at most, and a request's line is its words.
pub fn requests_mean_one_thing()
    ensures meaning { RequestsMeanOneThing }
    ensures words { RequestsAreTheirWords }
{}

/// A line goes wrong at one place at most.
pub fn requests_go_wrong_once()
    ensures { RequestsGoWrongOnce }
{}
