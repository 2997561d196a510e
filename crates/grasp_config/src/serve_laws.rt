//! Laws of configurations of nodes that serve.

ghost use Rattle.grasp_config.specs.ServeLaws.{TextsHaveOneServe, ServesHaveNoBadKey, TextsServeOrBad, ServesAreInRange};

/// A text has at most one configuration of a node that serves.
pub fn texts_have_one_serve()
    ensures { TextsHaveOneServe }
{}

/// A text that has a configuration of a node that serves has no bad key.
pub fn serves_have_no_bad_key()
    ensures { ServesHaveNoBadKey }
{}

/// A text has a configuration of a node that serves, or a first bad key.
pub fn texts_serve_or_bad()
    ensures { TextsServeOrBad }
{}

/// Each part of a configuration of a node that serves is within its limits.
pub fn serves_are_in_range()
    ensures { ServesAreInRange }
{}
