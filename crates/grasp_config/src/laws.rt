//! Laws of configurations.

ghost use Rattle.grasp_config.specs.Laws.{TextsHaveOneConfig, TextsHaveOneBadKey, ConfigsHaveNoBadKey, TextsAreConfigsOrBad, EndpointsAreRead, RootsAreRead, ConfigsAreInRange};

/// A text has at most one configuration.
pub fn texts_have_one_config()
    ensures { TextsHaveOneConfig }
{}

/// A text has at most one first bad key.
pub fn texts_have_one_bad_key()
    ensures { TextsHaveOneBadKey }
{}

/// A text that has a configuration has no bad key.
pub fn configs_have_no_bad_key()
    ensures { ConfigsHaveNoBadKey }
{}

/// A text has a configuration, or a first bad key.
pub fn texts_are_configs_or_bad()
    ensures { TextsAreConfigsOrBad }
{}

/// The words `ADDRESS:PORT` and `ADDRESS/LENGTH` are read as what they are written for, and no others are.
pub fn endpoints_and_roots_are_read()
    ensures endpoints { EndpointsAreRead }
    ensures roots { RootsAreRead }
{}

/// Each part of a configuration is within its limits.
pub fn configs_are_in_range()
    ensures { ConfigsAreInRange }
{}
