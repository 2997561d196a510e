//! What `==` answers.

ghost use Rattle.grasp_types.specs.Same.{EqualIsSame};

/// Two addresses, two locators and two origins are equal exactly where they are one value.
pub fn equal_is_same()
    ensures { EqualIsSame }
{}
