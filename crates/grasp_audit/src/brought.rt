//! Events that are named only where they bring to a node what a line says.

ghost use Rattle.std.specs.Prelude.{◌≡◌, ◌&&◌, if◌then◌else◌, Some, None};

use grasp_model_network::Event;

/// The event, where it brings that.
pub(crate) fn named_if(yes: bool, event: Event) -> Option<Event>
    ensures { result ≡ (if yes then Some event else None) }
{
    if yes { Some(event) } else { None }
}

/// The event, where both parts are as the line says.
pub(crate) fn named_if_both(one: bool, other: bool, event: Event) -> Option<Event>
    ensures { result ≡ (if one && other then Some event else None) }
{
    if one { named_if(other, event) } else { None }
}
