//! Laws of the images that are kept.

ghost use Rattle.grasp_laws_store.specs.Disks.{BeforeReopens, BehindReopens, CurrentImagesStay};
ghost use Rattle.grasp_laws_store.specs.Images.{ImagesReopen, AcceptingReopens, RepliesReopen};
ghost use Rattle.grasp_laws_store.specs.Ordering.{ImagesAreInOrder, PoolsHaveTheirImages};
ghost use Rattle.grasp_laws_store.specs.Saves.{SavesDo};
ghost use Rattle.grasp_laws_store.specs.Stopping.{StopsCutShort, StopsNoEarlier};

/// An agent may be opened anew by the image of its pool.
pub fn images_reopen()
    ensures { ImagesReopen }
{}

/// An agent may be opened anew by the image that is kept before its next call.
pub fn accepting_reopens()
    ensures { AcceptingReopens }
{}

/// Whatever happens to an agent, the image that is kept meanwhile may open the agent anew that it then is: whatever its call is
/// answered, and where it is told to want or to return a prefix.
pub fn replies_reopen()
    ensures { RepliesReopen }
{}

/// Each image that a crash may leave at any moment of `before` and of `after` may open the agent anew as it then is.
pub fn kept_images_may_reopen()
    ensures before { BeforeReopens }
    ensures behind { BehindReopens }
{}

/// Each image that is kept of an agent is one that a pool can have, and in order.
pub fn images_are_in_order()
    ensures { ImagesAreInOrder }
{}

/// A pool that is opened by an image in order has this image: a node that begins anew need not save it.
pub fn pools_have_their_images()
    ensures { PoolsHaveTheirImages }
{}

/// A crash at any moment of a save leaves what was current, or what the save puts there; behind it the latter is current.
pub fn saves_do()
    ensures { SavesDo }
{}

/// A crash between two calls of a keeper that has answered no fault leaves the current image: then all that was written is synced.
pub fn current_images_stay()
    ensures { CurrentImagesStay }
{}

/// Where a disk in memory was to stop after so many calls, calls that a keeper has to make are cut short exactly where there are
/// more of them. Then so many were made, and a crash leaves what it would leave behind these.
pub fn stops_are_exact()
    ensures short { StopsCutShort }
    ensures all { StopsNoEarlier }
{}
