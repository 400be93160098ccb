//! Laws of states up to names.

ghost use Rattle.state_images.specs.Tests.{ImagesAreTested};
ghost use Rattle.state_images.specs.Closed.{ClosedIsProper};
ghost use Rattle.state_images.specs.Images.{LocalRunsAreRenamed, LoadsAreRenamed, GoodStatesStandFor, ImagesSimulate, ImagesJoin};

/// Local code does the same under other names.
pub fn local_runs_are_renamed()
    ensures { LocalRunsAreRenamed }
{}

/// A load finds the same under other names.
pub fn loads_are_renamed()
    ensures { LoadsAreRenamed }
{}

/// A state is proper for which a proper one stands.
pub fn good_states_stand_for()
    ensures { GoodStatesStandFor }
{}

/// What a state does, its image does.
pub fn images_simulate()
    ensures { ImagesSimulate }
{}

/// An image of an image is one.
pub fn images_join()
    ensures { ImagesJoin }
{}

/// If what is found holds the start, is closed under the events that are tried, and is proper, every run of the scripts is proper.
pub fn closed_is_proper()
    ensures { ClosedIsProper }
{}

/// What the test of an image tells.
pub fn images_are_tested()
    ensures { ImagesAreTested }
{}
