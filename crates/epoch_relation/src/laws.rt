//! Laws of callers that announce the phase in which their operations begin.
//!
//! The relation says what is known of the words that callers share, of names beside them, and of each caller beside the source machine,
//! which runs the text on memory that is never recycled. A sweep frees a slot only if its node was retired before each phase that is
//! announced (Fraser, "Practical Lock-Freedom", 2004), so that no caller is warned, and none checks what it loads.

ghost use Rattle.epoch_relation.specs.Laws.{SafeIsResident, RegistersAreResident, StepsKeep, WorldsBegin, WorldsStep, CallsAreTaken};
ghost use Rattle.epoch_relation.specs.Simulated.{RunsAreSimulated};

/// What a caller that has announced a phase may hold is resident: null, what stands in its cradles, and what was published and wasn't
/// retired before it announced. So is what its registers name while it runs a method, the base of each load among it.
pub fn what_is_held_is_resident()
    ensures safe { SafeIsResident }
    ensures registers { RegistersAreResident }
{}

/// Each access that a caller makes keeps the relation, be it one of an announcement, of the text, of a list, of a retirement, of a claim and
/// its sweeps or of a `new`; and the source's caller plays the signs of the step.
pub fn steps_keep()
    ensures { StepsKeep }
{}

/// A step that is kept for its caller leaves what is known of all others, and so does a call that an idle caller takes.
pub fn worlds_go_on()
    ensures steps { WorldsStep }
    ensures calls { CallsAreTaken }
{}

/// The first state of the core stands beside the source's: nobody has announced a phase, and initial nodes have the first slots of their
/// kinds.
pub fn worlds_begin()
    ensures { WorldsBegin }
{}

/// Every run of a proper text under epochs, run as it is, is simulated: its image is a run of the source that leads to the source state of
/// its shadow, the replies of each caller agree with it, and each exchange that a caller makes next succeeds exactly if the source's
/// does. The base of each load that a caller makes next is null or resident: nobody has recycled it.
pub fn runs_are_simulated()
    ensures { RunsAreSimulated }
{}
