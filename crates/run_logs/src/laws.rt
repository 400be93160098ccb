//! What is written down is what the simulation says.

ghost use Rattle.run_logs.specs.LogLaws.{LogsAreShadows, StepsAreShadows};

/// The signs of a step that runs, written down one after another, are the events that the simulation gives to the source for them.
pub fn logs_are_shadows()
    ensures { LogsAreShadows }
{}

/// So it is of each step in a state of the core, on the words that stand there.
pub fn steps_are_shadows()
    ensures { StepsAreShadows }
{}
