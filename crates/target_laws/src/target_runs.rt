//! What the callers' core may rely on of the code of a target that erases to a text in normal form.

ghost use Rattle.target_laws.specs.target_runs.Sane.{RunnableIsSane};

/// Wherever a path of a target that callers may run leads, the instruction is within the limits and in form, and control stays inside its
/// method; local code settles within the method's length; and a put goes to a node that is fresh on each path to it.
pub fn runnable_is_sane()
    ensures { RunnableIsSane }
{}
