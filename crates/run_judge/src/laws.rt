//! What holds of certificates that are made.

ghost use Rattle.run_judge.specs.Short.{ShortIsTold};

/// A line that tells of a replay is short exactly if some call of the replay's certificate didn't return.
pub fn short_is_told()
    ensures { ShortIsTold }
{}
