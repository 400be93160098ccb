//! Wrong sets.

ghost use Rattle.wrong_sets.specs.Wrong.{unmarking, moving, walking, unchecking, IsAccepted, UnmarkingIsImproper, MovingIsImproper, WalkingIsImproper, UncheckingIsImproper};

/// A set whose removal takes its node out in one exchange, without a mark, isn't proper.
pub fn unmarking_is_improper()
    ensures { UnmarkingIsImproper }
{}

/// Nor is one whose removal has two exchanges, of which the first writes back what it found.
pub fn moving_is_improper()
    ensures { MovingIsImproper }
{}

/// Nor is one whose search takes marked references as it finds them, and walks on.
pub fn walking_is_improper()
    ensures { WalkingIsImproper }
{}

/// Nor is one whose insert makes its node lead to the node after the one that its exchange expects.
pub fn unchecking_is_improper()
    ensures { UncheckingIsImproper }
{}

/// The rules accept each of the four: it is a text within the limits, and in normal form.
pub fn wrong_sets_are_accepted()
    ensures unmarking { IsAccepted unmarking }
    ensures moving { IsAccepted moving }
    ensures walking { IsAccepted walking }
    ensures unchecking { IsAccepted unchecking }
{}
