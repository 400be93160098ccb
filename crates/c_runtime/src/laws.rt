//! That the lines of a claim make the accesses of a claim.

ghost use Rattle.c_runtime.specs.KindLines.{KindsAreFound};
ghost use Rattle.c_runtime.specs.Laws.{ClaimsAreMade, ClaimsFit, ClaimsKeepCradles};

/// A caller that runs the lines of a claim makes, one after another, the accesses of the claim, as long as the claim fits the pool. It makes
/// others only where the claim raises a warning: a load that finds a low word, after which comes the exchange, and an exchange that finds
/// another word than was loaded. They change nothing.
pub fn claims_are_made()
    ensures { ClaimsAreMade }
{}

/// The claim that begins fits the pool, and so does each that goes on after a word that it may be told. Its accesses are to words of the row,
/// and different ends return different words: a slot that was taken isn't null.
pub fn claims_fit()
    ensures { ClaimsFit }
{}

/// A claim leaves the cradles of its caller as they are.
pub fn claims_keep_cradles()
    ensures { ClaimsKeepCradles }
{}

/// The tests of a slot against the first slots of the kinds find its kind.
pub fn kinds_are_found()
    ensures { KindsAreFound }
{}
