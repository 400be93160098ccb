//! That what is emitted is read back, and that its places are elements of arrays.

ghost use Rattle.oac_cli.specs.Emitted.{EmittedReadsBack, EmittedPlacesStandApart};

/// The bytes of an emitted header say the claims of the text's kinds, line by line.
pub fn emitted_reads_back()
    ensures { EmittedReadsBack }
{}

/// In each pool for the text the printed places are elements inside their arrays, of which no two words share one.
pub fn emitted_places_stand_apart()
    ensures { EmittedPlacesStandApart }
{}
