//! What a caller may trust of its registers.

ghost use Rattle.target_laws.specs.Trusted.{TrustIsKnown, TrustedWhereRead, CarriedAreTrusted};

/// A register can be trusted exactly if it is clean along the caller's path, and was set along it or carried over to the
/// method. Each that an instruction reads can be, and at a commit each that the wrap-up carries over.
pub fn reads_are_trusted()
    ensures known { TrustIsKnown }
    ensures read { TrustedWhereRead }
    ensures carried { CarriedAreTrusted }
{}
