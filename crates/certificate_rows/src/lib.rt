//! Certificates worked out by hand, which the definitions of signs, images and certificates are held against.
#![tactic(auto)]

ghost use Rattle.certificate_rows.specs.CounterCertificates.{CounterCertificate, ToldSigns};

/// The counter's certificate: `add 5` alone.
pub fn counter_certificate()
    ensures { CounterCertificate }
{}

/// What steps of the counter tell the source machine, one by one.
pub fn told_signs()
    ensures { ToldSigns }
{}
