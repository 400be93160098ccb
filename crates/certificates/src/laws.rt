//! What holds of certificates and their spellings.

ghost use Rattle.certificates.specs.CertificateLaws.{CertificatesAreRead, WhatIsReadIsTold};

/// What is read of the spelling of a certificate is the same certificate, but for the lines of its document's calls.
pub fn certificates_are_read()
    ensures { CertificatesAreRead }
{}

/// A certificate that is read is one whose spelling is read back: its events and replies are such as lines say, and it has a list of replies
/// for each script.
pub fn what_is_read_is_told()
    ensures { WhatIsReadIsTold }
{}
