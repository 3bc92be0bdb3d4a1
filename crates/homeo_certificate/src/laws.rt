//! What is true of all certificates.

ghost use Rattle.homeo_certificate.specs.Laws.{ValidIsSound, ValidTextIsSound, TextReadsBack, OneCertificate, OneVerdict};

/// A certificate without faults is sound.
pub fn valid_certificates_are_sound()
    ensures { ValidIsSound }
{}

/// Bytes whose verdict is that they are valid are a sound certificate.
pub fn valid_texts_are_sound()
    ensures { ValidTextIsSound }
{}

/// The text of a certificate in shape reads back as its JSON value.
pub fn texts_read_back()
    ensures { TextReadsBack }
{}

/// A JSON value is that of at most one certificate in shape.
pub fn values_are_of_one_certificate()
    ensures { OneCertificate }
{}

/// Bytes have at most one verdict.
pub fn bytes_have_one_verdict()
    ensures { OneVerdict }
{}
