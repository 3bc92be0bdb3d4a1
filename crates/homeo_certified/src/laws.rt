//! What is true of the certificates of an accepted workload's rounds.

ghost use Rattle.homeo_certified.specs.Laws.{CertifiedHasNoFault, CertifiedIsValid};

/// The certificate of each round of an accepted workload, at a base within bounds and with bounds that fit, has no fault.
pub fn certified_rounds_have_no_fault()
    ensures { CertifiedHasNoFault }
{}

/// Where a text reads as the workload, and its names can be numbered in 32 bits, no verdict but that it is valid is true of the
/// certificate's text.
pub fn certified_rounds_are_valid()
    ensures { CertifiedIsValid }
{}
