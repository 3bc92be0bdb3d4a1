//! What holds of outputs, and of calls that end themselves.

ghost use Rattle.homeo.specs.Ended.{EndedKeepsTreaty, EndedClosesNoRound};
ghost use Rattle.homeo.specs.Laws.{MadeIsValid, OneOutput, ValidIsSound};

/// Two outputs of a command on the same bytes are equal, but for those of `run`, whose threads may make the calls in any order.
/// Under `steps` the schedule tells their order, and two legal histories that follow one list of calls are equal; a load's output
/// is a function of its words, whichever calls met in which round.
pub fn outputs_are_one()
    ensures { OneOutput }
{}

/// Of each certificate that `certify` makes, `verify` says that it is valid.
pub fn made_certificates_are_valid()
    ensures { MadeIsValid }
{}

/// Where `verify` says that bytes are valid, they are a sound certificate, but for a newline at their end.
pub fn valid_bytes_are_sound()
    ensures { ValidIsSound }
{}

/// A call that ends itself by `abort` on what its site sees, the base with the site's own deltas, keeps the site's treaty: so its site
/// answers it alone.
pub fn ended_calls_keep_treaties()
    ensures { EndedKeepsTreaty }
{}

/// No round of a legal history is closed by a call that ends itself by `abort`, run on what the calls of all sites have left in the
/// round.
pub fn ended_calls_close_no_round()
    ensures { EndedClosesNoRound }
{}
