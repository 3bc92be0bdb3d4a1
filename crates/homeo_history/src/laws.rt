//! What holds of merges, of histories, and of their answers.

ghost use Rattle.homeo_history.specs.Laws.{MergeLaw, FoldWithin, ReplaysAreSerial, OneHistory, AnswersStand, Serially};

/// Where each segment of a round is of calls of clients at its site, which in the replay keep the site's treaty with
/// the entries' prints, every merge of the segments, run on the round's base, gives these prints, and the fold of the
/// base with the deltas that the replays end with.
pub fn merges_are_serial()
    ensures { MergeLaw }
{}

/// That fold is within bounds.
pub fn folds_stay_within_bounds()
    ensures { FoldWithin }
{}

/// Replayed rounds from a database within bounds are serial, where each closing call takes its round's fold to the next
/// base, and the last database is the last round's fold.
pub fn replayed_rounds_are_serial()
    ensures { ReplaysAreSerial }
{}

/// Two legal histories from one database that follow one list of calls are equal.
pub fn histories_are_one()
    ensures { OneHistory }
{}

/// The answers of a legal history to a client are those to its first calls, in order, as many as the history has. Each
/// is that of its call: where its path is `Local`, the call stands in its site's segment with these prints and does not
/// close the round, and where it is `Cleanup`, the call closes the round with this finding.
pub fn answers_stand()
    ensures { AnswersStand }
{}

/// A legal history is a serial one in which each client's calls are its first, in order, and the other way round.
pub fn legal_histories_are_serial_in_order()
    ensures { Serially }
{}
