//! What is true of sites, book and clients that are known by their lists alone, of an accepted workload.

ghost use Rattle.homeo_assembly.specs.Laws.{Assembly, LocalEvent, SiteRenewal, CleanupEvent, Moving, SiteStart, BookStart};
ghost use Rattle.homeo_assembly.specs.Written.{ReadBack};

/// Where the lists of sites, book and clients are found equal, the closed rounds and the sites make a legal history, in which
/// each client's answers stand.
pub fn equal_lists_make_a_history()
    ensures { Assembly }
{}

/// A local call keeps what its site keeps, where the site gives its answer.
pub fn local_calls_keep_sites()
    ensures { LocalEvent }
{}

/// A site keeps what it keeps when it goes on to the next round, where all that it answered is closed.
pub fn renewals_keep_sites()
    ensures { SiteRenewal }
{}

/// A call that closes the round keeps what sites and book keep, and their lists are found equal again.
pub fn closing_calls_keep_all()
    ensures { CleanupEvent }
{}

/// While a round is closed, the answers to a site's entries may go over to the closed ones one by one.
pub fn answers_go_over_one_by_one()
    ensures { Moving }
{}

/// A site keeps what it keeps before any call.
pub fn sites_begin_so()
    ensures { SiteStart }
{}

/// So does the book.
pub fn the_book_begins_so()
    ensures { BookStart }
{}

/// A client's answers, written as numbers, read back as they were.
pub fn answers_read_back()
    ensures { ReadBack }
{}
