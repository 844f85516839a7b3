// The theorems, each on the contract of a function that does nothing: that it is proved says that the theorem holds.
ghost use Rattle.law.specs.Promise.{EqualArchives, EqualKeeps, EqualSearches, FiledIsFound, FoundStaysFound, NumbersFit};
ghost use Rattle.law.specs.Rules.{LawStands};

// Two searches for one key are equal exactly when nothing accepted in between touched what the first one found.
pub fn searches_equal_exactly_when_untouched()
    ensures { EqualSearches }
{}

// Two archives with equal settings are equal exactly when their histories agree.
pub fn archives_equal_exactly_when_histories_agree()
    ensures { EqualArchives }
{}

// Where histories agree, two keeps of one make with equal numbers hold equal bytes.
pub fn keeps_hold_equal_bytes_when_histories_agree()
    ensures { EqualKeeps }
{}

// A filed sheet is found, where it was filed, until its group is retired.
pub fn filed_is_found_until_retired()
    ensures { FiledIsFound }
{}

// What a search found it finds again, until the group is retired.
pub fn found_stays_found_until_retired()
    ensures { FoundStaysFound }
{}

// The filings are no more than the written cells, so that filing numbers and slots fit their bytes.
pub fn numbers_fit_their_bytes()
    ensures { NumbersFit }
{}

// Each call, by its rule, goes on with every history that leads to it.
pub fn rules_keep_the_law()
    ensures { LawStands }
{}
