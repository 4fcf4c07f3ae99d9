//! Laws about histories that are checked. Each function does nothing: what it ensures follows from the definitions.

ghost use Rattle.audit_check.specs.Laws as law;

/// A history is legal where each of its entries has its place, and the verdict that the requests before it give.
pub fn legal_entries_make_a_legal_history()
    ensures { law.LegalEntriesMakeALegalHistory }
{}

/// A history that agrees with the answers that were kept is legal, where the entries from before the passes began are.
pub fn what_agrees_is_legal()
    ensures { law.WhatAgreesIsLegal }
{}

/// A history that agrees with the answers that were kept begins with the entries from before the passes.
pub fn what_agrees_goes_on_from_the_opening()
    ensures { law.WhatAgreesGoesOnFromTheOpening }
{}

/// A history that agrees with the answers that were kept pairs its entries since the passes began with the changes that were told: each of
/// these entries was told, and by a receipt of its own, and each change that was told is one of them, and one of its own.
pub fn what_agrees_loses_nothing()
    ensures told { law.EntriesWereTold }
    ensures entries { law.EntriesHaveReceiptsOfTheirOwn }
    ensures kept { law.ChangesAreEntries }
    ensures changes { law.ChangesHaveEntriesOfTheirOwn }
{}
