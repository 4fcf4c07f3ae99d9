//! Laws about access control lists. Each function does nothing: what it ensures follows from the definitions.

ghost use Rattle.default_acl.specs.Laws as law;

use permission_specs::spec_text::specs_have_one_spelling;

/// A directory's list shows the mode that it was given, and a file's the same without the sticky bit, whether it is extended or not.
pub fn modes_are_shown()
    ensures directories { law.DirectoriesShowTheirMode }
    ensures files { law.FilesShowTheirMode }
{}

/// A list that was cleared shows all that it has as a mode: it has no named entries and no default list.
pub fn clear_leaves_a_mode()
    ensures { law.ClearedListsArePlain }
{}

/// To modify a list once more by the same spec changes nothing.
pub fn modify_twice_is_once()
    ensures { law.ModifyingAgainChangesNothing }
{}

/// A directory's list that is set to the entries of another takes over the other's access entries, and its default list where it
/// has one. The sticky bit stays, and so does a default list where the other has none.
pub fn setting_to_entries_copies()
    ensures { law.SettingToEntriesCopies }
{}

/// The text of a list's entries is read as those entries, and setting a directory's list to what is read is setting it to them. So
/// a list without a default list becomes equal to the one that was printed, but for the sticky bit, of which the text says nothing. It is
/// told of lists whose rights have three bits and whose names are those of users and groups, as the types of both keep it.
pub fn what_is_printed_is_set_again()
    ensures { law.WhatIsPrintedIsSetAgain }
{
    specs_have_one_spelling();
}

/// What is made in a directory has the directory's default list as its own, if it is a directory, and none if it is a file.
pub fn default_lists_are_passed_on()
    ensures directories { law.DirectoriesTakeDefaultListsOn }
    ensures files { law.FilesHaveNoDefaultList }
{}

/// Where the entry that decides is a named one or the owning group's, it grants no right that the mask lacks.
pub fn masks_bound_what_is_granted()
    ensures { law.MasksBoundWhatIsGranted }
{}

/// A caller who is neither the owner nor a named user, and is in no group that the list names, is judged by the entry of all others
/// alone.
pub fn strangers_are_others()
    ensures { law.StrangersAreOthers }
{}
