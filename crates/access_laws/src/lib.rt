//! Who may do what in a pod, whatever its state: laws of access for the crates above.
//!
//! ```ignore
//! access_laws::owner_keeps_control();   // the owner may always change the root's list
//! ```
//!
//! Proved of the definitions of access (`pod_access`), for each well-formed pod: the owner has
//! Control of the root, and so each request for the root's access list has a basis for each of its
//! needs ([`owner_keeps_control`]); in a new pod the owner has every mode at every path, and nobody
//! else has any ([`new_pods_are_the_owners`]); a ground and a basis are there exactly where the mode
//! is granted ([`bases_are_grants`]); and the words of `WAC-Allow` are exactly the modes that are
//! granted, those of an access list all four or none ([`words_are_grants`]).
//!
//! The functions do nothing: their contracts are the laws. They depend on `pod_access` for the
//! definitions, and on `first_rows` for a new pod.
#![tactic(auto)]

ghost use Rattle.access_laws.specs.Laws.{BasesAreGrants, GroundsAreGrants};
ghost use Rattle.access_laws.specs.Laws.{ListWordsAreControl, OthersHaveNothing};
ghost use Rattle.access_laws.specs.Laws.{OwnerChangesRootList, OwnerControlsRoot};
ghost use Rattle.access_laws.specs.Laws.{OwnerHasEverything, WordsAreGrants};

/// The owner of a well-formed pod has Control of the root, so that no change shuts the owner out.
pub fn owner_keeps_control()
    ensures control { OwnerControlsRoot }

    // So each request for the root's list has a basis for each of its needs.
    ensures list { OwnerChangesRootList }
{}

/// In a new pod the owner has every mode at every path, and nobody else has any.
pub fn new_pods_are_the_owners()
    ensures owner { OwnerHasEverything }
    ensures others { OthersHaveNothing }
{
    pod_rows::first_pods_are_well_formed();
    pod_rows::laws::rows_law();
}

/// A ground and a basis of access exist exactly where the mode is granted.
pub fn bases_are_grants()
    ensures grounds { GroundsAreGrants }
    ensures bases { BasesAreGrants }
{}

/// The words of `WAC-Allow` are the modes that are granted.
pub fn words_are_grants()
    ensures words { WordsAreGrants }

    // For an access list each word is there exactly where Control of its subject is granted.
    ensures lists { ListWordsAreControl }
{}
