//! What follows from the definitions: the contracts of these functions are laws, and they do
//! nothing.
ghost use Rattle.std.specs.Prelude.{◌≡◌, ◌↔◌, ◌⊎◌, ◌∷◌, [], ℕ, Bool, List, IsSome, IsTrue};
ghost use Rattle.std.specs.Prelude.{None, Some, false, true, map};
ghost use Rattle.acl_rules.specs.declared.rule.How.TheVariants.{Own, Inherited};
ghost use Rattle.pod_command.specs.declared.row.Row.{Row};
ghost use Rattle.pod_path.specs.Hierarchy.{IsInside, parent_of, root, subject_of};
ghost use Rattle.pod_path.specs.Norm.{IsPath};
ghost use Rattle.pod_rows.specs.Access.{Governs, about, effective_of, governed};
ghost use Rattle.pod_rows.specs.Pod.{is_row};
ghost use Rattle.access_index.specs.Governing.{effective_among, governs_among, handed_down};
ghost use Rattle.access_index.specs.Governing.{has_list};
ghost use Rattle.access_index.specs.Listing.{is_listed};
ghost use Rattle.access_index.specs.Reach.{AgreeBeside, is_reached, is_within};

/// The law that the access list in force for a path of a pod is that among its rows.
pub fn rows_law()
    ensures effective { (rows : List Row) (path : List ℕ)
        → effective_of rows path ≡ effective_among (is_row rows) path }
    ensures listed { (rows : List Row) (path : List ℕ)
        → is_row rows path ≡ is_listed (map (λ row. row.path) rows) path }
{}

/// The law that the access list in force depends on which paths have lists. A path without a list
/// of its own has that of its parent, and an access list and a description that of their subject.
/// Every path has one where the root has.
pub fn governing_law()
    ensures same { (is_row other : List ℕ → Bool) (path : List ℕ)
        → ((q : List ℕ) → has_list is_row q ≡ has_list other q)
        → effective_among is_row path ≡ effective_among other path }
    ensures own { (is_row : List ℕ → Bool) (path : List ℕ) → subject_of path ≡ None
        → has_list is_row path ≡ true
        → effective_among is_row path ≡ Some (governed path Own) }
    ensures parent { (is_row : List ℕ → Bool) (path above : List ℕ) → IsPath path
        → subject_of path ≡ None → parent_of path ≡ Some above → has_list is_row path ≡ false
        → effective_among is_row path ≡ handed_down (effective_among is_row above) }
    ensures auxiliary { (is_row : List ℕ → Bool) (path subject : List ℕ) → IsPath path
        → subject_of path ≡ Some subject
        → effective_among is_row path ≡ effective_among is_row subject }
    ensures some { (is_row : List ℕ → Bool) (path : List ℕ) → IsPath path
        → has_list is_row root ≡ true → IsSome (effective_among is_row path) }
{}

/// The law that a path is within another one, which a change of an access list reaches, where it is
/// that one, or the other is an ancestor.
pub fn within_law()
    ensures { (path other : List ℕ)
        → IsTrue (is_within path other) ↔ ((path ≡ other) ⊎ IsInside path other) }
{}

/// The law of which access lists in force a change of lists leaves, and which it changes.
pub fn changes_law()
    // Where a path is not reached, its list stays.
    ensures stays { (before after : List ℕ → Bool) (subjects : List (List ℕ)) (path : List ℕ)
        → AgreeBeside before after subjects → is_reached subjects path ≡ false
        → effective_among before path ≡ effective_among after path }

    // A list that is nearer than the added or removed one stays.
    ensures nearer { (before after : List ℕ → Bool) (subject path : List ℕ) (list : Governs)
        → AgreeBeside before after (subject ∷ []) → effective_among before path ≡ Some list
        → IsInside list.at subject → effective_among after path ≡ Some list }

    // Where another list was removed, the list stays.
    ensures other { (before after : List ℕ → Bool) (subject path : List ℕ) (list : Governs)
        → AgreeBeside before after (subject ∷ []) → has_list after subject ≡ false
        → effective_among before path ≡ Some list → (list.at ≡ subject → ⊥)
        → effective_among after path ≡ Some list }

    // Where the list in force was removed, the subject's new one is inherited.
    ensures removed { (before after : List ℕ → Bool) (subject path : List ℕ) (list : Governs)
        → AgreeBeside before after (subject ∷ []) → has_list after subject ≡ false
        → effective_among before path ≡ Some list → list.at ≡ subject
        → effective_among after path ≡ handed_down (governs_among after subject) }

    // Where a list was added below the one in force, what lies below inherits it.
    ensures added { (before after : List ℕ → Bool) (subject path : List ℕ) (list : Governs)
        → AgreeBeside before after (subject ∷ []) → has_list after subject ≡ true
        → effective_among before path ≡ Some list → IsInside subject list.at
        → IsInside (about path (subject_of path)) subject
        → effective_among after path ≡ Some (governed subject Inherited) }
{}
