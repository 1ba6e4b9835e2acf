//! What follows from the definitions: the contracts of these functions are laws, and they do
//! nothing. Where a pod is well-formed and no test refuses a change, an entry of its edits with the
//! next number applies.
ghost use Rattle.std.specs.Prelude.{◌≡◌, ℕ, List, [], ◌∷◌, Some, false, true, IsTrue};
ghost use Rattle.pod_base.specs.declared.moment.Moment.{Moment};
ghost use Rattle.pod_command.specs.declared.edit.Edit.TheVariants.{Put, Touch};
ghost use Rattle.pod_command.specs.declared.entry.Entry.{Entry};
ghost use Rattle.pod_command.specs.declared.row.Content.{Content};
ghost use Rattle.pod_command.specs.declared.row.Row.{Row};
ghost use Rattle.pod_path.specs.Hierarchy.{acl_of, is_auxiliary, meta_of, parent_of, twin_of};
ghost use Rattle.pod_path.specs.Norm.{IsPath};
ghost use Rattle.rdf_graph.specs.declared.change.Change.{Change};
ghost use Rattle.pod_rows.specs.Apply.{Applies, applied};
ghost use Rattle.pod_rows.specs.Pod.{Pod, is_row, is_row_of, row_at};
ghost use Rattle.pod_rows.specs.Tree.{ancestors};
ghost use Rattle.pod_rows.specs.WellFormed.{WellFormed, fits_kind};
ghost use Rattle.pod_edits.specs.Allowed.{CanAdd, CanChange, CanCreate, CanDelete, CanRemove};
ghost use Rattle.pod_edits.specs.Allowed.{CanReplace, HasNumber, changed_to};
ghost use Rattle.pod_edits.specs.Edits.{change_edits, creation_edits, deletion_edits, put_edits};
ghost use Rattle.pod_edits.specs.Edits.{removal_edits};
ghost use Rattle.pod_edits.specs.Kinds.{kind_of, may_hold};
ghost use Rattle.pod_edits.specs.Places.{missing_of, nearest_of};
ghost use Rattle.pod_edits.specs.Refusals.{added_rows, meets_twin};

/// The law that the edits of a new row apply which is no access list and no description.
pub fn creation_law()
    ensures applies { (pod : Pod) (next : ℕ) (entry : Entry) (row : Row) → WellFormed pod
        → CanCreate pod row → HasNumber next entry
        → entry.edits.items ≡ creation_edits pod.rows row → Applies pod next entry }
    ensures row { (pod : Pod) (entry : Entry) (row : Row) → WellFormed pod → CanCreate pod row
        → entry.edits.items ≡ creation_edits pod.rows row
        → row_at (applied pod entry).rows row.path ≡ Some row }
{}

/// The law that the edits of a new access list or description apply, and of a row in place of
/// another.
pub fn put_law()
    ensures adds { (pod : Pod) (next : ℕ) (entry : Entry) (row : Row) → WellFormed pod
        → CanAdd pod row → HasNumber next entry → entry.edits.items ≡ put_edits row
        → Applies pod next entry }
    ensures replaces { (pod : Pod) (next : ℕ) (entry : Entry) (row : Row) → WellFormed pod
        → CanReplace pod row → HasNumber next entry → entry.edits.items ≡ put_edits row
        → Applies pod next entry }
    ensures row { (pod : Pod) (entry : Entry) (row : Row) → entry.edits.items ≡ put_edits row
        → row_at (applied pod entry).rows row.path ≡ Some row }
{}

/// The law that the edits of a change of a row apply.
pub fn change_law()
    ensures applies { (pod : Pod) (next : ℕ) (entry : Entry) (path : List ℕ) (change : Change)
        (modified : Moment) (row : Row) → WellFormed pod → CanChange pod path change row
        → HasNumber next entry → entry.edits.items ≡ change_edits path change modified
        → Applies pod next entry }
    ensures row { (pod : Pod) (entry : Entry) (path : List ℕ) (change : Change)
        (modified : Moment) (row : Row) → WellFormed pod → CanChange pod path change row
        → entry.edits.items ≡ change_edits path change modified
        → row_at (applied pod entry).rows path ≡ Some (changed_to row change modified) }
{}

/// The law that the edits of the removal of a row apply. Its access list and its description go
/// with it.
pub fn deletion_law()
    ensures applies { (pod : Pod) (next : ℕ) (entry : Entry) (path : List ℕ) (modified : Moment)
        → WellFormed pod → CanDelete pod path → HasNumber next entry
        → entry.edits.items ≡ deletion_edits pod.rows path modified → Applies pod next entry }
    ensures row { (pod : Pod) (entry : Entry) (path : List ℕ) (modified : Moment)
        → WellFormed pod → CanDelete pod path
        → entry.edits.items ≡ deletion_edits pod.rows path modified
        → is_row (applied pod entry).rows path ≡ false }
    ensures list { (pod : Pod) (entry : Entry) (path : List ℕ) (modified : Moment)
        → WellFormed pod → CanDelete pod path
        → entry.edits.items ≡ deletion_edits pod.rows path modified
        → is_row_of (applied pod entry).rows (acl_of path) ≡ false }
    ensures description { (pod : Pod) (entry : Entry) (path : List ℕ) (modified : Moment)
        → WellFormed pod → CanDelete pod path
        → entry.edits.items ≡ deletion_edits pod.rows path modified
        → is_row_of (applied pod entry).rows (meta_of path) ≡ false }
    ensures auxiliary { (pod : Pod) (next : ℕ) (entry : Entry) (path : List ℕ) → WellFormed pod
        → CanRemove pod path → HasNumber next entry → entry.edits.items ≡ removal_edits path
        → Applies pod next entry }
    ensures auxiliary_row { (pod : Pod) (entry : Entry) (path : List ℕ) → WellFormed pod
        → CanRemove pod path → entry.edits.items ≡ removal_edits path
        → is_row (applied pod entry).rows path ≡ false }
{}

/// The law that the ancestors of a path are its parent and the ancestors of that one, as edits make
/// them.
pub fn ancestors_law()
    ensures { (path parent : List ℕ) → IsPath path → parent_of path ≡ Some parent
        → ancestors path ≡ parent ∷ ancestors parent }
{}

/// The law that above a member of a container that is a row nothing is missing, and no twin
/// conflicts but its own: a POST makes one row and touches the container.
pub fn member_law()
    ensures nearest { (pod : Pod) (path container : List ℕ) → WellFormed pod → IsPath path
        → parent_of path ≡ Some container → IsTrue (is_row pod.rows container)
        → nearest_of pod.rows path ≡ Some container }
    ensures missing { (pod : Pod) (path container : List ℕ) → WellFormed pod → IsPath path
        → parent_of path ≡ Some container → IsTrue (is_row pod.rows container)
        → missing_of pod.rows path ≡ [] }
    ensures twin { (pod : Pod) (path container : List ℕ) → WellFormed pod → IsPath path
        → parent_of path ≡ Some container → IsTrue (is_row pod.rows container)
        → meets_twin pod.rows path ≡ is_row_of pod.rows (twin_of path) }
    ensures edits { (pod : Pod) (row : Row) (container : List ℕ) → WellFormed pod
        → IsPath row.path → parent_of row.path ≡ Some container
        → IsTrue (is_row pod.rows container)
        → creation_edits pod.rows row ≡ Put row ∷ Touch container row.modified ∷ [] }
{}

/// The law that the edits of a new access list or description add one row, and so do those of a new
/// member of a container that is a row.
pub fn added_law()
    ensures auxiliary { (rows : List Row) (path : List ℕ) → IsTrue (is_auxiliary path)
        → added_rows rows path ≡ 1 }
    ensures member { (pod : Pod) (path container : List ℕ) → WellFormed pod → IsPath path
        → parent_of path ≡ Some container → IsTrue (is_row pod.rows container)
        → added_rows pod.rows path ≡ 1 }
{}

/// The law that the kind of a path and a content is right for them, where the path may hold the
/// content.
pub fn kind_law()
    ensures { (path : List ℕ) (content : Content) → IsTrue (may_hold path content)
        → IsTrue (fits_kind path (kind_of path content) content) }
{}

/// The law that what an entry's edits make of a path is decided by what was at it: where it applies
/// to two pods, what was the same at a path is the same there afterwards.
pub fn pointwise_law()
    ensures { (pod other : Pod) (next : ℕ) (entry : Entry) (path : List ℕ)
        → Applies pod next entry → Applies other next entry
        → row_at pod.rows path ≡ row_at other.rows path
        → row_at (applied pod entry).rows path ≡ row_at (applied other entry).rows path }
{}
