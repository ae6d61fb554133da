//! Laws of histories: what stands as more commits are admitted.

ghost use Rattle.std.specs.Prelude.{◌≡◌, ◌≤◌, ℕ, List, [], ◌∷◌, ◌++◌, length, take};
ghost use Rattle.shadow_frame.specs.declared.Size.{Size};
ghost use Rattle.native_state.specs.State.{cell_from};
ghost use Rattle.tree_revision.specs.Records.{PlainRecord};
ghost use Rattle.tree_revision.specs.Revisions.{opening, revision_after, revision_numbered, revisions_of, revision_of, kind_of_family};
ghost use Rattle.tree_revision.specs.Newest.{change_of, newest_state};
ghost use Rattle.tree_revision.specs.Mountable.{mountable_of};
ghost use Rattle.tree_revision.specs.Lawful.{MayFollow, IsLawful};
ghost use Rattle.tree_revision.specs.Tags.{HasSoundTags, KeepsFamilies};
ghost use Rattle.tree_revision.specs.Settled.{KeptRevision};
ghost use Rattle.tree_revision.specs.Stands.{StandsFor};

/// For every history, the number that may be mounted is at most its length, and never falls as more commits are admitted.
pub fn mountable_never_falls()
    ensures within { (entries : List PlainRecord) → mountable_of entries ≤ length entries }
    ensures rises { (entries more : List PlainRecord) → mountable_of entries ≤ mountable_of (entries ++ more) }
{}

/// For every history and one more commit, a family's newest state is what the commit's change, where it makes one, makes of the state before.
pub fn newest_state_after_one_more()
    ensures { (entries : List PlainRecord) (entry : PlainRecord) (tag : ℕ) → newest_state (entries ++ entry ∷ []) tag ≡ cell_from (newest_state entries tag) (change_of tag entry.op) }
{}

/// The revision of no commit is the opening one, and for every history and one more commit, it is what the commit's change makes of
/// the revision before, by a caller that held the revision of as many of the first commits.
pub fn revision_after_one_more()
    ensures none { (first : Size) → revision_of first [] ≡ opening first }
    ensures more { (first : Size) (entries : List PlainRecord) (entry : PlainRecord) → revision_of first (entries ++ entry ∷ []) ≡ revision_after entry.op (revision_of first entries) (revision_of first (take entry.held entries)) }
{}

/// For every history, the revision of a number stays as more commits are admitted.
pub fn revisions_stay()
    ensures { (first : Size) (entries more : List PlainRecord) → revision_numbered (revisions_of first (entries ++ more)) (length entries) ≡ revision_of first entries }
{}

/// For every lawful history, it is lawful after one more commit that may follow it, and so is each of its fronts.
pub fn lawful_histories()
    ensures more { (first : Size) (entries : List PlainRecord) (entry : PlainRecord) → IsLawful first entries → MayFollow first entries entry → IsLawful first (entries ++ entry ∷ []) }
    ensures fewer { (first : Size) (entries more : List PlainRecord) → IsLawful first (entries ++ more) → IsLawful first entries }
{}

/// For every lawful history, the tags of its newest forest differ and are in range, and each node has the kind of its family.
pub fn lawful_tags_differ()
    ensures { (first : Size) (entries : List PlainRecord) → IsLawful first entries → HasSoundTags (revision_of first entries) }
{}

/// For every lawful history, a family stays, with its kind, as more commits are admitted.
pub fn families_stay()
    ensures { (first : Size) (entries more : List PlainRecord) → IsLawful first (entries ++ more) → KeepsFamilies (revision_of first entries) (revision_of first (entries ++ more)) }
{}

/// For every revision: it stands for at most one content, that is, the lists of records that it stands for are equally long,
/// and have one size, one forest and the same families.
pub fn revisions_stand_for_one_content()
    ensures length { (first : Size) (revision : KeptRevision) (entries others : List PlainRecord) → StandsFor first revision entries → StandsFor first revision others → length entries ≡ length others }
    ensures size { (first : Size) (revision : KeptRevision) (entries others : List PlainRecord) → StandsFor first revision entries → StandsFor first revision others → (revision_of first entries).size ≡ (revision_of first others).size }
    ensures forest { (first : Size) (revision : KeptRevision) (entries others : List PlainRecord) → StandsFor first revision entries → StandsFor first revision others → (revision_of first entries).forest ≡ (revision_of first others).forest }
    ensures families { (first : Size) (revision : KeptRevision) (entries others : List PlainRecord) → StandsFor first revision entries → StandsFor first revision others → (tag : ℕ) → kind_of_family (revision_of first entries).families tag ≡ kind_of_family (revision_of first others).families tag }
{}
