ghost use Rattle.std.specs.Prelude.{◌≡◌, ◌<◌, ◌⊎◌, [], length, Some, None, List, map, IfOk, IfSome, OnOk, slice_get};
ghost use Rattle.std.specs.Option.{option_map};
ghost use Rattle.linker_base.specs.Members.{IsMember};
ghost use Rattle.element_store.specs.declared.models.StoredFile.{StoredFile};
ghost use Rattle.element_store.specs.Stored as stored;
ghost use Rattle.link_model.specs.Lexical as lexical;
ghost use Rattle.link_walk.specs.Calls.{files_of, read_by};
ghost use Rattle.link_walk.specs.Noted.{noted};
ghost use Rattle.link_tiers.specs.Answered.{Answered};
ghost use Rattle.link_tiers.specs.Tiers.{AreHits};
ghost use Rattle.link_tiers.specs.Picks.{comes_before, ranked, is_other, lesser_with};
ghost use Rattle.link_tiers.specs.Picks.{least_ranked, picked_of, files_looked};

use element_store::{ElementNo, FileNo, MemberNo, Models};
use link_model::{Hit, View};
use link_walk::Notes;
use linker_base::NoMemory;

/// What is picked of a tier.
#[derive(Clone, Copy)]
pub enum Picked {
    /// The tier has no hit.
    Nothing,
    /// All hits lead to this element.
    One(ElementNo),
    /// They lead to different ones: the least member, and the least that leads to another element.
    Several(MemberNo, MemberNo),
}

/// Whether a file stands before another: those of the project before those of the library, within
/// each in the byte order of names.
pub(crate) fn stands_before(models: &Models, file: FileNo, other: FileNo) -> bool
    requires file { file.0 < length models.now }
    requires other { other.0 < length models.now }
    ensures { (s t : StoredFile) → slice_get models.now file.0 ≡ Some s
        → slice_get models.now other.0 ≡ Some t → result ≡ stored.stands_before s t }
{
    if models.is_library(file) == models.is_library(other) {
        models.name(file).bytes() < models.name(other).bytes()
    } else {
        !models.is_library(file)
    }
}

/// Whether a member stands before another. Names of files are compared for members of different ones
/// alone.
pub(crate) fn comes_before(models: &Models, member: MemberNo, other: MemberNo) -> bool
    requires member { member.file.0 < length models.now }
    requires other { other.file.0 < length models.now }
    ensures { result ≡ comes_before models.now member other }
{
    // A look at the files tells that no name stands twice among them.
    let _ = models.files();
    if member.file == other.file {
        return member.index < other.index;
    }
    stands_before(models, member.file, other.file)
}

/// The lesser of a hit and another, if there is one.
fn lesser(models: &Models, hit: Hit, other: Option<Hit>) -> Hit
    requires hit { hit.member.file.0 < length models.now }
    requires other { IfSome other (λ h. h.member.file.0 < length models.now) }
    ensures lesser { Some (ranked models.now result)
        ≡ lexical.lesser (ranked models.now hit) (option_map (ranked models.now) other) }
    ensures either { (result ≡ hit) ⊎ (other ≡ Some result) }
{
    match other {
        None => hit,
        Some(other) => {
            if comes_before(models, other.member, hit.member) {
                other
            } else {
                hit
            }
        }
    }
}

/// Whether a hit leads to another element than this one, if there is one.
fn is_other(without: Option<ElementNo>, hit: Hit) -> bool
    ensures { result ≡ is_other without hit }
{
    match without {
        None => true,
        Some(element) => hit.element != element,
    }
}

/// The lesser of a hit that leads elsewhere and the least one so far.
fn lesser_with(
    models: &Models,
    without: Option<ElementNo>,
    hit: Hit,
    least: Option<Hit>,
) -> Option<Hit>
    requires hit { hit.member.file.0 < length models.now }
    requires least { IfSome least (λ h. h.member.file.0 < length models.now) }
    ensures lesser { option_map (ranked models.now) result
        ≡ lesser_with models.now without hit (option_map (ranked models.now) least) }
    ensures either { IfSome result (λ r. (r ≡ hit) ⊎ (least ≡ Some r)) }
{
    if is_other(without, hit) {
        Some(lesser(models, hit, least))
    } else {
        least
    }
}

/// The least of the hits that lead to another element than this one, if there is one.
pub(crate) fn least(models: &Models, without: Option<ElementNo>, hits: &[Hit]) -> Option<Hit>
    requires { AreHits models.now hits.now }
    ensures least { option_map (ranked models.now) result
        ≡ least_ranked models.now without hits.now }
    ensures among { IfSome result (IsMember hits.now) }
{
    let mut least = None;
    let mut at = hits.len();
    while at > 0 {
        at -= 1;
        least = lesser_with(models, without, hits[at], least);
    }
    least
}

/// Notes a look at the file of each hit's member.
pub(crate) fn note_files(hits: &[Hit], notes: &mut Notes) -> Result<(), NoMemory>
    ensures { OnOk result (notes.new ≡ noted [] (files_looked hits.now) notes.old) }
{
    for hit in hits {
        notes.look_at(hit.member.file)?;
    }
    Ok(())
}

/// What is picked of hits.
fn choose(models: &Models, hits: &[Hit]) -> Picked
    requires { AreHits models.now hits.now }
    ensures { picked_of result ≡ lexical.picked_from (map (ranked models.now) hits.now)
        (lexical.least_of (map (ranked models.now) hits.now)) }
{
    let Some(first) = least(models, None, hits) else {
        return Picked::Nothing;
    };
    match least(models, Some(first.element), hits) {
        None => Picked::One(first.element),
        Some(second) => Picked::Several(first.member, second.member),
    }
}

/// Picks of the hits of a tier: nothing where there is none, their element where all lead to one, and
/// otherwise the least member and the least one that leads to another element. Members stand in the
/// order of their files, those of the library last, and of their numbers.
pub fn pick(view: &View, hits: &[Hit], notes: &mut Notes) -> Result<Picked, NoMemory>
    requires { AreHits (files_of view.now) hits.now }
    ensures { IfOk result (λ picked. Answered (lexical.pick hits.now (read_by view.now))
        (Some (picked_of picked)) notes.old notes.new) }
{
    note_files(hits, notes)?;
    Ok(choose(view.models, hits))
}
