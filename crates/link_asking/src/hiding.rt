ghost use Rattle.std.specs.Prelude.{◌≡◌, ◌<◌, ◌⊎◌, ◌++◌, [], List, length, map, None, Some, IfOk, IfSome, OnOk};
ghost use Rattle.std.specs.Option.{option_map};
ghost use Rattle.linker_base.specs.Members.{IsMember};
ghost use Rattle.demand_core.specs.Search.{IsAsked};
ghost use Rattle.element_store.specs.BaseRules.{StandsIn};
ghost use Rattle.element_store.specs.Numbers.{those_where};
ghost use Rattle.element_store.specs.Stored.{AreFiles};
ghost use Rattle.element_store.specs.declared.models.StoredFile.{StoredFile};
ghost use Rattle.link_model.specs.declared.keys.Hit.{Hit as OneHit};
ghost use Rattle.link_model.specs.Asking as asking;
ghost use Rattle.link_model.specs.Asking.Course.{Ended};
ghost use Rattle.link_model.specs.Inheritance as inheritance;
ghost use Rattle.link_model.specs.Lexical as lexical;
ghost use Rattle.link_model.specs.Names as names;
ghost use Rattle.link_model.specs.Linking.{MemberStands};
ghost use Rattle.link_model.specs.Outside.{is_public, library_of};
ghost use Rattle.link_model.specs.Readers.{Lookup, LinkWorld};
ghost use Rattle.link_walk.specs.Calls.{files_of, read_by, HasLinks};
ghost use Rattle.link_walk.specs.Noted.{noted};
ghost use Rattle.link_tiers.specs.Answered.{Answered};
ghost use Rattle.link_tiers.specs.Picks.{comes_before, ranked, files_looked};
ghost use Rattle.link_tiers.specs.Tiers.{AreFound, AreHits, Joins};
ghost use Rattle.link_waits.specs.Ranks.{AreRanksOf};
ghost use Rattle.link_asking.specs.Hiding.{is_unseen, stored_member, hiding, hiding_all, bearing};

use element_store::{ElementNo, Member, MemberNo, Name, Outcome, Visibility};
use link_model::{Hit, View};
use link_tiers::{Lookups, inherited_tier};
use link_waits::Ranks;
use link_walk::{Gains, Hits, Notes};
use linker_base::NoMemory;
use std::alloc::Global;

/// Appends hits.
fn append_hits(hits: &mut Hits, more: &[Hit]) -> Result<(), NoMemory>
    ensures { OnOk result (hits.new ≡ hits.old ++ more.now) }
{
    for hit in more {
        hits.push(*hit)?;
    }
    Ok(())
}

/// Adds another part of the same stage.
fn add(gains: &mut Gains<Hit>, more: &Gains<Hit>) -> Result<(), NoMemory>
    ensures joined { OnOk result ((w : LinkWorld) (part : Lookup (List OneHit))
        → IsAsked more.now (part w) → Joins w part gains.old gains.new) }
    ensures found { OnOk result ((files : List StoredFile) → AreFound files gains.old
        → AreFound files more.now → AreFound files gains.new) }
{
    append_hits(&mut gains.found, more.found.as_slice())?;
    gains.notes.append(&more.notes)?;
    Ok(())
}

/// Adds the owned members of an element without a declared name that have this one.
fn add_effective<T: Lookups>(
    alloc: Global,
    lookups: &T,
    view: &View,
    at: ElementNo,
    name: &Name,
    gains: &mut Gains<Hit>,
) -> Result<(), NoMemory>
    requires stands { StandsIn (files_of view.now) at }
    requires links { HasLinks view.now }
    ensures joined { OnOk result (Joins (read_by view.now) (names.effective name.now at)
        gains.old gains.new) }
    ensures found { OnOk result (AreFound (files_of view.now) gains.old
        → AreFound (files_of view.now) gains.new) }
{
    let more = lookups.effective(alloc, view, at, name)?;
    add(gains, &more)?;
    Ok(())
}

/// Adds what an element inherits under a name, if it is a type.
fn add_inherited<T: Lookups>(
    alloc: Global,
    lookups: &T,
    view: &View,
    at: ElementNo,
    name: &Name,
    gains: &mut Gains<Hit>,
) -> Result<(), NoMemory>
    requires stands { StandsIn (files_of view.now) at }
    requires links { HasLinks view.now }
    ensures joined { OnOk result (Joins (read_by view.now) (inheritance.inherited_tier
        (library_of (files_of view.now)) name.now at) gains.old gains.new) }
    ensures found { OnOk result (AreFound (files_of view.now) gains.old
        → AreFound (files_of view.now) gains.new) }
{
    let more = inherited_tier(alloc, lookups, view, at, name)?;
    add(gains, &more)?;
    Ok(())
}

/// The hits of the owned and inherited members that bear a name, whether they are visible or not.
fn bearers<T: Lookups>(
    alloc: Global,
    lookups: &T,
    view: &View,
    at: ElementNo,
    name: &Name,
) -> Result<Gains<Hit>, NoMemory>
    requires stands { StandsIn (files_of view.now) at }
    requires links { HasLinks view.now }
    ensures asked { IfOk result (λ gains. IsAsked gains
        (bearing (library_of (files_of view.now)) name.now at (read_by view.now))) }
    ensures found { IfOk result (AreFound (files_of view.now)) }
{
    let mut gains = lookups.declared(alloc, view, at, name)?;
    add_effective(alloc, lookups, view, at, name, &mut gains)?;
    add_inherited(alloc, lookups, view, at, name, &mut gains)?;
    Ok(gains)
}

/// Whether a visibility is public.
fn is_public(visibility: Visibility) -> bool
    ensures { result ≡ is_public visibility }
{
    match visibility {
        Visibility::Public => true,
        Visibility::Protected => false,
        Visibility::Private => false,
    }
}

/// Lends the member of a hit.
fn member_of<'a>(view: &View<'a>, hit: Hit) -> &'a Member
    requires { MemberStands (files_of view.now) hit.member }
    ensures { stored_member (files_of view.now) hit.member ≡ Some result.now }
{
    match view.models.model(hit.member.file) {
        Some(model) => model.member(hit.member.index),
        None => unreachable!(),
    }
}

/// Whether the member of a hit isn't public.
fn is_unseen(view: &View, hit: Hit) -> bool
    requires { MemberStands (files_of view.now) hit.member }
    ensures { result ≡ is_unseen (files_of view.now) hit }
{
    !is_public(member_of(view, hit).visibility)
}

/// The hits whose members aren't public.
fn unseen(alloc: Global, view: &View, hits: &[Hit]) -> Result<Hits, NoMemory>
    requires { AreHits (files_of view.now) hits.now }
    ensures { IfOk result (λ unseen. unseen
        ≡ those_where (is_unseen (files_of view.now)) hits.now) }
{
    let mut unseen = Hits::new(alloc);
    for hit in hits {
        let kept = is_unseen(view, *hit);
        if !kept {
            continue;
        }
        unseen.push(*hit)?;
    }
    Ok(unseen)
}

/// Notes a look at the file of each hit's member.
fn note_files(hits: &[Hit], notes: &mut Notes) -> Result<(), NoMemory>
    ensures { OnOk result (notes.new ≡ noted [] (files_looked hits.now) notes.old) }
{
    for hit in hits {
        notes.look_at(hit.member.file)?;
    }
    Ok(())
}

/// Whether a member stands before another: by the ranks of their files, and within a file by their
/// numbers.
fn comes_before(ranks: &Ranks, member: MemberNo, other: MemberNo) -> bool
    requires member { member.file.0 < length ranks.now }
    requires other { other.file.0 < length ranks.now }
    ensures { (files : List StoredFile) → AreFiles files → AreRanksOf files ranks.now
        → result ≡ comes_before files member other }
{
    if member.file == other.file {
        member.index < other.index
    } else {
        ranks.rank(member.file) < ranks.rank(other.file)
    }
}

/// The lesser of a hit and another, if there is one.
fn lesser(ranks: &Ranks, hit: Hit, other: Option<Hit>) -> Hit
    requires hit { hit.member.file.0 < length ranks.now }
    requires other { IfSome other (λ h. h.member.file.0 < length ranks.now) }
    ensures lesser { (files : List StoredFile) → AreFiles files → AreRanksOf files ranks.now
        → Some (ranked files result)
        ≡ lexical.lesser (ranked files hit) (option_map (ranked files) other) }
    ensures either { (result ≡ hit) ⊎ (other ≡ Some result) }
{
    match other {
        None => hit,
        Some(other) => {
            if comes_before(ranks, other.member, hit.member) {
                other
            } else {
                hit
            }
        }
    }
}

/// The least of hits.
fn least(ranks: &Ranks, hits: &[Hit]) -> Option<Hit>
    requires { (h : OneHit) → IsMember hits.now h → h.member.file.0 < length ranks.now }
    ensures least { (files : List StoredFile) → AreFiles files → AreRanksOf files ranks.now
        → option_map (ranked files) result ≡ lexical.least_of (map (ranked files) hits.now) }
    ensures among { IfSome result (IsMember hits.now) }
{
    let mut least = None;
    let mut at = hits.len();
    while at > 0 {
        at -= 1;
        least = Some(lesser(ranks, hits[at], least));
    }
    least
}

/// How a search ends at a segment of which nothing is visible: absent, or hidden with the least member.
fn ending(number: u32, least: Option<Hit>) -> Outcome
    ensures { (files : List StoredFile) → result
        ≡ asking.hidden_by number (option_map (ranked files) least) }
{
    match least {
        None => Outcome::Absent { segment: number },
        Some(hit) => Outcome::Hidden {
            segment: number,
            member: hit.member,
        },
    }
}

/// How a search ends of which these are all hits, none of them visible.
fn hide(
    alloc: Global,
    view: &View,
    ranks: &Ranks,
    number: u32,
    hits: &[Hit],
    notes: &mut Notes,
) -> Result<Outcome, NoMemory>
    requires ranks { AreRanksOf (files_of view.now) ranks.now }
    requires hits { AreHits (files_of view.now) hits.now }
    ensures { IfOk result (λ outcome. Answered (hiding number hits.now (read_by view.now))
        (Some (Ended outcome)) notes.old notes.new) }
{
    // A look at the files tells that no name stands twice among them.
    let _ = view.models.files();
    note_files(hits, notes)?;
    let kept = unseen(alloc, view, hits)?;
    let members = kept.as_slice();
    note_files(members, notes)?;
    let first = least(ranks, members);
    Ok(ending(number, first))
}

/// How a search ends of which these are what bears the name. None comes where it waits.
fn hide_gains(
    alloc: Global,
    view: &View,
    ranks: &Ranks,
    number: u32,
    gains: &Gains<Hit>,
    notes: &mut Notes,
) -> Result<Option<Outcome>, NoMemory>
    requires ranks { AreRanksOf (files_of view.now) ranks.now }
    requires found { AreFound (files_of view.now) gains.now }
    ensures { IfOk result (λ outcome. (c : Lookup (List OneHit))
        → IsAsked gains.now (c (read_by view.now)) → Answered (hiding_all number c
        (read_by view.now)) (option_map Ended outcome) notes.old notes.new) }
{
    // A look at the files tells that no name stands twice among them.
    let _ = view.models.files();
    notes.append(&gains.notes)?;
    if gains.notes.is_waiting() {
        return Ok(None);
    }
    let outcome = hide(alloc, view, ranks, number, gains.found.as_slice(), notes)?;
    Ok(Some(outcome))
}

/// How a search ends at the segment of that number, which is no visible member's name in an element:
/// hidden with the least owned or inherited member of that name that isn't public, otherwise absent.
/// None comes where it waits.
pub fn hidden<T: Lookups>(
    alloc: Global,
    lookups: &T,
    view: &View,
    ranks: &Ranks,
    at: ElementNo,
    name: &Name,
    number: u32,
    notes: &mut Notes,
) -> Result<Option<Outcome>, NoMemory>
    requires stands { StandsIn (files_of view.now) at }
    requires links { HasLinks view.now }
    requires ranks { AreRanksOf (files_of view.now) ranks.now }
    ensures { IfOk result (λ outcome. Answered (asking.nothing_visible
        (library_of (files_of view.now)) number name.now at (read_by view.now))
        (option_map Ended outcome) notes.old notes.new) }
{
    let gains = bearers(alloc, lookups, view, at, name)?;
    let outcome = hide_gains(alloc, view, ranks, number, &gains, notes)?;
    Ok(outcome)
}
