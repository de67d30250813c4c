ghost use Rattle.link_walk.specs.Calls.{HasLinks};

use crate::places::{element_at, import_at, member_at, name_of};
use crate::values::ask_value;
use crate::words::{write_elements, write_hits, write_looks, write_one, write_settled};
use element_store::Elements;
use implied_rules::implied;
use inheritance::{all_redefined, generals, settled_generals, settled_redefined, specialises};
use inherited_names::{inherited, inherited_raw};
use link_model::{LinkLooks, View};
use name_lookups::{imported, visible};
use owned_names::{declared, effective, member_element};

/// The elements behind a word, each behind a space.
fn elements_of(rt: &HostRuntime, view: &View, words: &str) -> Option<Elements> {
    let mut elements = Elements::new(rt.alloc());
    for word in words.split_whitespace() {
        elements.push(element_at(view.models, word)?).ok()?;
    }
    Some(elements)
}

/// Answers `declared`, `effective`, `inherited` and `raw`, each with an element and a name.
fn ask_tier(rt: &HostRuntime, view: &View, tier: &str, rest: &str) -> Option<()>
    requires links { HasLinks view.now }
{
    let (word, name) = rest.split_once(" ")?;
    let of = element_at(view.models, word)?;
    let name = name_of(rt.alloc(), name)?;
    let mut looks = LinkLooks::new(rt.alloc());
    let found = match tier {
        "declared" => declared(rt.alloc(), view, of, &name, &mut looks).ok()?,
        "effective" => effective(rt.alloc(), view, of, &name, &mut looks).ok()?,
        "inherited" => inherited(rt.alloc(), view, of, &name, &mut looks).ok()?,
        "raw" => inherited_raw(rt.alloc(), view, of, &name, &mut looks).ok()?,
        _ => return None,
    };
    write_hits(rt, &found)?;
    write_looks(rt, &looks)
}

/// Answers `visible ELEMENT MODE NAME EXCLUDED..`, where the mode tells whether it is recursive and of
/// all members.
fn ask_visible(rt: &HostRuntime, view: &View, rest: &str) -> Option<()>
    requires links { HasLinks view.now }
{
    let (word, rest) = rest.split_once(" ")?;
    let (mode, rest) = rest.split_once(" ")?;
    let (name, words) = rest.split_once(" ")?;
    let of = element_at(view.models, word)?;
    let name = name_of(rt.alloc(), name)?;
    let excluded = elements_of(rt, view, words)?;
    let recursive = mode == "recursive" || mode == "both";
    let all = mode == "all" || mode == "both";
    let mut looks = LinkLooks::new(rt.alloc());
    let found = visible(
        rt.alloc(),
        view,
        of,
        &name,
        &excluded,
        recursive,
        all,
        &mut looks,
    )
    .ok()?;
    write_hits(rt, &found)?;
    write_looks(rt, &looks)
}

/// Answers `imported IMPORT NAME EXCLUDED..`.
fn ask_imported(rt: &HostRuntime, view: &View, rest: &str) -> Option<()>
    requires links { HasLinks view.now }
{
    let (word, rest) = rest.split_once(" ")?;
    let (name, words) = rest.split_once(" ")?;
    let import = import_at(view.models, word)?;
    let name = name_of(rt.alloc(), name)?;
    let excluded = elements_of(rt, view, words)?;
    let mut looks = LinkLooks::new(rt.alloc());
    let found = imported(rt.alloc(), view, import, &name, &excluded, &mut looks).ok()?;
    write_hits(rt, &found)?;
    write_looks(rt, &looks)
}

/// Answers `generals ELEMENT` and `redefined ELEMENT`.
fn ask_walk(rt: &HostRuntime, view: &View, walk: &str, word: &str) -> Option<()>
    requires links { HasLinks view.now }
{
    let of = element_at(view.models, word)?;
    let mut looks = LinkLooks::new(rt.alloc());
    let found = match walk {
        "generals" => generals(rt.alloc(), view, of, &mut looks).ok()?,
        "redefined" => all_redefined(rt.alloc(), view, of, &mut looks).ok()?,
        _ => return None,
    };
    write_elements(rt, &found)?;
    write_looks(rt, &looks)
}

/// Answers `member MEMBER`.
fn ask_member(rt: &HostRuntime, view: &View, word: &str) -> Option<()>
    requires links { HasLinks view.now }
{
    let member = member_at(view.models, word)?;
    let mut looks = LinkLooks::new(rt.alloc());
    let found = member_element(rt.alloc(), view, member, &mut looks).ok()?;
    write_one(rt, &found)?;
    write_looks(rt, &looks)
}

/// Answers `settled-generals ELEMENT` and `settled-redefined ELEMENT`.
fn ask_settled(rt: &HostRuntime, view: &View, walk: &str, word: &str) -> Option<()>
    requires links { HasLinks view.now }
{
    let of = element_at(view.models, word)?;
    let elements = match walk {
        "settled-generals" => settled_generals(rt.alloc(), view, of).ok()?,
        "settled-redefined" => settled_redefined(rt.alloc(), view, of).ok()?,
        _ => return None,
    };
    write_settled(rt, &elements)
}

/// Answers `specialises ELEMENT ELEMENT`.
fn ask_specialises(rt: &HostRuntime, view: &View, rest: &str) -> Option<()>
    requires links { HasLinks view.now }
{
    let (word, base) = rest.split_once(" ")?;
    let of = element_at(view.models, word)?;
    let base = element_at(view.models, base)?;
    let yes = specialises(rt.alloc(), view, of, base).ok()?;
    println!(rt; "{yes}").ok()
}

/// Lists the implied specialisations: of each the type, the member that owns it, and the base.
pub(crate) fn list_implied(rt: &HostRuntime, view: &View) -> Option<()>
    requires links { HasLinks view.now }
{
    let rows = implied(rt.alloc(), view.models, view.table).ok()?;
    for row in rows.as_slice() {
        print!(rt; "{}:{} ", row.of.file.0, row.of.index).ok()?;
        print!(rt; "{}:{} ", row.member.file.0, row.member.index).ok()?;
        println!(rt; "{}:{}", row.base.file.0, row.base.index).ok()?;
    }
    Some(())
}

/// Answers one line, if it asks.
pub(crate) fn answer(rt: &HostRuntime, view: &View, line: &str) -> Option<()>
    requires links { HasLinks view.now }
{
    let (word, rest) = line.split_once(" ")?;
    match word {
        "kerml" | "sysml" | "link" | "refuse" => Some(()),
        "visible" => ask_visible(rt, view, rest),
        "imported" => ask_imported(rt, view, rest),
        "generals" | "redefined" => ask_walk(rt, view, word, rest),
        "member" => ask_member(rt, view, rest),
        "settled-generals" | "settled-redefined" => ask_settled(rt, view, word, rest),
        "specialises" => ask_specialises(rt, view, rest),
        "value" => ask_value(rt, view, rest),
        _ => ask_tier(rt, view, word, rest),
    }
}
