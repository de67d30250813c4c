//! References of four files, which arrive in another order than that of their names.
ghost use Rattle.std.specs.Prelude.{◌≡◌, ◌<◌, length, IfOk};
ghost use Rattle.link_waits.specs.Waits.{HaveFiles};

use crate::ranks::Ranks;
use crate::waits::in_order;
use demand_core::Keys;
use element_store::{FileNo, Models, RefNo, Text};
use link_model::LinkKey;
use linker_base::NoMemory;
use std::alloc::Global;

fn text(alloc: Global, bytes: &[u8]) -> Result<Text, NoMemory>
    ensures { IfOk result (λ made. made ≡ bytes.now) }
{
    Ok(Text::of(Vec::from_slice(alloc, bytes)?))
}

// Three project files and one of the library.
fn book(alloc: Global) -> Result<Models, NoMemory>
    ensures { IfOk result (λ models. length models ≡ 4) }
{
    let mut models = Models::new(alloc);
    let _ = models.add(text(alloc, b"c.sysml")?, false)?;
    let _ = models.add(text(alloc, b"$lib/A.sysml")?, true)?;
    let _ = models.add(text(alloc, b"a.sysml")?, false)?;
    let _ = models.add(text(alloc, b"b.sysml")?, false)?;
    Ok(models)
}

// The references by the numbers of their files and their own.
fn references(alloc: Global, places: &[(u32, u32)]) -> Result<Vec<LinkKey>, NoMemory>
    ensures { IfOk result (λ keys. HaveFiles 4 keys.items) }
{
    let mut keys = Vec::new(alloc);
    for (file, index) in places {
        let reference = RefNo {
            file: FileNo(*file % 4),
            index: *index,
        };
        keys.push(LinkKey(reference))?;
    }
    Ok(keys)
}

fn ordered(alloc: Global, places: &[(u32, u32)]) -> Result<Keys<LinkKey>, NoMemory> {
    let models = book(alloc)?;
    let ranks = Ranks::of(alloc, &models)?;
    let keys = references(alloc, places)?;
    in_order(alloc, &models, &ranks, keys.as_slice())
}

fn are(keys: &[LinkKey], places: &[(u32, u32)]) -> bool {
    if keys.len() != places.len() {
        return false;
    }
    for at in 0..keys.len() {
        let (file, index) = places[at];
        if keys[at].0.file.0 != file || keys[at].0.index != index {
            return false;
        }
    }
    true
}

#[test]
fn project_files_stand_first_by_their_names(rt: HostRuntime) {
    let met = [
        (0, 4),
        (1, 0),
        (3, 2),
        (2, 7),
        (0, 1),
        (2, 3),
        (3, 2),
        (1, 0),
    ];
    let order = [(2, 3), (2, 7), (3, 2), (0, 1), (0, 4), (1, 0)];
    let Ok(keys) = ordered(rt.alloc(), &met) else {
        panic!(rt; "no memory");
    };
    assert!(rt; are(keys.as_slice(), &order));
}

#[test]
fn nothing_stands_in_order(rt: HostRuntime) {
    let Ok(keys) = ordered(rt.alloc(), &[]) else {
        panic!(rt; "no memory");
    };
    assert!(rt; keys.as_slice().is_empty());
}
