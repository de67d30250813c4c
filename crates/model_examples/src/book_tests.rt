ghost use Rattle.std.specs.Prelude.{◌≡◌, IfOk, length};

use element_store::{FileModel, FileNo, Language, Models, Text};
use linker_base::NoMemory;
use std::alloc::Global;

// Adds a file, unless its name stands already or the numbers are used up.
fn add(alloc: Global, models: &mut Models, name: &[u8], library: bool) -> Option<FileNo> {
    let count = models.files();
    if count == u32::MAX {
        return None;
    }
    for number in 0..count {
        if models.name(FileNo(number)).bytes() == name {
            return None;
        }
    }
    let Ok(bytes) = Vec::from_slice(alloc, name) else {
        return None;
    };
    models.add(Text::of(bytes), library).ok()
}

// Whether files that arrive so keep their names and places under the numbers of their arrival,
// and have these numbers by their ranks.
fn is_kept(alloc: Global, arrivals: &[(&[u8], bool)], by_rank: &[u32], project: u32) -> bool {
    let mut models = Models::new(alloc);
    for (name, library) in arrivals {
        let before = models.files();
        if add(alloc, &mut models, name, *library) != Some(FileNo(before)) {
            return false;
        }
    }
    let count = models.files();
    if count as usize != arrivals.len() || count as usize != by_rank.len() {
        return false;
    }
    for number in 0..count {
        let (name, library) = arrivals[number as usize];
        let file = FileNo(number);
        if models.name(file).bytes() != name || models.is_library(file) != library {
            return false;
        }
    }
    for rank in 0..count {
        if models.at_rank(rank) != FileNo(by_rank[rank as usize]) {
            return false;
        }
    }
    models.project_files() == project
}

#[test]
fn project_files_stand_before_library_files(rt: HostRuntime) {
    let mixed = [
        (b"lib/A.sysml".as_slice(), true),
        (b"b.sysml".as_slice(), false),
        (b"lib/B.sysml".as_slice(), true),
        (b"a.sysml".as_slice(), false),
    ];
    assert!(rt; is_kept(rt.alloc(), &mixed, &[3, 1, 0, 2], 2));
}

#[test]
fn names_stand_in_byte_order(rt: HostRuntime) {
    let falling = [
        (b"z".as_slice(), false),
        (b"ab".as_slice(), false),
        (b"a".as_slice(), false),
        (b"Z".as_slice(), false),
    ];
    assert!(rt; is_kept(rt.alloc(), &falling, &[3, 2, 1, 0], 4));
    let rising = [(b"A".as_slice(), true), (b"a".as_slice(), true)];
    assert!(rt; is_kept(rt.alloc(), &rising, &[0, 1], 0));
}

#[test]
fn a_new_file_has_no_model(rt: HostRuntime) {
    let mut models = Models::new(rt.alloc());
    assert!(rt; models.files() == 0);
    assert!(rt; add(rt.alloc(), &mut models, b"a", false) == Some(FileNo(0)));
    assert!(rt; models.model(FileNo(0)).is_none());
    assert!(rt; models.model(FileNo(1)).is_none());
}

// A book with a project file, two library files and a project file, in this order of arrival.
fn book(alloc: Global) -> Result<Models, NoMemory>
    ensures { IfOk result (λ made. length made ≡ 4) }
{
    let mut models = Models::new(alloc);
    models.add(Text::of(Vec::from_slice(alloc, b"b.sysml")?), false)?;
    models.add(Text::of(Vec::from_slice(alloc, b"$lib/B.sysml")?), true)?;
    models.add(Text::of(Vec::from_slice(alloc, b"$lib/A.sysml")?), true)?;
    models.add(Text::of(Vec::from_slice(alloc, b"a.sysml")?), false)?;
    Ok(models)
}

// Gives a file a bare model of that language, and says whether it is there then.
fn is_set(alloc: Global, models: &mut Models, file: FileNo, language: Language) -> bool {
    if file.0 >= models.files() {
        return false;
    }
    let Ok(bare) = FileModel::bare(alloc, file, language) else {
        return false;
    };
    models.set(file, Some(bare));
    match models.model(file) {
        Some(model) => model.language() == language && model.elements() == 1,
        None => false,
    }
}

// Takes the model of a file away, and says whether it is gone then.
fn is_removed(models: &mut Models, file: FileNo) -> bool {
    if file.0 >= models.files() || models.model(file).is_none() {
        return false;
    }
    models.set(file, None);
    models.model(file).is_none()
}

// Whether the files have these numbers in the order of their ranks.
fn are_ranked(models: &Models, files: &[u32]) -> bool {
    if models.files() as usize != files.len() {
        return false;
    }
    for (rank, file) in files.iter().enumerate() {
        if models.at_rank(rank as u32) != FileNo(*file) {
            return false;
        }
    }
    true
}

#[test]
fn models_are_set_and_removed(rt: HostRuntime) {
    let Ok(mut models) = book(rt.alloc()) else {
        panic!(rt; "no memory for the book");
    };
    assert!(rt; are_ranked(&models, &[3, 0, 2, 1]));
    for number in [2, 0, 3, 1] {
        assert!(rt; models.model(FileNo(number)).is_none());
        assert!(rt; is_set(rt.alloc(), &mut models, FileNo(number), Language::Kerml));
    }
    for number in [1, 3] {
        assert!(rt; is_removed(&mut models, FileNo(number)));
        assert!(rt; models.model(FileNo(number - 1)).is_some());
    }
    for number in [3, 1, 0] {
        assert!(rt; is_set(rt.alloc(), &mut models, FileNo(number), Language::Sysml));
    }
    assert!(rt; models.model(FileNo(2)).is_some());
    assert!(rt; are_ranked(&models, &[3, 0, 2, 1]));
}
