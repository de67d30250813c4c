use crate::library_sketches::{COLORS, LIBRARY};
use crate::models::{colors, library, names, redefinings, vehicles};
use crate::reading::{has_bodies, has_elements, has_members, has_references};
use crate::sketch::Sketch;
use crate::sketches::{NAMES, REDEFINING, VEHICLES};
use element_store::{FileModel, FileNo, Language, Name};

// Whether each record of the model is that of the table.
fn is_read_back(model: &FileModel, sketch: &Sketch) -> bool {
    if model.language() != Language::Sysml
        || model.elements() == 0
        || model.member_of(0).is_some()
    {
        return false;
    }
    has_elements(model, sketch.elements)
        && has_members(model, sketch)
        && has_references(model, sketch)
        && has_bodies(model, sketch)
}

#[test]
fn models_are_read_back(rt: HostRuntime) {
    let alloc = rt.alloc();
    let made = [
        (vehicles(alloc, FileNo(0)), &VEHICLES),
        (names(alloc, FileNo(1)), &NAMES),
        (redefinings(alloc, FileNo(2)), &REDEFINING),
        (library(alloc, FileNo(3)), &LIBRARY),
        (colors(alloc, FileNo(4)), &COLORS),
    ];
    for (model, sketch) in made {
        let Ok(model) = model else {
            panic!(rt; "no memory for a model");
        };
        assert!(rt; is_read_back(&model, sketch));
    }
}

#[test]
fn references_stand_element_by_element(rt: HostRuntime) {
    let expected = [
        (0, 0),
        (0, 1),
        (1, 1),
        (1, 1),
        (1, 2),
        (2, 2),
        (2, 3),
        (3, 4),
        (4, 7),
        (7, 8),
        (8, 9),
        (9, 10),
        (10, 10),
    ];
    let Ok(model) = vehicles(rt.alloc(), FileNo(0)) else {
        panic!(rt; "no memory for the model");
    };
    assert!(rt; model.elements() as usize == expected.len());
    for (number, range) in expected.iter().enumerate() {
        assert!(rt; model.references_of(number as u32) == *range);
    }
    for (node, place) in [298, 305, 303].iter().enumerate() {
        assert!(rt; model.place_of_node(8, false, node as u32) == *place);
    }
}

// What `named` gives, for numbers that are in range.
fn next_named(model: &FileModel, element: u32, name: &Name, after: Option<u32>) -> Option<u32> {
    if element >= model.elements() {
        return None;
    }
    let Some(last) = after else {
        return model.named(element, name, None);
    };
    if last >= model.members() {
        return None;
    }
    model.named(element, name, Some(last))
}

#[test]
fn names_are_found_in_their_order(rt: HostRuntime) {
    let Ok(model) = names(rt.alloc(), FileNo(0)) else {
        panic!(rt; "no memory for the model");
    };
    let expected: [(u32, &[u8], Option<u32>, Option<u32>); 13] = [
        (0, b"a", None, Some(0)),
        (0, b"a", Some(0), Some(1)),
        (0, b"a", Some(1), Some(2)),
        (0, b"a", Some(2), None),
        (0, b"b", None, Some(1)),
        (0, b"b", Some(0), Some(1)),
        (0, b"b", Some(1), Some(2)),
        (0, b"b", Some(2), None),
        (0, b"c", None, Some(3)),
        (0, b"c", Some(3), None),
        (0, b"aa", None, None),
        (0, b"", None, None),
        (1, b"a", None, None),
    ];
    for (element, bytes, after, found) in expected {
        let Ok(bytes) = Vec::from_slice(rt.alloc(), bytes) else {
            panic!(rt; "no memory for a name");
        };
        assert!(rt; next_named(&model, element, &Name::of(bytes), after) == found);
    }
}

#[test]
fn imports_and_redefinitions_are_found_by_namespace(rt: HostRuntime) {
    let Ok(model) = redefinings(rt.alloc(), FileNo(0)) else {
        panic!(rt; "no memory for the model");
    };
    let expected: [(u32, &[u32], &[u32]); 6] = [
        (0, &[], &[]),
        (1, &[0, 2], &[6]),
        (2, &[1], &[]),
        (3, &[], &[3, 5]),
        (4, &[], &[]),
        (9, &[], &[]),
    ];
    for (element, imports, redefining) in expected {
        assert!(rt; model.imports_of(element) == imports);
        assert!(rt; model.redefining(element) == redefining);
    }
}
