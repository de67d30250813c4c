use crate::SourceText;
use book_model::Place;
use element_store::Text;

#[test]
fn places_are_found_by_the_ends_of_lines(rt: HostRuntime) {
    let Ok(bytes) = Vec::from_slice(rt.alloc(), b"ab\n\ncd") else {
        panic!(rt; "no memory");
    };
    let Ok(text) = SourceText::of(rt.alloc(), Text::of(bytes)) else {
        panic!(rt; "no memory");
    };
    assert!(rt; text.bytes() == b"ab\n\ncd".as_slice());
    let expected = [(1, 1), (1, 2), (1, 3), (2, 1), (3, 1), (3, 2), (3, 3)];
    for (at, place) in expected.iter().enumerate() {
        if at <= text.bytes().len() {
            let (line, column) = *place;
            assert!(rt; text.place(at as u32) == Place { line, column });
        }
    }
}
