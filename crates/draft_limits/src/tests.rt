use crate::{deepest, least, place_over};

#[test]
fn a_short_text_passes_no_limit(rt: HostRuntime) {
    assert!(rt; least(&[7, 3, 5]) == Some(3));
    assert!(rt; deepest(rt.alloc(), &[]) == Ok(None));
    assert!(rt; place_over(rt.alloc(), &[7, 3, 5]) == Ok(None));
}
