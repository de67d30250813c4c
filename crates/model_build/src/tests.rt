//! Texts with the model or the fault that they have, by hand from the notation's rules.

use crate::{FileFault, build};
use element_store::{FileNo, Language};
use std::alloc::Global;

/// How many elements and references the model of a test's text has. The text is short.
fn counts(alloc: Global, text: &[u8]) -> Result<(u32, u32), FileFault> {
    if text.len() > 100 {
        return Err(FileFault::NoMemory);
    }
    let model = build(alloc, FileNo(0), text, Language::Sysml)?;
    Ok((model.elements(), model.references()))
}

#[test]
fn texts_have_a_model_or_one_fault(rt: HostRuntime) {
    let cases: [(&[u8], Result<(u32, u32), FileFault>); 11] = [
        (b"", Ok((1, 0))),
        (b"// a note\n//* and another */", Ok((1, 0))),
        (b"package A { part def B; part c : B; }", Ok((4, 1))),
        (b"attribute a = 9223372036854775807;", Ok((2, 0))),
        (b"package \xFF", Err(FileFault::Encoding(8))),
        (b"package `A;", Err(FileFault::Token(8))),
        (&[b'('; 65], Err(FileFault::TooDeep(64))),
        (b"package A } part b;", Err(FileFault::Syntax(10))),
        (b"package A { part b;", Err(FileFault::Syntax(19))),
        (
            b"attribute a = 9223372036854775808;",
            Err(FileFault::Limit(14)),
        ),
        (
            b"attribute a = 9223372036854775808; }",
            Err(FileFault::Syntax(35)),
        ),
    ];
    for (text, expected) in cases {
        assert!(rt; counts(rt.alloc(), text) == expected);
    }
}
