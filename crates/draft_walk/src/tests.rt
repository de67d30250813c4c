//! Short texts are read with ample memory.

use crate::{Source, draft};
use element_store::Language;
use std::alloc::Global;
use text_model::FileFault;
use token_core::lex;

/// How many elements, members and imports are read of a text of at most 100 bytes.
fn counts(
    alloc: Global,
    language: Language,
    text: &[u8],
) -> Result<(usize, usize, usize), FileFault> {
    if text.len() > 100 {
        return Err(FileFault::NoMemory);
    }
    let Ok(tokens) = lex(alloc, text, language) else {
        return Err(FileFault::NoMemory);
    };
    let source = Source {
        text,
        tokens: tokens.as_slice(),
        language,
    };
    let drafts = draft(alloc, &source)?;
    Ok((
        drafts.elements.len(),
        drafts.members.len(),
        drafts.imports.len(),
    ))
}

#[test]
fn short_texts_are_read(rt: HostRuntime) {
    let cases: [(Language, &[u8], Result<(usize, usize, usize), FileFault>); 5] = [
        (Language::Sysml, b"", Ok((1, 0, 0))),
        (
            Language::Sysml,
            b"package P { import Q::*; alias R for S; part a : A = 1 + b.c; }",
            Ok((3, 3, 1)),
        ),
        (
            Language::Kerml,
            b"class A :> B { in feature b : C [1..2]; doc /* Says. */ }",
            Ok((4, 3, 0)),
        ),
        (Language::Kerml, b"class A {", Err(FileFault::Syntax(9))),
        (Language::Sysml, b"part a = ;", Err(FileFault::Syntax(9))),
    ];
    for (language, text, expected) in cases {
        assert!(rt; counts(rt.alloc(), language, text) == expected);
    }
}
