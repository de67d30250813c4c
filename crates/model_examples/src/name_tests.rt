use element_store::{FileName, Language, Name, NameFault, Segments};

#[test]
fn names_are_read_and_others_refused(rt: HostRuntime) {
    let cases = [
        (b"a.sysml".as_slice(), Some(Language::Sysml)),
        (b"a.kerml", Some(Language::Kerml)),
        (b"a.kerml.sysml", Some(Language::Sysml)),
        (b"a.sysml.kerml", Some(Language::Kerml)),
        (b".kerml", None),
        (b"a.kermll", None),
        (b"a.kerm", None),
        (b"aakerml", None),
        (b"-a.kerml", None),
        (b"a b.sysml", None),
    ];
    for (bytes, language) in cases {
        match (FileName::read(rt.alloc(), bytes), language) {
            (Ok(name), Some(language)) => {
                assert!(rt;
                    name.bytes() == bytes && name.language() == language,
                    "{bytes:?}"
                );
            }
            (Err(fault), None) => assert!(rt; fault == NameFault::Bad, "{bytes:?}"),
            _ => assert!(rt; false, "{bytes:?}"),
        }
    }
}

#[test]
fn the_longest_name_has_two_hundred_bytes(rt: HostRuntime) {
    let letters = [b'a'; 195];
    for (count, fits) in [(194, true), (195, false)] {
        let Ok(mut name) = Vec::from_slice(rt.alloc(), &letters[..count]) else {
            panic!(rt; "no memory for a name");
        };
        assert!(rt; name.extend_from_slice(b".sysml").is_ok());
        assert!(rt; FileName::read(rt.alloc(), &name).is_ok() == fits);
    }
}

#[test]
fn segments_keep_their_names(rt: HostRuntime) {
    let mut segments = Segments::new(rt.alloc());
    for count in 0..6 {
        assert!(rt; segments.as_slice().len() == count);
        assert!(rt; segments.push(Name::of(Vec::new(rt.alloc()))).is_ok());
    }
    assert!(rt; segments.as_slice().len() == 6);
}
