use crate::{ProjectFiles, write_outcome};
use element_store::{FileNo, Outcome, Text};

#[test]
fn a_file_is_added_and_an_outcome_told(rt: HostRuntime) {
    let Ok(name) = Vec::from_slice(rt.alloc(), b"a.sysml") else {
        panic!(rt; "no memory");
    };
    let mut files = ProjectFiles::new(rt.alloc());
    let Ok(file) = files.add(Text::of(name), false) else {
        panic!(rt; "no memory");
    };
    assert!(rt; file == FileNo(0));
    assert!(rt; files.name(file).bytes() == b"a.sysml".as_slice());
    assert!(rt; files.models().files() == 1);
    let mut answer = Vec::new(rt.alloc());
    let told = write_outcome(
        rt.alloc(),
        &mut answer,
        &files,
        &Outcome::Absent { segment: 2 },
    );
    assert!(rt; told == Ok(()));
    assert!(rt; answer.as_slice() == b"absent 2".as_slice());
}
