use demand_core::Fact;
use element_store::{ElementNo, Elements, Outcome, RefNo};
use link_model::{Hit, LinkFact, LinkKey, LinkLooks};
use link_walk::{Found, Hits};
use std::alloc::Global;

/// The words of hits: the member, and the element to which it leads.
fn hit_words(alloc: Global, hits: &[Hit]) -> Option<Vec<String>> {
    let mut words = Vec::new(alloc);
    for hit in hits {
        let (m, e) = (hit.member, hit.element);
        let word = format!(in alloc; "{}:{}>{}:{}", m.file.0, m.index, e.file.0, e.index).ok()?;
        words.push(word).ok()?;
    }
    Some(words)
}

/// The words of elements.
fn element_words(alloc: Global, elements: &[ElementNo]) -> Option<Vec<String>> {
    let mut words = Vec::new(alloc);
    for e in elements {
        let word = format!(in alloc; "{}:{}", e.file.0, e.index).ok()?;
        words.push(word).ok()?;
    }
    Some(words)
}

/// The words of references.
fn reference_words(alloc: Global, references: &[RefNo]) -> Option<Vec<String>> {
    let mut words = Vec::new(alloc);
    for r in references {
        let word = format!(in alloc; "{}:{}", r.file.0, r.index).ok()?;
        words.push(word).ok()?;
    }
    Some(words)
}

/// The words of facts.
fn look_words(alloc: Global, looks: &[Fact<LinkKey, LinkFact>]) -> Option<Vec<String>> {
    let mut words = Vec::new(alloc);
    for fact in looks {
        let word = match fact {
            Fact::Key(key) => format!(in alloc; "{}:{}", key.0.file.0, key.0.index).ok()?,
            Fact::Outer(LinkFact::File(file)) => format!(in alloc; "{}", file.0).ok()?,
            Fact::Outer(LinkFact::RootName(_)) => format!(in alloc; "name").ok()?,
        };
        words.push(word).ok()?;
    }
    Some(words)
}

/// Writes words in their order, each once.
fn write_words(rt: &HostRuntime, mut words: Vec<String>) -> Option<()> {
    words.sort().ok()?;
    words.dedup();
    for word in &words {
        print!(rt; " {word}").ok()?;
    }
    Some(())
}

/// Writes what an asking waits on.
fn write_waits(rt: &HostRuntime, waits: &[RefNo]) -> Option<()> {
    print!(rt; "waits").ok()?;
    write_words(rt, reference_words(rt.alloc(), waits)?)
}

/// Writes at what an asking looked.
pub(crate) fn write_looks(rt: &HostRuntime, looks: &LinkLooks) -> Option<()> {
    print!(rt; " looks").ok()?;
    write_words(rt, look_words(rt.alloc(), looks.as_slice())?)?;
    println!(rt; "").ok()
}

/// Writes hits, or what is waited on.
pub(crate) fn write_hits(rt: &HostRuntime, found: &Found<Hits>) -> Option<()> {
    match found {
        Found::Done(hits) => {
            print!(rt; "found").ok()?;
            write_words(rt, hit_words(rt.alloc(), hits.as_slice())?)
        }
        Found::Waits(refs) => write_waits(rt, refs.as_slice()),
    }
}

/// Writes elements, or what is waited on.
pub(crate) fn write_elements(rt: &HostRuntime, found: &Found<Elements>) -> Option<()> {
    match found {
        Found::Done(elements) => {
            print!(rt; "found").ok()?;
            write_words(rt, element_words(rt.alloc(), elements.as_slice())?)
        }
        Found::Waits(refs) => write_waits(rt, refs.as_slice()),
    }
}

/// Writes the one element that there may be, or what is waited on.
pub(crate) fn write_one(rt: &HostRuntime, found: &Found<Option<ElementNo>>) -> Option<()> {
    match found {
        Found::Done(Some(e)) => print!(rt; "found {}:{}", e.file.0, e.index).ok(),
        Found::Done(None) => print!(rt; "found").ok(),
        Found::Waits(refs) => write_waits(rt, refs.as_slice()),
    }
}

/// Writes elements on a line.
pub(crate) fn write_settled(rt: &HostRuntime, elements: &Elements) -> Option<()> {
    print!(rt; "found").ok()?;
    write_words(rt, element_words(rt.alloc(), elements.as_slice())?)?;
    println!(rt; "").ok()
}

/// Writes that a reference is linked to an element, behind the steps of its chain.
fn write_linked(rt: &HostRuntime, steps: &[ElementNo], element: ElementNo) -> Option<()> {
    print!(rt; "linked").ok()?;
    for step in steps {
        print!(rt; " {}:{}", step.file.0, step.index).ok()?;
    }
    println!(rt; " {}:{}", element.file.0, element.index).ok()
}

/// Writes the end of a line: the outcome of a reference.
pub(crate) fn write_outcome(rt: &HostRuntime, outcome: &Outcome) -> Option<()> {
    match outcome {
        Outcome::Linked { steps, element } => write_linked(rt, steps.as_slice(), *element),
        Outcome::Absent { segment } => println!(rt; "absent {segment}").ok(),
        Outcome::Ambiguous {
            segment,
            first,
            second,
        } => {
            print!(rt; "ambiguous {segment} {}:{}", first.file.0, first.index).ok()?;
            println!(rt; " {}:{}", second.file.0, second.index).ok()
        }
        Outcome::Hidden { segment, member } => {
            println!(rt; "hidden {segment} {}:{}", member.file.0, member.index).ok()
        }
        Outcome::Cyclic { on } => println!(rt; "cyclic {}:{}", on.file.0, on.index).ok(),
    }
}
