ghost use Rattle.std.specs.Prelude.{◌≡◌, ◌||◌, ◌++◌, IfOk, OnOk};
ghost use Rattle.std.specs.Option.{option_to_list};
ghost use Rattle.text_model.specs.Drafts.{first_name, first_segment, first_text, has_what, is_all, is_deep, is_star, name_in};
ghost use Rattle.text_model.specs.Drafts.{last_changed, mentions, named_changed, names, nobody, path_or, with_segment, with_step};
ghost use Rattle.draft_walk.specs.Telling.{first_path, or_path, or_text};

use element_store::{Name, Role, Segments, Text};
use linker_base::NoMemory;
use std::alloc::Global;
use text_model::draft::{DraftNode, Mention, Path, Row, What};

/// What an element's own nodes are for.
#[derive(Drop)]
pub struct OwnNames {
    pub own: Row<Path>,
    pub locale: Option<Text>,
}

/// The name that a node is.
fn name_in(what: What) -> Option<Path>
    ensures { option_to_list result ≡ name_in what }
{
    match what {
        What::Named(path) => Some(path),
        _other => None,
    }
}

/// The names among nodes, and the first text.
pub fn own_names(alloc: Global, nodes: Vec<DraftNode>) -> Result<OwnNames, NoMemory>
    ensures { IfOk result (λ o. (o.own ≡ names nodes.items) × (o.locale ≡ first_text nodes.items)) }
{
    let mut names = OwnNames {
        own: Row::new(alloc),
        locale: None,
    };
    for node in nodes {
        names.add(node.what)?;
    }
    Ok(names)
}

impl OwnNames {
    /// A node more.
    fn add(&mut self, what: What) -> Result<(), NoMemory>
        ensures own { OnOk result (self.new.own ≡ self.old.own ++ name_in what) }
        ensures locale { OnOk result (self.new.locale ≡ or_text self.old.locale what) }
    {
        match what {
            What::Named(path) => self.own.push(path)?,
            What::Text(text) => {
                if self.locale.is_none() {
                    self.locale = Some(text);
                }
            }
            _other => {}
        }
        Ok(())
    }
}

/// Adds a mention for each name among nodes.
pub fn mention_all(
    into: &mut Row<Mention>,
    role: Role,
    nodes: Vec<DraftNode>,
) -> Result<(), NoMemory>
    ensures { OnOk result (into.new ≡ into.old ++ mentions role (names nodes.items)) }
{
    for node in nodes {
        if let Some(path) = name_in(node.what) {
            into.push(Mention { role, path })?;
        }
    }
    Ok(())
}

/// Keeps the name that a node is, if none is kept.
fn keep_first(found: &mut Option<Path>, what: What)
    ensures { found.new ≡ or_path found.old what }
{
    if found.is_none() {
        *found = name_in(what);
    }
}

/// The first name among nodes.
fn first_path(nodes: Vec<DraftNode>) -> Option<Path>
    ensures { result ≡ first_path (names nodes.items) }
{
    let mut found = None;
    for node in nodes {
        keep_first(&mut found, node.what);
    }
    found
}

/// A name of one empty segment.
fn nobody(alloc: Global, place: u32) -> Result<Path, NoMemory>
    ensures { IfOk result (λ path. path ≡ record nobody { place = place }) }
{
    let mut path = Segments::new(alloc);
    path.push(Name::of(Vec::new(alloc)))?;
    Ok(Path {
        place,
        absolute: false,
        path,
        chain: Segments::new(alloc),
    })
}

/// The first name among nodes, or one of an empty segment at this place, where there is none.
pub fn path_or(alloc: Global, place: u32, nodes: Vec<DraftNode>) -> Result<Path, NoMemory>
    ensures { IfOk result (λ path. path ≡ path_or place (names nodes.items)) }
{
    match first_path(nodes) {
        Some(path) => Ok(path),
        None => nobody(alloc, place),
    }
}

/// A copy of the first segment of the first name among nodes, an empty one where there is none.
pub fn first_name(alloc: Global, nodes: Vec<DraftNode>) -> Result<Name, NoMemory>
    ensures { IfOk result (λ name. name ≡ first_segment (first_name (names nodes.items)).path) }
{
    let path = path_or(alloc, 0, nodes)?;
    match path.path.as_slice().first() {
        Some(name) => Ok(Name::of(Vec::from_slice(alloc, name.bytes())?)),
        None => Ok(Name::of(Vec::new(alloc))),
    }
}

/// What the end of an import says.
#[derive(Clone, Copy)]
pub struct Ending {
    pub star: bool,
    pub recursive: bool,
    pub all: bool,
}

impl Ending {
    /// One node more.
    fn add(&mut self, what: &What)
        ensures star { self.new.star ≡ (self.old.star || is_star what.now) }
        ensures recursive { self.new.recursive ≡ (self.old.recursive || is_deep what.now) }
        ensures all { self.new.all ≡ (self.old.all || is_all what.now) }
    {
        match what {
            What::Star => self.star = true,
            What::Deep => self.recursive = true,
            What::All => self.all = true,
            _ => {}
        }
    }
}

/// What the nodes of an import say beside its name.
pub fn read_ending(nodes: &[DraftNode]) -> Ending
    ensures star { result.star ≡ has_what is_star nodes.now }
    ensures recursive { result.recursive ≡ has_what is_deep nodes.now }
    ensures all { result.all ≡ has_what is_all nodes.now }
{
    let mut ending = Ending {
        star: false,
        recursive: false,
        all: false,
    };
    for node in nodes {
        ending.add(&node.what);
    }
    ending
}

/// The segment goes on the path of the name, where the node is one.
fn with_segment(node: DraftNode, segment: Name) -> Result<DraftNode, NoMemory>
    ensures { IfOk result (λ n. n ≡ record node {
      what =
          named_changed (with_segment segment) node.what;
    }) }
{
    let place = node.place;
    let what = node.what;
    match what {
        What::Named(mut path) => {
            path.path.push(segment)?;
            Ok(DraftNode {
                what: What::Named(path),
                place,
            })
        }
        other => Ok(DraftNode { what: other, place }),
    }
}

/// The step goes on the chain of the name, where the node is one.
fn with_step(node: DraftNode, step: Name) -> Result<DraftNode, NoMemory>
    ensures { IfOk result (λ n. n ≡ record node {
      what =
          named_changed (with_step step) node.what;
    }) }
{
    let place = node.place;
    let what = node.what;
    match what {
        What::Named(mut path) => {
            path.chain.push(step)?;
            Ok(DraftNode {
                what: What::Named(path),
                place,
            })
        }
        other => Ok(DraftNode { what: other, place }),
    }
}

/// The segment goes on the path of the name that was read last.
pub fn add_segment(nodes: &mut Row<DraftNode>, segment: Name) -> Result<(), NoMemory>
    ensures { OnOk result (nodes.new ≡ last_changed (with_segment segment) nodes.old) }
{
    if let Some(node) = nodes.pop() {
        nodes.push(with_segment(node, segment)?)?;
    }
    Ok(())
}

/// The step goes on the chain of the name that was read last.
pub fn add_step(nodes: &mut Row<DraftNode>, step: Name) -> Result<(), NoMemory>
    ensures { OnOk result (nodes.new ≡ last_changed (with_step step) nodes.old) }
{
    if let Some(node) = nodes.pop() {
        nodes.push(with_step(node, step)?)?;
    }
    Ok(())
}
