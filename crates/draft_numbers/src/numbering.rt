ghost use Rattle.std.specs.Prelude.{◌≡◌, IfOk, OnOk, map, slice_get};
ghost use Rattle.element_store.specs.Model.{data_of};
ghost use Rattle.text_model.specs.Numbering.{nodes_of, places_of};
ghost use Rattle.draft_numbers.specs.Numbered.{ArePartsOf, IsNumbered, data_with, import_as, inner_reference, member_as, name_of, no_lists, short_of, with_draft, with_drafts, with_element, with_parts, with_places, with_references};

use crate::references::{References, number_of};
use element_store::{
    Element, FileNo, Import, Items, Kind, Language, Member, ModelParts, Name, Target,
};
use linker_base::NoMemory;
use std::alloc::Global;
use std::marker::Model;
use text_model::draft::{Draft, DraftExpr, DraftImport, DraftMember, DraftNode, DraftTarget};

/// The number of a file, and its language.
#[derive(Clone, Copy, Debug, PartialEq, Eq)]
pub struct Heading {
    pub file: FileNo,
    pub language: Language,
}

/// The lists of a model that have an item for each element, and the references.
#[derive(Drop)]
struct Lists {
    alloc: Global,
    elements: Vec<Element>,
    items: Vec<Items>,
    // Where the references of an element's aliases and imports begin.
    bases: Vec<u32>,
    // The places of the nodes of each one's value, and of each one's result.
    values: Vec<Vec<u32>>,
    results: Vec<Vec<u32>>,
    // The references that have their numbers.
    numbered: References,
}

/// What the lists take of a draft, beside its references.
#[derive(Drop)]
struct Parts {
    element: Element,
    items: Items,
    // Where the references of its aliases and imports begin.
    base: u32,
    // The places of the nodes of its value, and of its result.
    values: Vec<u32>,
    results: Vec<u32>,
}

impl Model for Lists {
    ghost use Rattle.std.specs.Prelude.{map};
    ghost use Rattle.draft_numbers.specs.Numbered.{Lists};

    ghost Value = { Lists };

    ghost view = { λ a. record {
      elements = a.elements.items;
      items = a.items.items;
      bases = a.bases.items;
      values = map (λ p. p.items) a.values.items;
      results = map (λ p. p.items) a.results.items;
      refs = a.numbered;
    } };
}

/// The places of nodes.
fn node_places(alloc: Global, nodes: &[DraftNode]) -> Result<Vec<u32>, NoMemory>
    ensures { IfOk result (λ places. places.items ≡ places_of nodes.now) }
{
    let mut places = Vec::with_capacity(alloc, nodes.len())?;
    for node in nodes {
        places.push(node.place)?;
    }
    Ok(places)
}

/// The places of the nodes of an expression.
fn places_of(alloc: Global, expr: &Option<DraftExpr>) -> Result<Vec<u32>, NoMemory>
    ensures { IfOk result (λ places. places.items ≡ places_of (nodes_of expr.now)) }
{
    match expr {
        Some(expr) => Ok(node_places(alloc, expr.nodes.as_slice())?),
        None => Ok(Vec::new(alloc)),
    }
}

/// An equal name.
fn copied(alloc: Global, name: &Option<Name>) -> Result<Option<Name>, NoMemory>
    ensures { IfOk result (λ copy. copy ≡ name.now) }
{
    match name {
        Some(name) => Ok(Some(Name::of(Vec::from_slice(alloc, name.bytes())?))),
        None => Ok(None),
    }
}

impl Lists {
    /// Lists of nothing, with room for so many elements.
    fn new(alloc: Global, count: usize) -> Result<Lists, NoMemory>
        ensures { IfOk result (λ lists. lists ≡ no_lists) }
    {
        Ok(Lists {
            alloc,
            elements: Vec::with_capacity(alloc, count)?,
            items: Vec::with_capacity(alloc, count)?,
            bases: Vec::with_capacity(alloc, count)?,
            values: Vec::with_capacity(alloc, count)?,
            results: Vec::with_capacity(alloc, count)?,
            numbered: References::new(alloc, count)?,
        })
    }

    /// The references of a draft come next. The rest of what the lists take of it.
    fn take(&mut self, draft: Draft) -> Result<Parts, NoMemory>
        ensures parts { IfOk result (λ parts. ArePartsOf self.old draft parts) }
        ensures added { OnOk result (self.new ≡ with_references draft self.old) }
    {
        let values = places_of(self.alloc, &draft.value)?;
        let results = places_of(self.alloc, &draft.result)?;
        let number = number_of(self.elements.len())?;
        let (element, items, base) = self.numbered.add_draft(self.alloc, number, draft)?;
        Ok(Parts {
            element,
            items,
            base,
            values,
            results,
        })
    }

    /// An element and its items come next, and where the references of its aliases and imports
    /// begin.
    fn push_element(&mut self, element: Element, items: Items, base: u32) -> Result<(), NoMemory>
        ensures { OnOk result (self.new ≡ with_element element items base self.old) }
    {
        self.elements.push(element)?;
        self.items.push(items)?;
        self.bases.push(base)?;
        Ok(())
    }

    /// The places of a value and of a result come next.
    fn push_places(&mut self, values: Vec<u32>, results: Vec<u32>) -> Result<(), NoMemory>
        ensures { OnOk result (self.new ≡ with_places values.items results.items self.old) }
    {
        self.values.push(values)?;
        self.results.push(results)?;
        Ok(())
    }

    /// The parts of a draft come next.
    fn push(&mut self, parts: Parts) -> Result<(), NoMemory>
        ensures { OnOk result (self.new ≡ with_parts parts self.old) }
    {
        self.push_element(parts.element, parts.items, parts.base)?;
        self.push_places(parts.values, parts.results)?;
        Ok(())
    }

    /// The element of a draft comes next.
    fn add(&mut self, draft: Draft) -> Result<(), NoMemory>
        ensures { OnOk result (self.new ≡ with_draft draft self.old) }
    {
        let parts = self.take(draft)?;
        self.push(parts)?;
        Ok(())
    }

    /// The elements of drafts come next.
    fn add_all(&mut self, drafts: Vec<Draft>) -> Result<(), NoMemory>
        ensures { OnOk result (self.new ≡ with_drafts self.old drafts.items) }
    {
        for draft in drafts {
            self.add(draft)?;
        }
        Ok(())
    }

    /// The number of a reference of an alias or an import.
    fn reference(&self, owner: u32, at: u32) -> Result<u32, NoMemory>
        ensures { IfOk result (λ number. number ≡ inner_reference self.now owner at) }
    {
        let base = match self.bases.get(owner as usize) {
            Some(base) => *base,
            None => self.numbered.count()?,
        };
        match base.checked_add(at) {
            Some(number) => Ok(number),
            None => Err(NoMemory),
        }
    }

    /// A copy of an element's short name.
    fn short_of(&self, element: u32) -> Result<Option<Name>, NoMemory>
        ensures { IfOk result (λ name. name ≡ short_of (slice_get self.now.elements element)) }
    {
        match self.elements.get(element as usize) {
            Some(element) => copied(self.alloc, &element.short),
            None => Ok(None),
        }
    }

    /// A copy of an element's name.
    fn name_of(&self, element: u32) -> Result<Option<Name>, NoMemory>
        ensures { IfOk result (λ name. name ≡ name_of (slice_get self.now.elements element)) }
    {
        match self.elements.get(element as usize) {
            Some(element) => copied(self.alloc, &element.name),
            None => Ok(None),
        }
    }

    /// The member of a draft.
    fn member(&self, draft: DraftMember) -> Result<Member, NoMemory>
        ensures { IfOk result (λ member. member ≡ member_as self.now draft.target draft) }
    {
        match draft.target {
            DraftTarget::Owned(element) => Ok(Member {
                owner: draft.owner,
                target: Target::Owned(element),
                short: self.short_of(element)?,
                name: self.name_of(element)?,
                visibility: draft.visibility,
            }),
            DraftTarget::Alias(at) => Ok(Member {
                owner: draft.owner,
                target: Target::Alias(self.reference(draft.owner, at)?),
                short: draft.short,
                name: draft.name,
                visibility: draft.visibility,
            }),
        }
    }

    /// The import of a draft.
    fn import(&self, draft: DraftImport) -> Result<Import, NoMemory>
        ensures { IfOk result (λ import. import ≡ import_as self.now draft) }
    {
        Ok(Import {
            owner: draft.owner,
            reference: self.reference(draft.owner, draft.at)?,
            star: draft.star,
            recursive: draft.recursive,
            all: draft.all,
            visibility: draft.visibility,
        })
    }

    /// The members of drafts.
    fn members(&self, drafts: Vec<DraftMember>) -> Result<Vec<Member>, NoMemory>
        ensures { IfOk result (λ members. members.items
            ≡ map (λ m. member_as self.now m.target m) drafts.items) }
    {
        let mut members = Vec::with_capacity(self.alloc, drafts.len())?;
        for draft in drafts {
            members.push(self.member(draft)?)?;
        }
        Ok(members)
    }

    /// The imports of drafts.
    fn imports(&self, drafts: Vec<DraftImport>) -> Result<Vec<Import>, NoMemory>
        ensures { IfOk result (λ imports. imports.items ≡ map (import_as self.now) drafts.items) }
    {
        let mut imports = Vec::with_capacity(self.alloc, drafts.len())?;
        for draft in drafts {
            imports.push(self.import(draft)?)?;
        }
        Ok(imports)
    }

    /// The lists of a model with these members, whose places these are, and these imports.
    fn into_parts(
        self,
        heading: Heading,
        members: Vec<Member>,
        member_places: Vec<u32>,
        imports: Vec<Import>,
    ) -> ModelParts
        ensures { data_of result ≡ data_with heading self members.items member_places.items
            imports.items }
    {
        let (references, reference_places) = self.numbered.into_parts();
        ModelParts {
            file: heading.file,
            language: heading.language,
            elements: self.elements,
            items: self.items,
            members,
            references,
            imports,
            member_places,
            reference_places,
            value_places: self.values,
            result_places: self.results,
        }
    }
}

/// The places of members.
fn member_places(alloc: Global, members: &[DraftMember]) -> Result<Vec<u32>, NoMemory>
    ensures { IfOk result (λ places. places.items ≡ map (λ m. m.place) members.now) }
{
    let mut places = Vec::with_capacity(alloc, members.len())?;
    for member in members {
        places.push(member.place)?;
    }
    Ok(places)
}

/// The lists that took the drafts.
fn lists_of(alloc: Global, drafts: Vec<Draft>) -> Result<Lists, NoMemory>
    ensures { IfOk result (λ lists. lists ≡ with_drafts no_lists drafts.items) }
{
    let mut lists = Lists::new(alloc, drafts.len())?;
    lists.add_all(drafts)?;
    Ok(lists)
}

/// The lists of the model of a file, of its elements, members and imports as they were read. References get
/// their numbers element by element, and in each in the order of the model: own names and specialisations,
/// bounds, value, result, and those of the aliases and imports of its body. A member gets the names of its
/// element. Places are in bytes from the start of the text. `NoMemory` says nothing of the lists.
pub fn number(
    alloc: Global,
    heading: Heading,
    elements: Vec<Draft>,
    members: Vec<DraftMember>,
    imports: Vec<DraftImport>,
) -> Result<ModelParts, NoMemory>
    ensures { IfOk result (λ parts. IsNumbered heading elements.items members.items imports.items
        (data_of parts)) }
{
    let lists = lists_of(alloc, elements)?;
    let places = member_places(alloc, &members)?;
    let members = lists.members(members)?;
    let imports = lists.imports(imports)?;
    Ok(lists.into_parts(heading, members, places, imports))
}
