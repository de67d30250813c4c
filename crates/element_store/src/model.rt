ghost use Rattle.std.specs.Prelude.{◌≡◌, ◌+◌, ◌^◌, ◌<◌, ◌≤◌, ◌↔◌, Some, None, IfOk, IfSome, true};
ghost use Rattle.std.specs.Prelude.{length, map, slice_get};
ghost use Rattle.std.specs.List.{All, list_all};
ghost use Rattle.std.specs.List.Sorted.{IsNonDecreasingBy};
ghost use Rattle.element_store.specs.Model.{data_of, bare_model, bearers, is_owning};
ghost use Rattle.element_store.specs.Model.{members_in, imports_in, Data};
ghost use Rattle.element_store.specs.Numbers.{numbers_from, IsLeastAbove};
ghost use Rattle.element_store.specs.Condition.{IsModel, item_stands, context_fits};
ghost use Rattle.element_store.specs.Condition.{members_of, imports_of};
ghost use Rattle.element_store.specs.Readings.{TargetStands, Owns, HasNode, node_at, nodes_of, place_in};
ghost use Rattle.element_store.specs.Readings.{before_context, AreReferencesOf, ArePartedAt};
ghost use Rattle.element_store.specs.Readings.{redefining_of};

use crate::lists::Items;
use crate::name_table::NameTable;
use crate::number_search::first_above;
use crate::numbers::FileNo;
use crate::outcome::Language;
use crate::owner_table::OwnerTable;
use crate::records::{Element, Import, Member, Reference, Target};
use crate::texts::Name;
use linker_base::NoMemory;
use std::alloc::Global;
use std::marker::Model;

/// The lists of which the model of a file is made. An item's number is its place in its list.
#[derive(Drop)]
pub struct ModelParts {
    /// The number of the file.
    pub file: FileNo,
    /// The language in which it is written.
    pub language: Language,
    /// In preorder; the first is the root.
    pub elements: Vec<Element>,
    /// The members and imports of each element, in text order.
    pub items: Vec<Items>,
    /// In rising place.
    pub members: Vec<Member>,
    /// Element by element: those of its specialisations, or of what a comment is about; then those
    /// in its bounds, its value and its result; then those of the aliases and imports in its body.
    pub references: Vec<Reference>,
    /// In rising place.
    pub imports: Vec<Import>,
    /// The place of each member's first token, its visibility word included, in bytes.
    pub member_places: Vec<u32>,
    /// The place of each reference's first token, in bytes.
    pub reference_places: Vec<u32>,
    /// For each element the places of the nodes of its value, in bytes.
    pub value_places: Vec<Vec<u32>>,
    /// For each element the places of the nodes of its result expression, in bytes.
    pub result_places: Vec<Vec<u32>>,
}

/// The model of a file: its elements, who owns them, what they import and refer to. Numbers are
/// those of `ModelParts`; what holds of each model stands in `specs/Condition`.
#[derive(Drop)]
pub struct FileModel {
    parts: ModelParts,
    // The members by owner and name.
    names: NameTable,
    // The owning member of each element but the root, in the order of the elements.
    owning: Vec<u32>,
    // The imports by namespace.
    imports: OwnerTable,
    // The owned members by namespace whose feature has a redefinition.
    redefining: OwnerTable,
}

impl Model for FileModel {
    ghost use Rattle.element_store.specs.Model.{Data, data_of};
    ghost use Rattle.element_store.specs.Condition.{IsModel};
    ghost use Rattle.element_store.specs.Tables.{HasTables};

    ghost Value = { Data };

    ghost view = { λ m. data_of m.parts };

    ghost invariant = { λ m. IsModel (data_of m.parts)
        × HasTables (data_of m.parts) m.names m.owning.items m.imports m.redefining };
}

// The lists of a file with nothing in it.
fn bare_parts(alloc: Global, file: FileNo, language: Language) -> Result<ModelParts, NoMemory>
    ensures { IfOk result (λ parts. data_of parts ≡ bare_model file language) }
{
    Ok(ModelParts {
        file,
        language,
        elements: vec![in alloc; Element::root()]?,
        items: vec![in alloc; Items::new(alloc)]?,
        members: Vec::new(alloc),
        references: Vec::new(alloc),
        imports: Vec::new(alloc),
        member_places: Vec::new(alloc),
        reference_places: Vec::new(alloc),
        value_places: vec![in alloc; Vec::new(alloc)]?,
        result_places: vec![in alloc; Vec::new(alloc)]?,
    })
}

// The numbers of the members that own an element, in order, and so in the order of the elements.
fn owning_members(alloc: Global, members: &[Member]) -> Result<Vec<u32>, NoMemory>
    requires { length members.now < 2 ^ 32 }
    ensures { IfOk result (λ owning. owning.items ≡ numbers_from 0 is_owning members.now) }
{
    let mut owning = Vec::new(alloc);
    for (number, member) in members.iter().enumerate() {
        if let Target::Owned(_) = member.target {
            owning.push(number as u32)?;
        }
    }
    Ok(owning)
}

// The place of a node among those of all expressions of one sort.
fn node_place(places: &[Vec<u32>], element: u32, node: u32) -> u32
    requires { HasNode (map (λ list. list.items) places.now) element node }
    ensures { node_at (map (λ list. list.items) places.now) element node ≡ Some result }
{
    places[element as usize][node as usize]
}

// How many references have a context before this one. They stand element by element, so a binary
// search finds the first of the others.
fn count_before(references: &[Reference], context: u32) -> usize
    requires { IsNonDecreasingBy (λ reference. reference.context) references.now }
    ensures count { result ≡ before_context references.now context }
    ensures parts { ArePartedAt references.now context result }
{
    references.partition_point(|reference| reference.context < context)
}

impl FileModel {
    /// Makes the model with these lists.
    pub fn of(alloc: Global, parts: ModelParts) -> Result<FileModel, NoMemory>
        requires { IsModel (data_of parts) }
        ensures { IfOk result (λ model. model ≡ data_of parts) }
    {
        let names = NameTable::of(alloc, &parts.members)?;
        let owning = owning_members(alloc, &parts.members)?;
        let imports = OwnerTable::of_imports(alloc, &parts.imports)?;
        let redefining = OwnerTable::of_redefining(alloc, &parts.members, &parts.references)?;
        Ok(FileModel {
            parts,
            names,
            owning,
            imports,
            redefining,
        })
    }

    /// Makes the model of a file with nothing in it: the root alone.
    pub fn bare(alloc: Global, file: FileNo, language: Language) -> Result<FileModel, NoMemory>
        ensures { IfOk result (λ model. model ≡ bare_model file language) }
    {
        FileModel::of(alloc, bare_parts(alloc, file, language)?)
    }

    /// Lends the element of that number. Its owner stands before it.
    pub fn element(&self, index: u32) -> &Element
        requires { index < length self.now.elements }
        ensures lent { slice_get self.now.elements index ≡ Some result.now }
        ensures owner { IfSome result.now.owner (λ owner. owner < index) }
    {
        &self.parts.elements[index as usize]
    }

    /// Lends the member of that number. Its owner and its target stand in the model.
    pub fn member(&self, index: u32) -> &Member
        requires { index < length self.now.members }
        ensures lent { slice_get self.now.members index ≡ Some result.now }
        ensures owner { result.now.owner < length self.now.elements }
        ensures target { TargetStands self.now result.now.target }
    {
        &self.parts.members[index as usize]
    }

    /// Lends the reference of that number. Its context stands in the model and fits its role, and its
    /// path has a segment.
    pub fn reference(&self, index: u32) -> &Reference
        requires { index < length self.now.references }
        ensures lent { slice_get self.now.references index ≡ Some result.now }
        ensures context { result.now.context < length self.now.elements }
        ensures fits { context_fits self.now result.now ≡ true }
        ensures path { 0 < length result.now.path }
    {
        &self.parts.references[index as usize]
    }

    /// Lends the import of that number. Its owner and its reference stand in the model.
    pub fn import(&self, index: u32) -> &Import
        requires { index < length self.now.imports }
        ensures lent { slice_get self.now.imports index ≡ Some result.now }
        ensures owner { result.now.owner < length self.now.elements }
        ensures reference { result.now.reference < length self.now.references }
    {
        &self.parts.imports[index as usize]
    }

    /// Lends the members and imports of that element, in text order: they are all whose owner it is.
    pub fn items(&self, element: u32) -> &Items
        requires { element < length self.now.elements }
        ensures lent { slice_get self.now.items element ≡ Some result.now }
        ensures members { members_in result.now ≡ members_of self.now element }
        ensures imports { imports_in result.now ≡ imports_of self.now element }
        ensures stand { list_all (item_stands self.now) result.now ≡ true }
    {
        &self.parts.items[element as usize]
    }

    /// The number of elements, the root included. A caller learns here all that holds of a model.
    pub fn elements(&self) -> u32
        ensures count { result ≡ length self.now.elements }
        ensures model { IsModel self.now }
    {
        self.parts.elements.len() as u32
    }

    /// The number of members.
    pub fn members(&self) -> u32
        ensures { result ≡ length self.now.members }
    {
        self.parts.members.len() as u32
    }

    /// The number of references.
    pub fn references(&self) -> u32
        ensures { result ≡ length self.now.references }
    {
        self.parts.references.len() as u32
    }

    /// The number of imports.
    pub fn imports(&self) -> u32
        ensures { result ≡ length self.now.imports }
    {
        self.parts.imports.len() as u32
    }

    /// The language in which the file is written.
    pub fn language(&self) -> Language
        ensures { result ≡ self.now.language }
    {
        self.parts.language
    }

    /// The place of the first token of that member, its visibility word included, in bytes.
    pub fn place_of_member(&self, index: u32) -> u32
        requires { index < length self.now.members }
        ensures { slice_get self.now.member_places index ≡ Some result }
    {
        self.parts.member_places[index as usize]
    }

    /// The place of the first token of that reference, in bytes.
    pub fn place_of_reference(&self, index: u32) -> u32
        requires { index < length self.now.references }
        ensures { slice_get self.now.reference_places index ≡ Some result }
    {
        self.parts.reference_places[index as usize]
    }

    /// The place, in bytes, of a node of the value of that element or, with `of_result`, of its result
    /// expression: of an operator its sign or word, of `if` the word, of a leaf its first token.
    pub fn place_of_node(&self, element: u32, of_result: bool, node: u32) -> u32
        requires { node < nodes_of self.now of_result element }
        ensures { place_in self.now of_result element node ≡ Some result }
    {
        if of_result {
            node_place(&self.parts.result_places, element, node)
        } else {
            node_place(&self.parts.value_places, element, node)
        }
    }

    /// The owning member of that element. `None` comes for the root alone.
    pub fn member_of(&self, element: u32) -> Option<u32>
        requires { element < length self.now.elements }
        ensures member { IfSome result (Owns self.now element) }
        ensures root { (result ≡ None) ↔ (element ≡ 0) }
    {
        let place = (element as usize).checked_sub(1)?;
        Some(self.owning[place])
    }

    /// The first member of that owner, in their order, that bears the name as a declared name and
    /// stands above `after`. `None` comes where no such member follows.
    pub fn named(&self, element: u32, name: &Name, after: Option<u32>) -> Option<u32>
        requires owner { element < length self.now.elements }
        requires after { IfSome after (λ after. after < length self.now.members) }
        ensures least { IsLeastAbove after (bearers self.now.members element name.now) result }
        ensures within { IfSome result (λ member. member < length self.now.members) }
    {
        first_above(self.bearers(element, name.bytes()), after)
    }

    /// The members of that owner that bear the name as a declared name, in their order.
    pub(crate) fn bearers(&self, element: u32, name: &[u8]) -> &[u32]
        ensures { result.now ≡ bearers self.now.members element name.now }
    {
        self.names.bearers(element, name)
    }

    /// The imports of that namespace, in order.
    pub fn imports_of(&self, element: u32) -> &[u32]
        ensures lent { result.now ≡ imports_of self.now element }
        ensures within { All (λ import. import < length self.now.imports) result.now }
    {
        self.imports.numbers(element)
    }

    /// The owned members of that namespace whose feature has a redefinition, in order.
    pub fn redefining(&self, element: u32) -> &[u32]
        ensures lent { result.now ≡ redefining_of self.now element }
        ensures within { All (λ member. member < length self.now.members) result.now }
    {
        self.redefining.numbers(element)
    }

    /// The number of the first reference of that element, and the number after its last one. The
    /// references of the aliases and imports in its body are its own.
    pub fn references_of(&self, element: u32) -> (u32, u32)
        requires { element < length self.now.elements }
        ensures first { result.0 ≡ before_context self.now.references element }
        ensures after { result.1 ≡ before_context self.now.references (element + 1) }
        ensures own { AreReferencesOf self.now.references element result.0 result.1 }
    {
        let first = count_before(&self.parts.references, element);
        let after = count_before(&self.parts.references, element + 1);
        (first as u32, after as u32)
    }
}
