ghost use Rattle.std.specs.Prelude.{◌≡◌, ◌+◌, ◌∷◌, ◌++◌, [], IfOk, OnOk, length};
ghost use Rattle.element_store.specs.declared.outcome.Role.TheVariants as role;
ghost use Rattle.text_model.specs.Drafts.{mention, mentions, name_in, names, own_role};
ghost use Rattle.text_model.specs.Numbering.{bounds_of, element, end_of, ends, head, mentions_of, node_of, nodes_of, numbered, numbered_in};
ghost use Rattle.draft_numbers.specs.Numbered.{added, expression_mentions, next, no_refs};

use element_store::{Bounds, Element, Expr, Items, Kind, Limit, Node, Reference, Role};
use linker_base::NoMemory;
use std::alloc::Global;
use std::marker::Model;
use text_model::draft::{Draft, DraftExpr, DraftNode, Mention, Path, Row, What};

/// References in the order of their numbers, and their places.
#[derive(Drop)]
pub struct References {
    items: Vec<Reference>,
    places: Vec<u32>,
}

/// A count as a number. No text is long enough for a count that is none.
pub fn number_of(count: usize) -> Result<u32, NoMemory>
    ensures { IfOk result (λ number. number ≡ count) }
{
    match u32::try_from(count) {
        Ok(number) => Ok(number),
        Err(_) => Err(NoMemory),
    }
}

/// The role of names that are read in an element directly.
fn own_role(kind: Kind) -> Role
    ensures { result ≡ own_role kind }
{
    match kind {
        Kind::Comment => Role::About,
        _ => Role::ReferenceSubsetting,
    }
}

impl Model for References {
    ghost use Rattle.draft_numbers.specs.Numbered.{Refs};

    ghost Value = { Refs };

    ghost view = { λ a. record { references = a.items.items; places = a.places.items } };
}

impl References {
    /// No reference, with room for so many.
    pub fn new(alloc: Global, count: usize) -> Result<References, NoMemory>
        ensures { IfOk result (λ refs. refs ≡ no_refs) }
    {
        Ok(References {
            items: Vec::with_capacity(alloc, count)?,
            places: Vec::with_capacity(alloc, count)?,
        })
    }

    /// The number of the next reference.
    pub fn count(&self) -> Result<u32, NoMemory>
        ensures { IfOk result (λ number. number ≡ next self.now) }
    {
        number_of(self.items.len())
    }

    /// Lends the places.
    pub fn places(&self) -> &[u32]
        ensures { result.now ≡ self.now.places }
    {
        &self.places
    }

    /// The references and the places by themselves.
    pub fn into_parts(self) -> (Vec<Reference>, Vec<u32>)
        ensures items { result.0.items ≡ self.references }
        ensures places { result.1.items ≡ self.places }
    {
        (self.items, self.places)
    }

    /// A reference more, whose lookup begins at the element `context`. Its number.
    fn add(&mut self, context: u32, role: Role, path: Path) -> Result<u32, NoMemory>
        ensures number { IfOk result (λ number. number ≡ next self.old) }
        ensures added { OnOk result (self.new ≡ added context (mention role path ∷ []) self.old) }
    {
        let number = self.count()?;
        self.places.push(path.place)?;
        self.items.push(Reference {
            role,
            context,
            absolute: path.absolute,
            path: path.path,
            chain: path.chain,
        })?;
        Ok(number)
    }

    /// A reference for each name.
    pub fn add_paths(&mut self, context: u32, role: Role, paths: Vec<Path>) -> Result<(), NoMemory>
        ensures { OnOk result (self.new ≡ added context (mentions role paths.items) self.old) }
    {
        for path in paths {
            self.add(context, role, path)?;
        }
        Ok(())
    }

    /// A reference for each mention.
    pub fn add_mentions(&mut self, context: u32, list: Vec<Mention>) -> Result<(), NoMemory>
        ensures { OnOk result (self.new ≡ added context list.items self.old) }
    {
        for mention in list {
            self.add(context, mention.role, mention.path)?;
        }
        Ok(())
    }

    /// The node, with the number of its reference where it is a name.
    fn add_node(&mut self, context: u32, what: What) -> Result<Node, NoMemory>
        ensures node { IfOk result (λ node. node ≡ node_of (next self.old) what) }
        ensures added { OnOk result (self.new
            ≡ added context (mentions role.Value (name_in what)) self.old) }
    {
        match what {
            What::Integer(value) => Ok(Node::Integer(value)),
            What::Boolean(value) => Ok(Node::Boolean(value)),
            What::Text(text) => Ok(Node::Text(text)),
            What::Named(path) => Ok(Node::Named(self.add(context, Role::Value, path)?)),
            What::Unary(operator) => Ok(Node::Unary(operator)),
            What::Binary(operator) => Ok(Node::Binary(operator)),
            What::If => Ok(Node::If),
            _other => Ok(Node::Null),
        }
    }

    /// The expression with these nodes.
    fn add_nodes(
        &mut self,
        alloc: Global,
        context: u32,
        nodes: Vec<DraftNode>,
    ) -> Result<Expr, NoMemory>
        ensures expr { IfOk result (λ expr. expr ≡ numbered (next self.old) nodes.items) }
        ensures added { OnOk result (self.new
            ≡ added context (mentions role.Value (names nodes.items)) self.old) }
    {
        let mut expr = Expr::new(alloc);
        for node in nodes {
            expr.push(self.add_node(context, node.what)?)?;
        }
        Ok(expr)
    }

    /// The expression, if there is one.
    pub fn add_expression(
        &mut self,
        alloc: Global,
        context: u32,
        expr: Option<DraftExpr>,
    ) -> Result<Option<Expr>, NoMemory>
        ensures expr { IfOk result (λ found. found ≡ numbered_in (next self.old) expr) }
        ensures added { OnOk result (self.new
            ≡ added context (mentions role.Value (names (nodes_of expr))) self.old) }
    {
        match expr {
            Some(expr) => {
                let nodes = self.add_nodes(alloc, context, expr.nodes.into_vec())?;
                Ok(Some(nodes))
            }
            None => Ok(None),
        }
    }

    /// A reference for each own name, and then for each specialization.
    fn add_own(
        &mut self,
        context: u32,
        role: Role,
        own: Row<Path>,
        specs: Row<Mention>,
    ) -> Result<(), NoMemory>
        ensures { OnOk result (self.new ≡ added context (mentions role own ++ specs) self.old) }
    {
        self.add_paths(context, role, own.into_vec())?;
        self.add_mentions(context, specs.into_vec())?;
        Ok(())
    }

    /// Two expressions, those that there are.
    fn add_expressions(
        &mut self,
        alloc: Global,
        context: u32,
        first: Option<DraftExpr>,
        second: Option<DraftExpr>,
    ) -> Result<(Option<Expr>, Option<Expr>), NoMemory>
        ensures first { IfOk result (λ pair. pair.0 ≡ numbered_in (next self.old) first) }
        ensures second { IfOk result (λ pair. pair.1
            ≡ numbered_in (next self.old + length (names (nodes_of first))) second) }
        ensures added { OnOk result (self.new
            ≡ added context (expression_mentions first second) self.old) }
    {
        let one = self.add_expression(alloc, context, first)?;
        let two = self.add_expression(alloc, context, second)?;
        Ok((one, two))
    }

    /// The element of a draft, its items, and where the references of its aliases and imports
    /// begin.
    pub fn add_draft(
        &mut self,
        alloc: Global,
        context: u32,
        draft: Draft,
    ) -> Result<(Element, Items, u32), NoMemory>
        ensures element { IfOk result (λ found. found.0 ≡ element (next self.old) draft) }
        ensures items { IfOk result (λ found. found.1 ≡ draft.items) }
        ensures base { IfOk result (λ found. found.2 ≡ next self.old + length (head draft)) }
        ensures added { OnOk result (self.new ≡ added context (mentions_of draft) self.old) }
    {
        self.add_own(context, own_role(draft.kind), draft.own, draft.specs)?;
        let bounds = self.add_bounds(context, draft.bounds.into_vec())?;
        let (value, result) = self.add_expressions(alloc, context, draft.value, draft.result)?;
        let base = self.count()?;
        self.add_mentions(context, draft.inner.into_vec())?;
        let element = Element {
            kind: draft.kind,
            owner: draft.owner,
            short: draft.short,
            name: draft.name,
            marks: draft.marks,
            body: draft.body,
            locale: draft.locale,
            bounds,
            value,
            result,
        };
        Ok((element, draft.items, base))
    }

    /// An end of a multiplicity.
    fn add_end(&mut self, context: u32, what: What) -> Result<Limit, NoMemory>
        ensures end { IfOk result (λ end. end ≡ end_of (next self.old) what) }
        ensures added { OnOk result (self.new
            ≡ added context (mentions role.Bound (name_in what)) self.old) }
    {
        match what {
            What::Integer(value) => Ok(Limit::Number(value)),
            What::Named(path) => Ok(Limit::Named(self.add(context, Role::Bound, path)?)),
            _other => Ok(Limit::Star),
        }
    }

    /// The bounds of a multiplicity, if there are any. They have at most two ends.
    pub fn add_bounds(
        &mut self,
        context: u32,
        nodes: Vec<DraftNode>,
    ) -> Result<Option<Bounds>, NoMemory>
        ensures bounds { IfOk result (λ bounds. bounds ≡ bounds_of (next self.old) nodes.items) }
        ensures added { OnOk result (self.new
            ≡ added context (mentions role.Bound (names (ends nodes.items))) self.old) }
    {
        let mut nodes = nodes;
        nodes.truncate(2);
        let Some(last) = nodes.pop() else {
            return Ok(None);
        };
        match nodes.pop() {
            None => {
                let upper = self.add_end(context, last.what)?;
                Ok(Some(Bounds {
                    lower: None,
                    upper: Some(upper),
                }))
            }
            Some(first) => {
                let lower = self.add_end(context, first.what)?;
                let upper = self.add_end(context, last.what)?;
                Ok(Some(Bounds {
                    lower: Some(lower),
                    upper: Some(upper),
                }))
            }
        }
    }
}
