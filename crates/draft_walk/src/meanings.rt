ghost use Rattle.std.specs.Prelude.{◌≡◌, ◌<◌, ◌^◌, ℕ, List, Some, true, pos, OnOk, SomeIff};
ghost use Rattle.text_model.specs.Drafts.{definition_of, marked};
ghost use Rattle.text_model.specs.Walk.{begins_name, changed, leaf_node, meant, meant_integer, meant_name};
ghost use Rattle.text_model.specs.Walk.{meant_operator, reads};
ghost use Rattle.draft_walk.specs.Telling.{is_plain};

use crate::nodes;
use crate::walker::{Walker, put};
use element_store::{Direction, Kind, Marks, Name, PartOf, Segments, Text, Visibility};
use linker_base::NoMemory;
use text_model::action::{Action, Leaf, Mark, Meaning, Operator};
use text_model::draft::{Path, Seen, Waiting, What};
use token_core::Token;

/// The marks have this one.
fn set_mark(mark: Mark, marks: &mut Marks)
    ensures { marks.new ≡ marked mark marks.old }
{
    match mark {
        Mark::Library => marks.library = true,
        Mark::Standard => marks.standard = true,
        Mark::End => marks.end = true,
        Mark::Derived => marks.derived = true,
        Mark::Abstract => marks.is_abstract = true,
        Mark::Composite => marks.composite = true,
        Mark::Constant => marks.constant = true,
        Mark::Reference => marks.reference = true,
        Mark::Ordered => marks.ordered = true,
        Mark::Nonunique => marks.nonunique = true,
        Mark::Default => marks.default = true,
    }
}

/// The kind becomes that of its definitions; it stays where there are none.
fn define(kind: &mut Kind)
    ensures { kind.new ≡ definition_of kind.old }
{
    *kind = match *kind {
        Kind::Attribute => Kind::AttributeDef,
        Kind::Enumeration => Kind::EnumDef,
        Kind::Occurrence => Kind::OccurrenceDef,
        Kind::Item => Kind::ItemDef,
        Kind::Part => Kind::PartDef,
        Kind::Port => Kind::PortDef,
        Kind::Connection => Kind::ConnectionDef,
        Kind::Interface => Kind::InterfaceDef,
        Kind::Action => Kind::ActionDef,
        Kind::Calc => Kind::CalcDef,
        Kind::Constraint => Kind::ConstraintDef,
        Kind::Requirement => Kind::RequirementDef,
        other => other,
    };
}

/// The node of a word or sign that is one by itself.
fn leaf_node(leaf: Leaf) -> What
    ensures { result ≡ leaf_node leaf }
{
    match leaf {
        Leaf::Boolean(value) => What::Boolean(value),
        Leaf::Null => What::Null,
        Leaf::All => What::All,
        Leaf::Deep => What::Deep,
    }
}

impl<'a> Walker<'a> {
    /// The element that is open has this mark.
    fn mark(&mut self, mark: Mark)
        ensures { self.new ≡ changed (λ d. record d { marks = marked mark d.marks }) self.old }
    {
        set_mark(mark, &mut self.elements[self.current].marks);
    }

    /// The element that is open has this direction.
    fn set_direction(&mut self, way: Direction)
        ensures { self.new ≡ changed
            (λ d. record d { marks = record d.marks { direction = way } }) self.old }
    {
        self.elements[self.current].marks.direction = way;
    }

    /// The element that is open is this part of the one around it.
    fn set_part(&mut self, part: PartOf)
        ensures { self.new ≡ changed
            (λ d. record d { marks = record d.marks { part_of = part } }) self.old }
    {
        self.elements[self.current].marks.part_of = part;
    }

    /// The element that is open has this kind.
    fn set_kind(&mut self, kind: Kind)
        ensures { self.new ≡ changed (λ d. record d { kind = kind }) self.old }
    {
        self.elements[self.current].kind = kind;
    }

    /// The element that is open is the definition of its kind.
    fn define(&mut self)
        ensures { self.new ≡ changed (λ d. record d { kind = definition_of d.kind }) self.old }
    {
        define(&mut self.elements[self.current].kind);
    }

    /// The element that is open is a comment that says this.
    pub fn set_body(&mut self, body: Text)
        ensures { self.new ≡ changed (λ d. record d { body = Some body }) self.old }
    {
        put(&mut self.elements[self.current].body, Some(body));
    }

    /// A visibility word waits for its item.
    fn see(&mut self, place: u32, visibility: Visibility)
        ensures { self.new ≡ record self.old {
          waiting =
              Some (record { place = place; visibility = visibility });
        } }
    {
        self.waiting = Some(Seen { place, visibility });
    }

    /// An integer is read; one above the greatest is noted, and 0.
    pub fn take_integer(&mut self, value: Option<i64>, place: u32) -> Result<(), NoMemory>
        ensures { OnOk result ((n : ℕ) → SomeIff value (n < 2 ^ 63) (pos n)
            → self.new ≡ meant_integer n place self.old) }
    {
        if value.is_none() {
            self.large.push(place)?;
        }
        self.push(What::Integer(value.unwrap_or(0)), place)?;
        Ok(())
    }

    /// A name begins, at a `$` that waits for it or by itself.
    fn begin_name(&mut self, place: u32, name: Name) -> Result<(), NoMemory>
        ensures { OnOk result ((t : Token) → t.from ≡ place
            → self.new ≡ reads (begins_name t name) self.old) }
    {
        let mut path = Segments::new(self.alloc);
        path.push(name)?;
        let place = self.reading.root.unwrap_or(place);
        let absolute = self.reading.root.is_some();
        self.reading.root = None;
        let chain = Segments::new(self.alloc);
        self.push(
            What::Named(Path {
                place,
                absolute,
                path,
                chain,
            }),
            place,
        )?;
        Ok(())
    }

    /// A name is read, below a production with this action.
    pub fn take_name(&mut self, action: Action, place: u32, name: Name) -> Result<(), NoMemory>
        ensures { OnOk result ((t : Token) → t.from ≡ place
            → self.new ≡ meant_name action t name self.old) }
    {
        match action {
            Action::Name => self.reading.name = Some(name),
            Action::Short => self.reading.short = Some(name),
            Action::Segment => nodes::add_segment(&mut self.reading.nodes, name)?,
            Action::Step => nodes::add_step(&mut self.reading.nodes, name)?,
            _ => self.begin_name(place, name)?,
        }
        Ok(())
    }

    /// An operator is read, below a production with this action.
    fn take_operator(
        &mut self,
        action: Action,
        operator: Operator,
        place: u32,
    ) -> Result<(), NoMemory>
        ensures { OnOk result (self.new ≡ meant_operator action operator place self.old) }
    {
        match action {
            Action::Star => self.push(What::Star, place)?,
            _ => self.reading.operator = Some(Waiting { operator, place }),
        }
        Ok(())
    }

    /// A word or sign with this meaning is read, below a production with this action.
    pub fn take_word(
        &mut self,
        action: Action,
        meaning: Meaning,
        token: Token,
    ) -> Result<(), NoMemory>
        requires { is_plain meaning ≡ true }
        ensures { OnOk result ((text : List ℕ)
            → self.new ≡ meant text action meaning token self.old) }
    {
        let place = token.from;
        match meaning {
            Meaning::Nothing => {}
            Meaning::Mark(mark) => self.mark(mark),
            Meaning::Direction(way) => self.set_direction(way),
            Meaning::PartOf(part) => self.set_part(part),
            Meaning::Visibility(visibility) => self.see(place, visibility),
            Meaning::Kind(kind) => self.set_kind(kind),
            Meaning::Def => self.define(),
            Meaning::Leaf(leaf) => self.push(leaf_node(leaf), place)?,
            Meaning::Absolute => self.reading.root = Some(place),
            Meaning::Operator(operator) => self.take_operator(action, operator, place)?,
            Meaning::Comment | Meaning::Text | Meaning::Integer | Meaning::Name => unreachable!(),
        }
        Ok(())
    }
}
