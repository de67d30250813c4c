ghost use Rattle.std.specs.Prelude.{◌≡◌};
ghost use Rattle.element_store.specs.Kinds.{is_feature, is_type, is_enumeration};
ghost use Rattle.element_store.specs.Model.{no_marks};

/// What an element is: the metaclass that its words name.
///
/// `Root`, `Namespace`, `Package`, `Comment` and `Documentation` are no types. A definition is a
/// type that is no feature. A usage, a feature, a step, a binding and a connector end are features,
/// and so types.
#[derive(Clone, Copy, Debug, PartialEq, Eq)]
pub enum Kind {
    /// The namespace of a whole file.
    Root,
    /// `namespace`.
    Namespace,
    /// `package`.
    Package,
    /// `comment`, or a bare comment.
    Comment,
    /// `doc`.
    Documentation,
    /// `type` of KerML.
    AnyType,
    /// `classifier` of KerML.
    Classifier,
    /// `class` of KerML.
    Class,
    /// `struct` of KerML.
    Struct,
    /// `datatype` of KerML.
    Datatype,
    /// `assoc` of KerML.
    Assoc,
    /// `behavior` of KerML.
    Behavior,
    /// `function` of KerML.
    Function,
    /// `feature` of KerML, and a feature without a word.
    Feature,
    /// `step` of KerML.
    Step,
    /// `attribute def`.
    AttributeDef,
    /// `enum def`.
    EnumDef,
    /// `attribute`.
    Attribute,
    /// `enum`, and an item of an enumeration definition without a word.
    Enumeration,
    /// `occurrence def`.
    OccurrenceDef,
    /// `occurrence`.
    Occurrence,
    /// `item def`.
    ItemDef,
    /// `item`.
    Item,
    /// `part def`.
    PartDef,
    /// `part`.
    Part,
    /// `port def`.
    PortDef,
    /// `port`.
    Port,
    /// `connection def`.
    ConnectionDef,
    /// `connection`, and a `connect` alone.
    Connection,
    /// `interface def`.
    InterfaceDef,
    /// `interface`.
    Interface,
    /// `action def`.
    ActionDef,
    /// `action`.
    Action,
    /// `calc def`.
    CalcDef,
    /// `calc`.
    Calc,
    /// `constraint def`.
    ConstraintDef,
    /// `constraint`, `assume` and `require`.
    Constraint,
    /// `requirement def`.
    RequirementDef,
    /// `requirement`.
    Requirement,
    /// A usage of SysML without a kind's word, and `subject`.
    Reference,
    /// An end of a connection, an interface or a binding.
    ConnectorEnd,
    /// `bind`, and `binding`.
    Binding,
}

impl Kind {
    /// Whether elements of this kind are features: usages, steps, bindings and connector ends too.
    pub fn is_feature(self) -> bool
        ensures { result ≡ is_feature self }
    {
        match self {
            Kind::Feature | Kind::Step => true,
            Kind::Attribute | Kind::Enumeration | Kind::Occurrence | Kind::Item => true,
            Kind::Part | Kind::Port | Kind::Connection | Kind::Interface => true,
            Kind::Action | Kind::Calc | Kind::Constraint | Kind::Requirement => true,
            Kind::Reference | Kind::ConnectorEnd | Kind::Binding => true,
            _ => false,
        }
    }

    /// Whether elements of this kind are types: definitions and features.
    pub fn is_type(self) -> bool
        ensures { result ≡ is_type self }
    {
        match self {
            Kind::Root | Kind::Namespace | Kind::Package => false,
            Kind::Comment | Kind::Documentation => false,
            _ => true,
        }
    }

    /// Whether elements of this kind are enumeration definitions.
    pub fn is_enumeration(self) -> bool
        ensures { result ≡ is_enumeration self }
    {
        matches!(self, Kind::EnumDef)
    }
}

/// Who sees a member or what an import brings (KerML 8.3.2.4, VisibilityKind).
#[derive(Clone, Copy, Debug, PartialEq, Eq)]
pub enum Visibility {
    /// All.
    Public,
    /// The namespace, and types that specialise it.
    Protected,
    /// The namespace alone.
    Private,
}

/// Which way a feature's values go (KerML 8.3.3.1, FeatureDirectionKind).
#[derive(Clone, Copy, Debug, PartialEq, Eq)]
pub enum Direction {
    /// No word is written.
    None,
    /// `in`.
    In,
    /// `out`.
    Out,
    /// `inout`.
    InOut,
}

/// Which part of a calculation or requirement an element is.
#[derive(Clone, Copy, Debug, PartialEq, Eq)]
pub enum PartOf {
    /// No word is written.
    Plain,
    /// `return`.
    Return,
    /// `subject`.
    Subject,
    /// `assume`.
    Assume,
    /// `require`.
    Require,
}

/// The words before an element's own, each set exactly where it is written for that element. A
/// connector end has none.
#[derive(Clone, Copy, Debug, PartialEq, Eq)]
pub struct Marks {
    /// `library`, of a package.
    pub library: bool,
    /// `standard`, of a library package.
    pub standard: bool,
    /// `end`.
    pub end: bool,
    /// `in`, `out` or `inout`.
    pub direction: Direction,
    /// `derived`.
    pub derived: bool,
    /// `abstract`.
    pub is_abstract: bool,
    /// `composite` of KerML.
    pub composite: bool,
    /// `constant` in SysML, `const` in KerML.
    pub constant: bool,
    /// `ref`.
    pub reference: bool,
    /// `ordered`.
    pub ordered: bool,
    /// `nonunique`.
    pub nonunique: bool,
    /// `default` before the value.
    pub default: bool,
    /// `return`, `subject`, `assume` or `require`.
    pub part_of: PartOf,
}

impl Marks {
    /// No word is written.
    pub fn none() -> Marks
        ensures { result ≡ no_marks }
    {
        Marks {
            library: false,
            standard: false,
            end: false,
            direction: Direction::None,
            derived: false,
            is_abstract: false,
            composite: false,
            constant: false,
            reference: false,
            ordered: false,
            nonunique: false,
            default: false,
            part_of: PartOf::Plain,
        }
    }
}
