ghost use Rattle.std.specs.Prelude.{◌≡◌, ◌<◌, true, Some, None, IfSome, length};
ghost use Rattle.std.specs.Option.{option_and_then};
ghost use Rattle.element_store.specs.Kinds.{base_path};
ghost use Rattle.element_store.specs.BaseRules.{public_target, least_owned, typed, led_to, base_of_kind, enumeration_of, IsIn, StandsIn, enumeration_at, base_of};

use crate::kind::{Kind, Visibility};
use crate::model::FileModel;
use crate::models::Models;
use crate::numbers::{ElementNo, FileNo};
use crate::records::{Element, Member, Target};
use std::marker::Model;

/// Where the library keeps a base: the name of a public member of a file's root, and that of a
/// member of the namespace which it owns.
#[derive(Drop)]
struct BasePath {
    namespace: &'static [u8],
    name: &'static [u8],
}

impl Model for BasePath {
    ghost use Rattle.element_store.specs.Kinds as kinds;

    ghost Value = { kinds.BasePath };

    ghost view = { λ p. record { namespace = p.namespace.now; name = p.name.now } };
}

// The path of these two names.
fn path(namespace: &'static [u8], name: &'static [u8]) -> BasePath
    ensures { result ≡ record { namespace = namespace.now; name = name.now } }
{
    BasePath { namespace, name }
}

/// The path to the base of a kind. `None` comes for a kind that has no base: a root, a namespace, a
/// package or a comment.
fn base_path(kind: Kind) -> Option<BasePath>
    ensures { result ≡ base_path kind }
{
    match kind {
        Kind::Root | Kind::Namespace | Kind::Package => None,
        Kind::Comment | Kind::Documentation => None,
        Kind::AnyType | Kind::Classifier => Some(path(b"Base", b"Anything")),
        Kind::AttributeDef | Kind::EnumDef | Kind::Datatype => Some(path(b"Base", b"DataValue")),
        Kind::Attribute | Kind::Enumeration => Some(path(b"Base", b"dataValues")),
        Kind::Feature | Kind::Reference | Kind::ConnectorEnd => Some(path(b"Base", b"things")),
        Kind::OccurrenceDef | Kind::Class => Some(path(b"Occurrences", b"Occurrence")),
        Kind::Occurrence => Some(path(b"Occurrences", b"occurrences")),
        Kind::Struct => Some(path(b"Objects", b"Object")),
        Kind::ItemDef => Some(path(b"Items", b"Item")),
        Kind::Item => Some(path(b"Items", b"items")),
        Kind::PartDef => Some(path(b"Parts", b"Part")),
        Kind::Part => Some(path(b"Parts", b"parts")),
        Kind::PortDef => Some(path(b"Ports", b"Port")),
        Kind::Port => Some(path(b"Ports", b"ports")),
        Kind::Assoc => Some(path(b"Links", b"Link")),
        Kind::Binding => Some(path(b"Links", b"selfLinks")),
        Kind::ConnectionDef => Some(path(b"Connections", b"Connection")),
        Kind::Connection => Some(path(b"Connections", b"connections")),
        Kind::InterfaceDef => Some(path(b"Interfaces", b"Interface")),
        Kind::Interface => Some(path(b"Interfaces", b"interfaces")),
        Kind::Behavior => Some(path(b"Performances", b"Performance")),
        Kind::Step => Some(path(b"Performances", b"performances")),
        Kind::Function => Some(path(b"Performances", b"Evaluation")),
        Kind::ActionDef => Some(path(b"Actions", b"Action")),
        Kind::Action => Some(path(b"Actions", b"actions")),
        Kind::CalcDef => Some(path(b"Calculations", b"Calculation")),
        Kind::Calc => Some(path(b"Calculations", b"calculations")),
        Kind::ConstraintDef => Some(path(b"Constraints", b"ConstraintCheck")),
        Kind::Constraint => Some(path(b"Constraints", b"constraintChecks")),
        Kind::RequirementDef => Some(path(b"Requirements", b"RequirementCheck")),
        Kind::Requirement => Some(path(b"Requirements", b"requirementChecks")),
    }
}

// The element that a member owns, if the member is public and no alias.
fn public_target(member: &Member) -> Option<u32>
    ensures { result ≡ public_target true member.now.visibility member.now.target }
{
    match (member.visibility, member.target) {
        (Visibility::Public, Target::Owned(element)) => Some(element),
        _ => None,
    }
}

// The element of the first public owned member of that owner that bears the name. `None` comes where
// there is no such member.
fn public_member(model: &FileModel, owner: u32, name: &[u8]) -> Option<u32>
    ensures least { result ≡ least_owned model.now.members owner name.now }
    ensures within { IfSome result (λ element. element < length model.now.elements) }
{
    for number in model.bearers(owner, name) {
        if let Some(element) = public_target(model.member(*number)) {
            return Some(element);
        }
    }
    None
}

// The element of the first public owned member of that owner that bears the name, if it is a type.
// `None` comes where there is no such member, or the first one's element is no type.
fn public_type(model: &FileModel, file: FileNo, owner: u32, name: &[u8]) -> Option<ElementNo>
    requires { model.now.file ≡ file }
    ensures led { result ≡
        option_and_then (typed model.now) (least_owned model.now.members owner name.now) }
    ensures within { IfSome result (IsIn model.now) }
{
    let index = public_member(model, owner, name)?;
    if model.element(index).kind.is_type() {
        Some(ElementNo { file, index })
    } else {
        None
    }
}

// The type to which a path leads from the roots of the library. `None` comes where the path ends early
// or at no type.
fn follow(models: &Models, path: &BasePath) -> Option<ElementNo>
    ensures led { result ≡ led_to models.now path.now }
    ensures stands { IfSome result (StandsIn models.now) }
{
    // Ranks are the order of files, so the first file with such a root member has the least one.
    let first = models.project_files();
    for rank in first..models.files() {
        let file = models.at_rank(rank);
        if let Some(model) = models.model(file) {
            if let Some(root) = public_member(model, 0, path.namespace) {
                return public_type(model, file, root, path.name);
            }
        }
    }
    None
}

// The enumeration definition that owns this element. `None` comes where the element is no enumerated
// value: it is no feature, or no enumeration definition owns it.
fn enumeration(model: &FileModel, file: FileNo, value: &Element) -> Option<ElementNo>
    requires file { model.now.file ≡ file }
    requires owner { IfSome value.now.owner (λ owner. owner < length model.now.elements) }
    ensures owner { result ≡ enumeration_of model.now value.now }
    ensures within { IfSome result (IsIn model.now) }
{
    let index = value.owner?;
    if value.kind.is_feature() && model.element(index).kind.is_enumeration() {
        Some(ElementNo { file, index })
    } else {
        None
    }
}

/// The bases that the library keeps: the elements from which others specialise by their kind alone.
pub struct Bases;

impl Bases {
    /// The base of a kind: the type of the library from which all elements of that kind specialise.
    /// `None` comes for a kind that has no base, and where the library keeps no type at its place.
    pub fn find(models: &Models, kind: Kind) -> Option<ElementNo>
        ensures base { result ≡ base_of_kind models.now kind }
        ensures stands { IfSome result (StandsIn models.now) }
    {
        follow(models, &base_path(kind)?)
    }

    /// The base of an element: of an enumerated value the enumeration definition that owns it, and
    /// of any other the base of its kind. `None` comes where `find` gives none for that kind, and
    /// never for an enumerated value.
    pub fn of(models: &Models, element: ElementNo) -> Option<ElementNo>
        requires { StandsIn models.now element }
        ensures base { result ≡ base_of models.now element }
        ensures enumerated { IfSome (enumeration_at models.now element)
            (λ owner. result ≡ Some owner) }
        ensures stands { IfSome result (StandsIn models.now) }
    {
        // The element stands there, so its file has a model.
        let model = models.model(element.file)?;
        let record = model.element(element.index);
        enumeration(model, element.file, record).or_else(|| Bases::find(models, record.kind))
    }
}
