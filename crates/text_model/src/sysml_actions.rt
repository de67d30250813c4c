//! Made by `tools/make_table.py`: change tools/actions, not this file.

use crate::action::{Action, Taking};
use element_store::Kind;

macro_rules! items {
    ($($item:expr,)*) => { [$($item),*] };
}

/// What each production means, by its number.
pub static SYSML_ACTIONS: [Action; 287] = items! {
    // File = ManyMember
    Action::Group,
    // Member = MaybeVis Content
    Action::Group,
    // Vis = 'public'
    Action::Group,
    // Vis = 'protected'
    Action::Group,
    // Vis = 'private'
    Action::Group,
    // Import = 'import' MaybeAll MaybeDollarColonColon NAME ImpRest ';'
    Action::Take(Taking::Import),
    // ImpRest = MaybeColonColonImpNext
    Action::Group,
    // ImpNext = NAME ImpRest
    Action::Segment,
    // ImpNext = '*' MaybeColonColonStarStar
    Action::Star,
    // ImpNext = '**'
    Action::Group,
    // Alias = 'alias' Ident 'for' QName ';'
    Action::Take(Taking::Alias),
    // Ident = MaybeLessNameGreater MaybeName
    Action::Group,
    // Note = 'doc' Ident Locale COMMENT
    Action::Element(Kind::Documentation),
    // Note = 'comment' Ident MaybeAboutQNameComma Locale COMMENT
    Action::Element(Kind::Comment),
    // Note = 'locale' STRING COMMENT
    Action::Element(Kind::Comment),
    // Note = COMMENT
    Action::Element(Kind::Comment),
    // Locale = MaybeLocaleString
    Action::Group,
    // Pack = MaybeStandard 'library' 'package' Ident Body
    Action::Element(Kind::Package),
    // Pack = 'package' Ident Body
    Action::Element(Kind::Package),
    // Body = ';'
    Action::Group,
    // Body = '{' ManyMember '}'
    Action::Group,
    // QName = MaybeDollarColonColon NAME ManyColonColonName
    Action::Group,
    // Chain = QName ManyDotName
    Action::Group,
    // Dir = 'in'
    Action::Group,
    // Dir = 'out'
    Action::Group,
    // Dir = 'inout'
    Action::Group,
    // Sub = MaybeColonGreaterQNameComma
    Action::Group,
    // SpecPart = ManySpec MaybeMultSpec
    Action::Group,
    // Spec = TypedBy QName ManyCommaQName
    Action::Take(Taking::Typing),
    // Spec = OneColonGreaterSubsets Chain ManyCommaChain
    Action::Take(Taking::Subsetting),
    // Spec = OneColonGreaterGreaterRedefines QName ManyCommaQName
    Action::Take(Taking::Redefinition),
    // Spec = OneColonColonGreaterReferences Chain
    Action::Take(Taking::ReferenceSubsetting),
    // Mult = '[' Bounds ']' MaybeOrder
    Action::Take(Taking::Bounds),
    // Mult = Order
    Action::Group,
    // Order = 'ordered' MaybeNonunique
    Action::Group,
    // Order = 'nonunique' MaybeOrdered
    Action::Group,
    // Bounds = '*'
    Action::Star,
    // Bounds = Bound MaybeDotDotStar
    Action::Group,
    // Bound = INT
    Action::Group,
    // Bound = QName
    Action::Group,
    // Value = MaybeEqualsExprDefault
    Action::Group,
    // UseHead = Ident SpecPart
    Action::Group,
    // UseTail = UseHead Value Body
    Action::Group,
    // Plain = NAME RefTail
    Action::Name,
    // Plain = NoName
    Action::Group,
    // NoName = '<' NAME '>' MaybeName RefTail
    Action::Short,
    // NoName = Spec RefTail
    Action::Group,
    // RefTail = SpecPart Value Body
    Action::Group,
    // Expr = 'if' Expr '?' Expr 'else' Expr
    Action::Level,
    // Expr = Imp
    Action::Group,
    // Imp = Or ManyImpliesOr
    Action::Level,
    // Or = Xor ManyOrXor
    Action::Level,
    // Xor = And ManyXorAnd
    Action::Level,
    // And = Eq ManyAndEq
    Action::Level,
    // Eq = Rel ManyEqualsEqualsRel
    Action::Level,
    // Rel = Sum ManyLessSum
    Action::Level,
    // Sum = Term ManyPlusTerm
    Action::Level,
    // Term = Unary ManyStarUnary
    Action::Level,
    // Unary = OneMinusPlusNot Unary
    Action::Level,
    // Unary = Prim
    Action::Group,
    // Prim = INT
    Action::Group,
    // Prim = STRING
    Action::Group,
    // Prim = 'true'
    Action::Group,
    // Prim = 'false'
    Action::Group,
    // Prim = 'null'
    Action::Group,
    // Prim = Chain
    Action::Group,
    // Prim = '(' Expr ')'
    Action::Group,
    // TypedBy = ':'
    Action::Group,
    // TypedBy = 'defined' 'by'
    Action::Group,
    // Content = Import
    Action::Group,
    // Content = Alias
    Action::Group,
    // Content = Note
    Action::Group,
    // Content = Pack
    Action::Group,
    // Content = Thing
    Action::Group,
    // Thing = 'end' P1
    Action::Element(Kind::Reference),
    // Thing = Dir P2
    Action::Element(Kind::Reference),
    // Thing = 'derived' P3
    Action::Element(Kind::Reference),
    // Thing = 'abstract' Late
    Action::Element(Kind::Reference),
    // Thing = Late
    Action::Element(Kind::Reference),
    // Thing = Connect
    Action::Element(Kind::Connection),
    // Thing = Bind
    Action::Element(Kind::Binding),
    // P1 = MaybeDir P2
    Action::Group,
    // P2 = MaybeDerived P3
    Action::Group,
    // P3 = MaybeAbstract P4
    Action::Group,
    // P4 = MaybeConstant P5
    Action::Group,
    // P5 = MaybeRef Usage
    Action::Group,
    // Late = 'constant' P5
    Action::Group,
    // Late = 'ref' Usage
    Action::Group,
    // Late = DefUse
    Action::Group,
    // Late = Plain
    Action::Group,
    // Simple = 'attribute'
    Action::Group,
    // Simple = 'occurrence'
    Action::Group,
    // Simple = 'item'
    Action::Group,
    // Simple = 'part'
    Action::Group,
    // Simple = 'port'
    Action::Group,
    // Simple = 'action'
    Action::Group,
    // Usage = Simple UseTail
    Action::Group,
    // Usage = 'enum' UseTail
    Action::Group,
    // Usage = OneConnectionInterface ConTail
    Action::Group,
    // Usage = OneCalcConstraint CalcTail
    Action::Group,
    // Usage = 'requirement' ReqTail
    Action::Group,
    // Usage = Plain
    Action::Group,
    // DefUse = Simple OneDefDefHeadBody
    Action::Group,
    // DefUse = 'enum' OneDefDefHeadEnumBody
    Action::Group,
    // DefUse = OneConnectionInterface OneDefDefHeadBody2
    Action::Group,
    // DefUse = OneCalcConstraint OneDefDefHeadCalcBody
    Action::Group,
    // DefUse = 'requirement' OneDefDefHeadReqBody
    Action::Group,
    // DefHead = Ident Sub
    Action::Group,
    // ConTail = UseHead Value MaybeConnectEnds Body
    Action::Group,
    // CalcTail = UseHead Value CalcBody
    Action::Group,
    // ReqTail = UseHead Value ReqBody
    Action::Group,
    // EnumBody = ';'
    Action::Group,
    // EnumBody = '{' ManyEnumItem '}'
    Action::Group,
    // EnumItem = MaybeVis OneNoteEnumUseTail
    Action::Group,
    // CalcBody = ';'
    Action::Group,
    // CalcBody = '{' ManyCalcItem MaybeExpr '}'
    Action::Group,
    // CalcItem = MaybeVis OneImportAliasNote
    Action::Group,
    // ReqBody = ';'
    Action::Group,
    // ReqBody = '{' ManyReqItem '}'
    Action::Group,
    // ReqItem = MaybeVis OneContentSubjectUseTail
    Action::Group,
    // ReqCon = 'constraint' CalcTail
    Action::Group,
    // ReqCon = Chain SpecPart CalcBody
    Action::Group,
    // Connect = 'connect' Ends Body
    Action::Group,
    // Ends = End 'to' End
    Action::Group,
    // Ends = '(' End ',' End ManyCommaEnd ')'
    Action::Group,
    // Bind = 'bind' End '=' End Body
    Action::Group,
    // Bind = 'binding' UseHead 'bind' End '=' End Body
    Action::Group,
    // End = MaybeBracketBoundsBracket EndName
    Action::Element(Kind::ConnectorEnd),
    // EndName = NAME EndRest
    Action::Group,
    // EndName = '$' '::' NAME ManyColonColonName ManyDotName
    Action::Group,
    // EndRest = OneColonColonGreaterReferences Chain
    Action::NamedEnd,
    // EndRest = ManyColonColonName ManyDotName
    Action::Group,
    // ManyMember = Member ManyMember
    Action::Group,
    // ManyMember = nothing
    Action::Group,
    // MaybeVis = Vis
    Action::Group,
    // MaybeVis = nothing
    Action::Group,
    // MaybeAll = 'all'
    Action::Group,
    // MaybeAll = nothing
    Action::Group,
    // MaybeDollarColonColon = '$' '::'
    Action::Group,
    // MaybeDollarColonColon = nothing
    Action::Group,
    // MaybeColonColonImpNext = '::' ImpNext
    Action::Group,
    // MaybeColonColonImpNext = nothing
    Action::Group,
    // MaybeColonColonStarStar = '::' '**'
    Action::Group,
    // MaybeColonColonStarStar = nothing
    Action::Group,
    // MaybeLessNameGreater = '<' NAME '>'
    Action::Short,
    // MaybeLessNameGreater = nothing
    Action::Group,
    // MaybeName = NAME
    Action::Name,
    // MaybeName = nothing
    Action::Group,
    // MaybeAboutQNameComma = 'about' QName ManyCommaQName
    Action::Group,
    // MaybeAboutQNameComma = nothing
    Action::Group,
    // ManyCommaQName = ',' QName ManyCommaQName
    Action::Group,
    // ManyCommaQName = nothing
    Action::Group,
    // MaybeLocaleString = 'locale' STRING
    Action::Group,
    // MaybeLocaleString = nothing
    Action::Group,
    // MaybeStandard = 'standard'
    Action::Group,
    // MaybeStandard = nothing
    Action::Group,
    // ManyColonColonName = '::' NAME ManyColonColonName
    Action::Segment,
    // ManyColonColonName = nothing
    Action::Group,
    // ManyDotName = '.' NAME ManyDotName
    Action::Step,
    // ManyDotName = nothing
    Action::Group,
    // MaybeColonGreaterQNameComma = OneColonGreaterSpecializes QName ManyCommaQName
    Action::Take(Taking::Subclass),
    // MaybeColonGreaterQNameComma = nothing
    Action::Group,
    // OneColonGreaterSpecializes = ':>'
    Action::Group,
    // OneColonGreaterSpecializes = 'specializes'
    Action::Group,
    // ManySpec = Spec ManySpec
    Action::Group,
    // ManySpec = nothing
    Action::Group,
    // MaybeMultSpec = Mult ManySpec
    Action::Group,
    // MaybeMultSpec = nothing
    Action::Group,
    // OneColonGreaterSubsets = ':>'
    Action::Group,
    // OneColonGreaterSubsets = 'subsets'
    Action::Group,
    // ManyCommaChain = ',' Chain ManyCommaChain
    Action::Group,
    // ManyCommaChain = nothing
    Action::Group,
    // OneColonGreaterGreaterRedefines = ':>>'
    Action::Group,
    // OneColonGreaterGreaterRedefines = 'redefines'
    Action::Group,
    // OneColonColonGreaterReferences = '::>'
    Action::Group,
    // OneColonColonGreaterReferences = 'references'
    Action::Group,
    // MaybeOrder = Order
    Action::Group,
    // MaybeOrder = nothing
    Action::Group,
    // MaybeNonunique = 'nonunique'
    Action::Group,
    // MaybeNonunique = nothing
    Action::Group,
    // MaybeOrdered = 'ordered'
    Action::Group,
    // MaybeOrdered = nothing
    Action::Group,
    // MaybeDotDotStar = '..' OneStarBound
    Action::Group,
    // MaybeDotDotStar = nothing
    Action::Group,
    // OneStarBound = '*'
    Action::Star,
    // OneStarBound = Bound
    Action::Group,
    // MaybeEqualsExprDefault = OneEqualsExprDefault
    Action::Group,
    // MaybeEqualsExprDefault = nothing
    Action::Group,
    // OneEqualsExprDefault = '=' Expr
    Action::Take(Taking::Value),
    // OneEqualsExprDefault = 'default' MaybeEquals Expr
    Action::Take(Taking::Value),
    // MaybeEquals = '='
    Action::Group,
    // MaybeEquals = nothing
    Action::Group,
    // ManyImpliesOr = 'implies' Or ManyImpliesOr
    Action::Tail,
    // ManyImpliesOr = nothing
    Action::Tail,
    // ManyOrXor = OneOrBar Xor ManyOrXor
    Action::Tail,
    // ManyOrXor = nothing
    Action::Tail,
    // OneOrBar = 'or'
    Action::Group,
    // OneOrBar = '|'
    Action::Group,
    // ManyXorAnd = 'xor' And ManyXorAnd
    Action::Tail,
    // ManyXorAnd = nothing
    Action::Tail,
    // ManyAndEq = OneAndAnd Eq ManyAndEq
    Action::Tail,
    // ManyAndEq = nothing
    Action::Tail,
    // OneAndAnd = 'and'
    Action::Group,
    // OneAndAnd = '&'
    Action::Group,
    // ManyEqualsEqualsRel = OneEqualsEqualsNotEquals Rel ManyEqualsEqualsRel
    Action::Tail,
    // ManyEqualsEqualsRel = nothing
    Action::Tail,
    // OneEqualsEqualsNotEquals = '=='
    Action::Group,
    // OneEqualsEqualsNotEquals = '!='
    Action::Group,
    // ManyLessSum = OneLessGreaterLessEquals Sum ManyLessSum
    Action::Tail,
    // ManyLessSum = nothing
    Action::Tail,
    // OneLessGreaterLessEquals = '<'
    Action::Group,
    // OneLessGreaterLessEquals = '>'
    Action::Group,
    // OneLessGreaterLessEquals = '<='
    Action::Group,
    // OneLessGreaterLessEquals = '>='
    Action::Group,
    // ManyPlusTerm = OnePlusMinus Term ManyPlusTerm
    Action::Tail,
    // ManyPlusTerm = nothing
    Action::Tail,
    // OnePlusMinus = '+'
    Action::Group,
    // OnePlusMinus = '-'
    Action::Group,
    // ManyStarUnary = OneStarSlashPercent Unary ManyStarUnary
    Action::Tail,
    // ManyStarUnary = nothing
    Action::Tail,
    // OneStarSlashPercent = '*'
    Action::Group,
    // OneStarSlashPercent = '/'
    Action::Group,
    // OneStarSlashPercent = '%'
    Action::Group,
    // OneMinusPlusNot = '-'
    Action::Group,
    // OneMinusPlusNot = '+'
    Action::Group,
    // OneMinusPlusNot = 'not'
    Action::Group,
    // MaybeDir = Dir
    Action::Group,
    // MaybeDir = nothing
    Action::Group,
    // MaybeDerived = 'derived'
    Action::Group,
    // MaybeDerived = nothing
    Action::Group,
    // MaybeAbstract = 'abstract'
    Action::Group,
    // MaybeAbstract = nothing
    Action::Group,
    // MaybeConstant = 'constant'
    Action::Group,
    // MaybeConstant = nothing
    Action::Group,
    // MaybeRef = 'ref'
    Action::Group,
    // MaybeRef = nothing
    Action::Group,
    // OneConnectionInterface = 'connection'
    Action::Group,
    // OneConnectionInterface = 'interface'
    Action::Group,
    // OneCalcConstraint = 'calc'
    Action::Group,
    // OneCalcConstraint = 'constraint'
    Action::Group,
    // OneDefDefHeadBody = 'def' DefHead Body
    Action::Group,
    // OneDefDefHeadBody = UseTail
    Action::Group,
    // OneDefDefHeadEnumBody = 'def' DefHead EnumBody
    Action::Group,
    // OneDefDefHeadEnumBody = UseTail
    Action::Group,
    // OneDefDefHeadBody2 = 'def' DefHead Body
    Action::Group,
    // OneDefDefHeadBody2 = ConTail
    Action::Group,
    // OneDefDefHeadCalcBody = 'def' DefHead CalcBody
    Action::Group,
    // OneDefDefHeadCalcBody = CalcTail
    Action::Group,
    // OneDefDefHeadReqBody = 'def' DefHead ReqBody
    Action::Group,
    // OneDefDefHeadReqBody = ReqTail
    Action::Group,
    // MaybeConnectEnds = 'connect' Ends
    Action::Group,
    // MaybeConnectEnds = nothing
    Action::Group,
    // ManyEnumItem = EnumItem ManyEnumItem
    Action::Group,
    // ManyEnumItem = nothing
    Action::Group,
    // OneNoteEnumUseTail = Note
    Action::Group,
    // OneNoteEnumUseTail = 'enum' UseTail
    Action::Element(Kind::Enumeration),
    // OneNoteEnumUseTail = Plain
    Action::Element(Kind::Enumeration),
    // ManyCalcItem = CalcItem ManyCalcItem
    Action::Group,
    // ManyCalcItem = nothing
    Action::Group,
    // MaybeExpr = Expr
    Action::Take(Taking::Result),
    // MaybeExpr = nothing
    Action::Group,
    // OneImportAliasNote = Import
    Action::Group,
    // OneImportAliasNote = Alias
    Action::Group,
    // OneImportAliasNote = Note
    Action::Group,
    // OneImportAliasNote = Pack
    Action::Group,
    // OneImportAliasNote = 'end' P1
    Action::Element(Kind::Reference),
    // OneImportAliasNote = Dir P2
    Action::Element(Kind::Reference),
    // OneImportAliasNote = 'derived' P3
    Action::Element(Kind::Reference),
    // OneImportAliasNote = 'abstract' Late
    Action::Element(Kind::Reference),
    // OneImportAliasNote = 'constant' P5
    Action::Element(Kind::Reference),
    // OneImportAliasNote = 'ref' Usage
    Action::Element(Kind::Reference),
    // OneImportAliasNote = DefUse
    Action::Element(Kind::Reference),
    // OneImportAliasNote = NoName
    Action::Element(Kind::Reference),
    // OneImportAliasNote = Connect
    Action::Element(Kind::Connection),
    // OneImportAliasNote = Bind
    Action::Element(Kind::Binding),
    // OneImportAliasNote = 'return' P5
    Action::Element(Kind::Reference),
    // ManyReqItem = ReqItem ManyReqItem
    Action::Group,
    // ManyReqItem = nothing
    Action::Group,
    // OneContentSubjectUseTail = Content
    Action::Group,
    // OneContentSubjectUseTail = 'subject' UseTail
    Action::Element(Kind::Reference),
    // OneContentSubjectUseTail = OneAssumeRequire ReqCon
    Action::Element(Kind::Constraint),
    // OneAssumeRequire = 'assume'
    Action::Group,
    // OneAssumeRequire = 'require'
    Action::Group,
    // ManyCommaEnd = ',' End ManyCommaEnd
    Action::Group,
    // ManyCommaEnd = nothing
    Action::Group,
    // MaybeBracketBoundsBracket = '[' Bounds ']'
    Action::Take(Taking::Bounds),
    // MaybeBracketBoundsBracket = nothing
    Action::Group,
};
