//! Made by `tools/make_table.py`: change tools/actions, not this file.

use crate::action::{Action, Taking};
use element_store::Kind;

macro_rules! items {
    ($($item:expr,)*) => { [$($item),*] };
}

/// What each production means, by its number.
pub static KERML_ACTIONS: [Action; 228] = items! {
    // File = ManyMember
    Action::Group,
    // Member = MaybeVis Content
    Action::Group,
    // Vis = 'public'
    Action::Group,
    // Vis = 'protected'
    Action::Group,
    // Vis = 'private'
    Action::Group,
    // Import = 'import' MaybeAll MaybeDollarColonColon NAME ImpRest ';'
    Action::Take(Taking::Import),
    // ImpRest = MaybeColonColonImpNext
    Action::Group,
    // ImpNext = NAME ImpRest
    Action::Segment,
    // ImpNext = '*' MaybeColonColonStarStar
    Action::Star,
    // ImpNext = '**'
    Action::Group,
    // Alias = 'alias' Ident 'for' QName ';'
    Action::Take(Taking::Alias),
    // Ident = MaybeLessNameGreater MaybeName
    Action::Group,
    // Note = 'doc' Ident Locale COMMENT
    Action::Element(Kind::Documentation),
    // Note = 'comment' Ident MaybeAboutQNameComma Locale COMMENT
    Action::Element(Kind::Comment),
    // Note = 'locale' STRING COMMENT
    Action::Element(Kind::Comment),
    // Note = COMMENT
    Action::Element(Kind::Comment),
    // Locale = MaybeLocaleString
    Action::Group,
    // Pack = MaybeStandard 'library' 'package' Ident Body
    Action::Element(Kind::Package),
    // Pack = 'package' Ident Body
    Action::Element(Kind::Package),
    // Body = ';'
    Action::Group,
    // Body = '{' ManyMember '}'
    Action::Group,
    // QName = MaybeDollarColonColon NAME ManyColonColonName
    Action::Group,
    // Chain = QName ManyDotName
    Action::Group,
    // Dir = 'in'
    Action::Group,
    // Dir = 'out'
    Action::Group,
    // Dir = 'inout'
    Action::Group,
    // Sub = MaybeColonGreaterQNameComma
    Action::Group,
    // SpecPart = ManySpec MaybeMultSpec
    Action::Group,
    // Spec = TypedBy QName ManyCommaQName
    Action::Take(Taking::Typing),
    // Spec = OneColonGreaterSubsets Chain ManyCommaChain
    Action::Take(Taking::Subsetting),
    // Spec = OneColonGreaterGreaterRedefines QName ManyCommaQName
    Action::Take(Taking::Redefinition),
    // Spec = OneColonColonGreaterReferences Chain
    Action::Take(Taking::ReferenceSubsetting),
    // Mult = '[' Bounds ']' MaybeOrder
    Action::Take(Taking::Bounds),
    // Mult = Order
    Action::Group,
    // Order = 'ordered' MaybeNonunique
    Action::Group,
    // Order = 'nonunique' MaybeOrdered
    Action::Group,
    // Bounds = '*'
    Action::Star,
    // Bounds = Bound MaybeDotDotStar
    Action::Group,
    // Bound = INT
    Action::Group,
    // Bound = QName
    Action::Group,
    // Value = MaybeEqualsExprDefault
    Action::Group,
    // UseHead = Ident SpecPart
    Action::Group,
    // UseTail = UseHead Value Body
    Action::Group,
    // Plain = NAME RefTail
    Action::Name,
    // Plain = NoName
    Action::Group,
    // NoName = '<' NAME '>' MaybeName RefTail
    Action::Short,
    // NoName = Spec RefTail
    Action::Group,
    // RefTail = SpecPart Value Body
    Action::Group,
    // Expr = 'if' Expr '?' Expr 'else' Expr
    Action::Level,
    // Expr = Imp
    Action::Group,
    // Imp = Or ManyImpliesOr
    Action::Level,
    // Or = Xor ManyOrXor
    Action::Level,
    // Xor = And ManyXorAnd
    Action::Level,
    // And = Eq ManyAndEq
    Action::Level,
    // Eq = Rel ManyEqualsEqualsRel
    Action::Level,
    // Rel = Sum ManyLessSum
    Action::Level,
    // Sum = Term ManyPlusTerm
    Action::Level,
    // Term = Unary ManyStarUnary
    Action::Level,
    // Unary = OneMinusPlusNot Unary
    Action::Level,
    // Unary = Prim
    Action::Group,
    // Prim = INT
    Action::Group,
    // Prim = STRING
    Action::Group,
    // Prim = 'true'
    Action::Group,
    // Prim = 'false'
    Action::Group,
    // Prim = 'null'
    Action::Group,
    // Prim = Chain
    Action::Group,
    // Prim = '(' Expr ')'
    Action::Group,
    // TypedBy = ':'
    Action::Group,
    // TypedBy = 'typed' 'by'
    Action::Group,
    // Content = Import
    Action::Group,
    // Content = Alias
    Action::Group,
    // Content = Note
    Action::Group,
    // Content = Pack
    Action::Group,
    // Content = 'namespace' Ident Body
    Action::Element(Kind::Namespace),
    // Content = Thing
    Action::Group,
    // Thing = Dir K1
    Action::Element(Kind::Feature),
    // Thing = 'derived' K2
    Action::Element(Kind::Feature),
    // Thing = 'abstract' KLate
    Action::Element(Kind::Feature),
    // Thing = KLate
    Action::Element(Kind::Feature),
    // K1 = MaybeDerived K2
    Action::Group,
    // K2 = MaybeAbstract K3
    Action::Group,
    // K3 = MaybeComposite K4
    Action::Group,
    // K4 = MaybeConst K5
    Action::Group,
    // K5 = MaybeEnd Feat
    Action::Group,
    // KLate = 'composite' K4
    Action::Group,
    // KLate = 'const' K5
    Action::Group,
    // KLate = 'end' Feat
    Action::Group,
    // KLate = TypeDecl
    Action::Group,
    // KLate = Feat
    Action::Group,
    // TypeDecl = TypeWord Ident Sub Body
    Action::Group,
    // TypeDecl = 'function' Ident Sub FunBody
    Action::Group,
    // TypeWord = 'type'
    Action::Group,
    // TypeWord = 'classifier'
    Action::Group,
    // TypeWord = 'class'
    Action::Group,
    // TypeWord = 'struct'
    Action::Group,
    // TypeWord = 'datatype'
    Action::Group,
    // TypeWord = 'assoc'
    Action::Group,
    // TypeWord = 'behavior'
    Action::Group,
    // Feat = 'feature' UseTail
    Action::Group,
    // Feat = 'step' UseTail
    Action::Group,
    // Feat = Plain
    Action::Group,
    // FunBody = ';'
    Action::Group,
    // FunBody = '{' ManyFunItem MaybeExpr '}'
    Action::Group,
    // FunItem = MaybeVis OneImportAliasNote
    Action::Group,
    // ManyMember = Member ManyMember
    Action::Group,
    // ManyMember = nothing
    Action::Group,
    // MaybeVis = Vis
    Action::Group,
    // MaybeVis = nothing
    Action::Group,
    // MaybeAll = 'all'
    Action::Group,
    // MaybeAll = nothing
    Action::Group,
    // MaybeDollarColonColon = '$' '::'
    Action::Group,
    // MaybeDollarColonColon = nothing
    Action::Group,
    // MaybeColonColonImpNext = '::' ImpNext
    Action::Group,
    // MaybeColonColonImpNext = nothing
    Action::Group,
    // MaybeColonColonStarStar = '::' '**'
    Action::Group,
    // MaybeColonColonStarStar = nothing
    Action::Group,
    // MaybeLessNameGreater = '<' NAME '>'
    Action::Short,
    // MaybeLessNameGreater = nothing
    Action::Group,
    // MaybeName = NAME
    Action::Name,
    // MaybeName = nothing
    Action::Group,
    // MaybeAboutQNameComma = 'about' QName ManyCommaQName
    Action::Group,
    // MaybeAboutQNameComma = nothing
    Action::Group,
    // ManyCommaQName = ',' QName ManyCommaQName
    Action::Group,
    // ManyCommaQName = nothing
    Action::Group,
    // MaybeLocaleString = 'locale' STRING
    Action::Group,
    // MaybeLocaleString = nothing
    Action::Group,
    // MaybeStandard = 'standard'
    Action::Group,
    // MaybeStandard = nothing
    Action::Group,
    // ManyColonColonName = '::' NAME ManyColonColonName
    Action::Segment,
    // ManyColonColonName = nothing
    Action::Group,
    // ManyDotName = '.' NAME ManyDotName
    Action::Step,
    // ManyDotName = nothing
    Action::Group,
    // MaybeColonGreaterQNameComma = OneColonGreaterSpecializes QName ManyCommaQName
    Action::Take(Taking::Subclass),
    // MaybeColonGreaterQNameComma = nothing
    Action::Group,
    // OneColonGreaterSpecializes = ':>'
    Action::Group,
    // OneColonGreaterSpecializes = 'specializes'
    Action::Group,
    // ManySpec = Spec ManySpec
    Action::Group,
    // ManySpec = nothing
    Action::Group,
    // MaybeMultSpec = Mult ManySpec
    Action::Group,
    // MaybeMultSpec = nothing
    Action::Group,
    // OneColonGreaterSubsets = ':>'
    Action::Group,
    // OneColonGreaterSubsets = 'subsets'
    Action::Group,
    // ManyCommaChain = ',' Chain ManyCommaChain
    Action::Group,
    // ManyCommaChain = nothing
    Action::Group,
    // OneColonGreaterGreaterRedefines = ':>>'
    Action::Group,
    // OneColonGreaterGreaterRedefines = 'redefines'
    Action::Group,
    // OneColonColonGreaterReferences = '::>'
    Action::Group,
    // OneColonColonGreaterReferences = 'references'
    Action::Group,
    // MaybeOrder = Order
    Action::Group,
    // MaybeOrder = nothing
    Action::Group,
    // MaybeNonunique = 'nonunique'
    Action::Group,
    // MaybeNonunique = nothing
    Action::Group,
    // MaybeOrdered = 'ordered'
    Action::Group,
    // MaybeOrdered = nothing
    Action::Group,
    // MaybeDotDotStar = '..' OneStarBound
    Action::Group,
    // MaybeDotDotStar = nothing
    Action::Group,
    // OneStarBound = '*'
    Action::Star,
    // OneStarBound = Bound
    Action::Group,
    // MaybeEqualsExprDefault = OneEqualsExprDefault
    Action::Group,
    // MaybeEqualsExprDefault = nothing
    Action::Group,
    // OneEqualsExprDefault = '=' Expr
    Action::Take(Taking::Value),
    // OneEqualsExprDefault = 'default' MaybeEquals Expr
    Action::Take(Taking::Value),
    // MaybeEquals = '='
    Action::Group,
    // MaybeEquals = nothing
    Action::Group,
    // ManyImpliesOr = 'implies' Or ManyImpliesOr
    Action::Tail,
    // ManyImpliesOr = nothing
    Action::Tail,
    // ManyOrXor = OneOrBar Xor ManyOrXor
    Action::Tail,
    // ManyOrXor = nothing
    Action::Tail,
    // OneOrBar = 'or'
    Action::Group,
    // OneOrBar = '|'
    Action::Group,
    // ManyXorAnd = 'xor' And ManyXorAnd
    Action::Tail,
    // ManyXorAnd = nothing
    Action::Tail,
    // ManyAndEq = OneAndAnd Eq ManyAndEq
    Action::Tail,
    // ManyAndEq = nothing
    Action::Tail,
    // OneAndAnd = 'and'
    Action::Group,
    // OneAndAnd = '&'
    Action::Group,
    // ManyEqualsEqualsRel = OneEqualsEqualsNotEquals Rel ManyEqualsEqualsRel
    Action::Tail,
    // ManyEqualsEqualsRel = nothing
    Action::Tail,
    // OneEqualsEqualsNotEquals = '=='
    Action::Group,
    // OneEqualsEqualsNotEquals = '!='
    Action::Group,
    // ManyLessSum = OneLessGreaterLessEquals Sum ManyLessSum
    Action::Tail,
    // ManyLessSum = nothing
    Action::Tail,
    // OneLessGreaterLessEquals = '<'
    Action::Group,
    // OneLessGreaterLessEquals = '>'
    Action::Group,
    // OneLessGreaterLessEquals = '<='
    Action::Group,
    // OneLessGreaterLessEquals = '>='
    Action::Group,
    // ManyPlusTerm = OnePlusMinus Term ManyPlusTerm
    Action::Tail,
    // ManyPlusTerm = nothing
    Action::Tail,
    // OnePlusMinus = '+'
    Action::Group,
    // OnePlusMinus = '-'
    Action::Group,
    // ManyStarUnary = OneStarSlashPercent Unary ManyStarUnary
    Action::Tail,
    // ManyStarUnary = nothing
    Action::Tail,
    // OneStarSlashPercent = '*'
    Action::Group,
    // OneStarSlashPercent = '/'
    Action::Group,
    // OneStarSlashPercent = '%'
    Action::Group,
    // OneMinusPlusNot = '-'
    Action::Group,
    // OneMinusPlusNot = '+'
    Action::Group,
    // OneMinusPlusNot = 'not'
    Action::Group,
    // MaybeDerived = 'derived'
    Action::Group,
    // MaybeDerived = nothing
    Action::Group,
    // MaybeAbstract = 'abstract'
    Action::Group,
    // MaybeAbstract = nothing
    Action::Group,
    // MaybeComposite = 'composite'
    Action::Group,
    // MaybeComposite = nothing
    Action::Group,
    // MaybeConst = 'const'
    Action::Group,
    // MaybeConst = nothing
    Action::Group,
    // MaybeEnd = 'end'
    Action::Group,
    // MaybeEnd = nothing
    Action::Group,
    // ManyFunItem = FunItem ManyFunItem
    Action::Group,
    // ManyFunItem = nothing
    Action::Group,
    // MaybeExpr = Expr
    Action::Take(Taking::Result),
    // MaybeExpr = nothing
    Action::Group,
    // OneImportAliasNote = Import
    Action::Group,
    // OneImportAliasNote = Alias
    Action::Group,
    // OneImportAliasNote = Note
    Action::Group,
    // OneImportAliasNote = Pack
    Action::Group,
    // OneImportAliasNote = 'namespace' Ident Body
    Action::Element(Kind::Namespace),
    // OneImportAliasNote = Dir K1
    Action::Element(Kind::Feature),
    // OneImportAliasNote = 'derived' K2
    Action::Element(Kind::Feature),
    // OneImportAliasNote = 'abstract' KLate
    Action::Element(Kind::Feature),
    // OneImportAliasNote = 'composite' K4
    Action::Element(Kind::Feature),
    // OneImportAliasNote = 'const' K5
    Action::Element(Kind::Feature),
    // OneImportAliasNote = 'end' Feat
    Action::Element(Kind::Feature),
    // OneImportAliasNote = TypeDecl
    Action::Element(Kind::Feature),
    // OneImportAliasNote = 'feature' UseTail
    Action::Element(Kind::Feature),
    // OneImportAliasNote = 'step' UseTail
    Action::Element(Kind::Feature),
    // OneImportAliasNote = NoName
    Action::Element(Kind::Feature),
    // OneImportAliasNote = 'return' Feat
    Action::Element(Kind::Feature),
};
