//! Constructs of Python that the profile leaves out and that are told by name.

ghost use Rattle.std.specs.Prelude.{◌≡◌};
ghost use Rattle.py_constructs.specs.Construct.{construct_text};
ghost use Rattle.py_outside.specs.PlainConstructs.{plain_construct, IsNext};

/// A construct of Python outside the profile. Where several have one head, the first of these is named.
#[derive(Clone, Copy, Debug, PartialEq, Eq)]
pub enum Construct {
    /// A number with a point or an exponent.
    Float,
    /// A number with a `j` behind it.
    Imaginary,
    /// A literal of bytes.
    Bytes,
    /// A formatted text.
    FormattedText,
    /// `/` and `/=`.
    Division,
    /// `@` and `@=` between operands.
    MatrixProduct,
    Decorator,
    Lambda,
    /// A function in a block.
    NestedDefinition,
    /// A class in a block or in a class.
    NestedClass,
    StarParameter,
    StarArgument,
    /// An argument by name in a call of a method.
    MethodKeyword,
    Annotation,
    /// An assignment in a class.
    ClassAttribute,
    SeveralBases,
    ClassKeyword,
    SliceStep,
    /// A slice that is assigned to or deleted.
    SliceTarget,
    LoopElse,
    TryElse,
    Finally,
    With,
    Async,
    Await,
    Nonlocal,
    YieldExpression,
    YieldFrom,
    GeneratorExpression,
    SetComprehension,
    DictComprehension,
    /// An assignment expression.
    Walrus,
    StarImport,
    RelativeImport,
    DottedImport,
    /// An import in a block or in a class.
    NestedImport,
    NonasciiModule,
    BareRaise,
    RaiseFrom,
    ExceptTuple,
    DeleteName,
    /// Brackets as one of several targets.
    NestedTarget,
    StarredTarget,
    /// `...`
    Ellipsis,
}

impl Construct {
    /// The name by which the construct is told.
    pub fn name(self) -> &'static str
        ensures { result.now ≡ construct_text (plain_construct self) }
    {
        match self {
            Construct::Float => "float",
            Construct::Imaginary => "imaginary",
            Construct::Bytes => "bytes",
            Construct::FormattedText => "fstring",
            Construct::Division => "division",
            Construct::MatrixProduct => "matmul",
            Construct::Decorator => "decorator",
            Construct::Lambda => "lambda",
            Construct::NestedDefinition => "nested-def",
            Construct::NestedClass => "nested-class",
            Construct::StarParameter => "star-parameter",
            Construct::StarArgument => "star-argument",
            Construct::MethodKeyword => "method-keyword",
            Construct::Annotation => "annotation",
            Construct::ClassAttribute => "class-attribute",
            Construct::SeveralBases => "several-bases",
            Construct::ClassKeyword => "class-keyword",
            Construct::SliceStep => "slice-step",
            Construct::SliceTarget => "slice-target",
            Construct::LoopElse => "loop-else",
            Construct::TryElse => "try-else",
            Construct::Finally => "finally",
            Construct::With => "with",
            Construct::Async => "async",
            Construct::Await => "await",
            Construct::Nonlocal => "nonlocal",
            Construct::YieldExpression => "yield-expression",
            Construct::YieldFrom => "yield-from",
            Construct::GeneratorExpression => "generator-expression",
            Construct::SetComprehension => "set-comprehension",
            Construct::DictComprehension => "dict-comprehension",
            Construct::Walrus => "walrus",
            Construct::StarImport => "star-import",
            Construct::RelativeImport => "relative-import",
            Construct::DottedImport => "dotted-import",
            Construct::NestedImport => "nested-import",
            Construct::NonasciiModule => "nonascii-module",
            Construct::BareRaise => "bare-raise",
            Construct::RaiseFrom => "raise-from",
            Construct::ExceptTuple => "except-tuple",
            Construct::DeleteName => "del-name",
            Construct::NestedTarget => "nested-target",
            Construct::StarredTarget => "starred-target",
            Construct::Ellipsis => "ellipsis",
        }
    }

    /// The construct behind this one, in the order in which they are told.
    pub(crate) fn next(self) -> Option<Construct>
        ensures { IsNext (plain_construct self) result }
    {
        match self {
            Construct::Float => Some(Construct::Imaginary),
            Construct::Imaginary => Some(Construct::Bytes),
            Construct::Bytes => Some(Construct::FormattedText),
            Construct::FormattedText => Some(Construct::Division),
            Construct::Division => Some(Construct::MatrixProduct),
            Construct::MatrixProduct => Some(Construct::Decorator),
            Construct::Decorator => Some(Construct::Lambda),
            Construct::Lambda => Some(Construct::NestedDefinition),
            Construct::NestedDefinition => Some(Construct::NestedClass),
            Construct::NestedClass => Some(Construct::StarParameter),
            Construct::StarParameter => Some(Construct::StarArgument),
            Construct::StarArgument => Some(Construct::MethodKeyword),
            Construct::MethodKeyword => Some(Construct::Annotation),
            Construct::Annotation => Some(Construct::ClassAttribute),
            Construct::ClassAttribute => Some(Construct::SeveralBases),
            Construct::SeveralBases => Some(Construct::ClassKeyword),
            Construct::ClassKeyword => Some(Construct::SliceStep),
            Construct::SliceStep => Some(Construct::SliceTarget),
            Construct::SliceTarget => Some(Construct::LoopElse),
            Construct::LoopElse => Some(Construct::TryElse),
            Construct::TryElse => Some(Construct::Finally),
            Construct::Finally => Some(Construct::With),
            Construct::With => Some(Construct::Async),
            Construct::Async => Some(Construct::Await),
            Construct::Await => Some(Construct::Nonlocal),
            Construct::Nonlocal => Some(Construct::YieldExpression),
            Construct::YieldExpression => Some(Construct::YieldFrom),
            Construct::YieldFrom => Some(Construct::GeneratorExpression),
            Construct::GeneratorExpression => Some(Construct::SetComprehension),
            Construct::SetComprehension => Some(Construct::DictComprehension),
            Construct::DictComprehension => Some(Construct::Walrus),
            Construct::Walrus => Some(Construct::StarImport),
            Construct::StarImport => Some(Construct::RelativeImport),
            Construct::RelativeImport => Some(Construct::DottedImport),
            Construct::DottedImport => Some(Construct::NestedImport),
            Construct::NestedImport => Some(Construct::NonasciiModule),
            Construct::NonasciiModule => Some(Construct::BareRaise),
            Construct::BareRaise => Some(Construct::RaiseFrom),
            Construct::RaiseFrom => Some(Construct::ExceptTuple),
            Construct::ExceptTuple => Some(Construct::DeleteName),
            Construct::DeleteName => Some(Construct::NestedTarget),
            Construct::NestedTarget => Some(Construct::StarredTarget),
            Construct::StarredTarget => Some(Construct::Ellipsis),
            Construct::Ellipsis => None,
        }
    }
}
