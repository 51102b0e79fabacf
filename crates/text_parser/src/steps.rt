//! How statements are read that begin with a word of their own, one step after another (ECMA-262, 14).
use swc_tree_node::Kind;
use text_lexer::Mark;
use text_reader::Keyword;

/// Where a statement stands, which tells what it may be.
#[derive(Clone, Copy, PartialEq, Eq)]
pub(crate) enum Place {
    /// In a list of statements.
    Item,
    /// In the list of a case or a script, where `using` declares nothing.
    Bare,
    /// Behind a label, an `if` or an `else`: no declaration but of a function.
    Branch,
    /// In a loop or a `with`: no declaration.
    Body,
}

/// Nodes up to a brace, or to the end.
#[derive(Clone, Copy, PartialEq, Eq)]
pub(crate) enum Run {
    Statements,
    /// The statements of a function, which directives may lead.
    Body,
    /// Those of a script.
    Script,
    /// The statements of a case.
    Case,
    Cases,
}

/// One step.
#[derive(Clone, Copy)]
pub(crate) enum Step {
    Word(Keyword),
    Mark(Mark),
    /// No line may end here.
    Here,
    Expression,
    /// An expression, unless the statement ends.
    OptionalExpression,
    /// An expression, unless a punctuator stands here.
    ExpressionUnless(Mark),
    /// The right side of `of`.
    Assignment,
    /// A label, unless the statement ends.
    OptionalLabel,
    Statement(Place),
    Block,
    Run(Run),
    /// What `else` leads, if it stands here.
    Else,
    Handler,
    Finalizer,
    /// A catch parameter, if there is one.
    Parameter,
    /// `case` with its expression, or `default`.
    Test,
    End,
    /// The end of a `do`, where a semicolon is never needed.
    EndOfDo,
}

pub(crate) const BODY: &[Step] = &[
    Step::Mark(Mark::LeftBrace),
    Step::Run(Run::Body),
    Step::Mark(Mark::RightBrace),
];

pub(crate) const STATIC_BODY: &[Step] = &[
    Step::Word(Keyword::Static),
    Step::Mark(Mark::LeftBrace),
    Step::Run(Run::Statements),
    Step::Mark(Mark::RightBrace),
];

/// The rest of a `for` statement behind what it begins with.
pub(crate) const FOR: &[Step] = &[
    Step::Mark(Mark::Semicolon),
    Step::ExpressionUnless(Mark::Semicolon),
    Step::Mark(Mark::Semicolon),
    Step::ExpressionUnless(Mark::RightParen),
    Step::Mark(Mark::RightParen),
    Step::Statement(Place::Body),
];

pub(crate) const FOR_IN: &[Step] = &[
    Step::Word(Keyword::In),
    Step::Expression,
    Step::Mark(Mark::RightParen),
    Step::Statement(Place::Body),
];

pub(crate) const FOR_OF: &[Step] = &[
    Step::Word(Keyword::Of),
    Step::Assignment,
    Step::Mark(Mark::RightParen),
    Step::Statement(Place::Body),
];

const BLOCK: &[Step] = &[
    Step::Mark(Mark::LeftBrace),
    Step::Run(Run::Statements),
    Step::Mark(Mark::RightBrace),
];

const EMPTY: &[Step] = &[Step::Mark(Mark::Semicolon)];

const DEBUGGER: &[Step] = &[Step::Word(Keyword::Debugger), Step::End];

const BREAK: &[Step] = &[Step::Word(Keyword::Break), Step::OptionalLabel, Step::End];

const CONTINUE: &[Step] = &[
    Step::Word(Keyword::Continue),
    Step::OptionalLabel,
    Step::End,
];

const RETURN: &[Step] = &[
    Step::Word(Keyword::Return),
    Step::OptionalExpression,
    Step::End,
];

const THROW: &[Step] = &[
    Step::Word(Keyword::Throw),
    Step::Here,
    Step::Expression,
    Step::End,
];

const IF: &[Step] = &[
    Step::Word(Keyword::If),
    Step::Mark(Mark::LeftParen),
    Step::Expression,
    Step::Mark(Mark::RightParen),
    Step::Statement(Place::Branch),
    Step::Else,
];

const WHILE: &[Step] = &[
    Step::Word(Keyword::While),
    Step::Mark(Mark::LeftParen),
    Step::Expression,
    Step::Mark(Mark::RightParen),
    Step::Statement(Place::Body),
];

const WITH: &[Step] = &[
    Step::Word(Keyword::With),
    Step::Mark(Mark::LeftParen),
    Step::Expression,
    Step::Mark(Mark::RightParen),
    Step::Statement(Place::Body),
];

const DO_WHILE: &[Step] = &[
    Step::Word(Keyword::Do),
    Step::Statement(Place::Body),
    Step::Word(Keyword::While),
    Step::Mark(Mark::LeftParen),
    Step::Expression,
    Step::Mark(Mark::RightParen),
    Step::EndOfDo,
];

const TRY: &[Step] = &[
    Step::Word(Keyword::Try),
    Step::Block,
    Step::Handler,
    Step::Finalizer,
];

const CATCH: &[Step] = &[Step::Word(Keyword::Catch), Step::Parameter, Step::Block];

const SWITCH: &[Step] = &[
    Step::Word(Keyword::Switch),
    Step::Mark(Mark::LeftParen),
    Step::Expression,
    Step::Mark(Mark::RightParen),
    Step::Mark(Mark::LeftBrace),
    Step::Run(Run::Cases),
    Step::Mark(Mark::RightBrace),
];

const CASE: &[Step] = &[Step::Test, Step::Mark(Mark::Colon), Step::Run(Run::Case)];

/// The steps of a node of a kind.
pub(crate) fn steps_of(kind: Kind) -> &'static [Step] {
    match kind {
        Kind::BlockStmt => BLOCK,
        Kind::EmptyStmt => EMPTY,
        Kind::DebuggerStmt => DEBUGGER,
        Kind::BreakStmt => BREAK,
        Kind::ContinueStmt => CONTINUE,
        Kind::ReturnStmt => RETURN,
        Kind::ThrowStmt => THROW,
        Kind::IfStmt => IF,
        Kind::WhileStmt => WHILE,
        Kind::WithStmt => WITH,
        Kind::DoWhileStmt => DO_WHILE,
        Kind::TryStmt => TRY,
        Kind::CatchClause => CATCH,
        Kind::SwitchStmt => SWITCH,
        Kind::SwitchCase => CASE,
        _ => &[],
    }
}

/// What a statement is that begins with a word of its own.
pub(crate) fn kind_of_word(keyword: Keyword) -> Option<Kind> {
    match keyword {
        Keyword::Debugger => Some(Kind::DebuggerStmt),
        Keyword::Break => Some(Kind::BreakStmt),
        Keyword::Continue => Some(Kind::ContinueStmt),
        Keyword::Return => Some(Kind::ReturnStmt),
        Keyword::Throw => Some(Kind::ThrowStmt),
        Keyword::If => Some(Kind::IfStmt),
        Keyword::While => Some(Kind::WhileStmt),
        Keyword::With => Some(Kind::WithStmt),
        Keyword::Do => Some(Kind::DoWhileStmt),
        Keyword::Try => Some(Kind::TryStmt),
        Keyword::Switch => Some(Kind::SwitchStmt),
        _ => None,
    }
}
