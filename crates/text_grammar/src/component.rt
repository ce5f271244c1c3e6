//! The symbols of the grammar of component texts. `docs/LANGUAGE.md` has the productions as a person
//! reads them.

ghost use Rattle.std.specs.Prelude.{◌≡◌};
ghost use Rattle.text_grammar.specs.Component as spec;

pub use crate::component_expansions::expansion;
pub use crate::component_productions::{Production, production};
use crate::kind::{Class, Kind, Seen};
use text_lexer::{Mark, Reserved};
use values::Op;

/// A token at its place in a component text.
#[derive(Clone, Copy, Debug, Drop)]
pub enum Terminal {
    // the head
    Component,
    /// The number 1.
    Version,
    // the first word or mark of an item
    Signal,
    Memo,
    Effect,
    Resource,
    Load,
    Store,
    Cleanup,
    Area,
    If,
    Each,
    /// The `<` that opens an element.
    Less,
    TextItem,
    /// The `{` before an expression that is shown, as an item or as an attribute.
    OpenShown,
    // the rest of a declaration
    /// The name of any declaration but an area.
    NewName,
    NewArea,
    /// The resource that a load asks.
    UsedResource,
    /// The store whose rows an `each` goes through.
    UsedStore,
    /// A field that a store declares.
    NewField,
    Assign,
    After,
    /// The number of a resource.
    AfterNumber,
    Max,
    /// The most rows of a store.
    MaxNumber,
    Arrow,
    CleanupText,
    /// The `(` before a load's key.
    OpenLoadKey,
    CloseLoadKey,
    /// The `{` of an area, `if` or `each`.
    OpenBlock,
    CloseBlock,
    /// The `{` of a resource or store.
    OpenBrace,
    /// The `}` of a resource or store, and behind an expression that is shown.
    CloseBrace,
    // a key of a resource
    EmptyKey,
    TextKey,
    NumberKey,
    /// The `-` that makes a key negative.
    KeyMinus,
    NegatedKey,
    // an element
    /// The first part of a tag that opens no void element, or of one that goes on.
    OpenTag,
    /// The first part of a tag, which is a void element's unless it goes on.
    VoidTag,
    /// A `-` within the name of a tag or attribute.
    Dash,
    OpenTagPart,
    AttributeName,
    AttributePart,
    AttributeText,
    /// The `/` at the end of a void element.
    VoidSlash,
    Greater,
    ClosingTag,
    /// The first part of the tag behind `</`.
    CloseTag,
    CloseTagPart,
    /// A `}` or the end of the text where an element is still open. No text has one: whoever gives the table
    /// a meaning refuses it there as an element that is not closed.
    Closer,
    // an expression
    /// The `if` of an expression.
    ExpressionIf,
    Then,
    Else,
    EqualTo,
    LessThan,
    Plus,
    Minus,
    Star,
    Slash,
    Percent,
    /// A name that stands for its value.
    UsedName,
    Row,
    Dot,
    /// The field behind `row.`.
    RowField,
    OpenParen,
    CloseParen,
    // a literal
    EmptyLiteral,
    TextLiteral,
    NumberLiteral,
    /// The `-` that makes a literal negative.
    LiteralMinus,
    NegatedLiteral,
    // the end of the text
    End,
}

/// What a component text is made of.
#[derive(Clone, Copy, Debug, Drop)]
pub enum Rule {
    Component,
    Items,
    Pairs,
    Key,
    Fields,
    /// What stands behind the `<` of an element.
    Element,
    /// How a tag goes on behind its first part.
    OpenTagMore,
    /// What stands behind the first part of a void element's tag.
    VoidTagMore,
    VoidEnd,
    /// What stands behind the tag of an element that is not void.
    ElementRest,
    /// How an element that is not void ends.
    ElementEnd,
    CloseTagMore,
    Attributes,
    AttributeMore,
    AttributeValue,
    AssignedValue,
    Expression,
    Test,
    TestMore,
    Sum,
    SumMore,
    Term,
    TermMore,
    Atom,
    Literal,
}

/// What is made of what was read so far. No action refuses a text.
#[derive(Clone, Copy, Debug, Drop)]
pub enum Action {
    /// An expression begins, or a literal that stands in none.
    BeginExpression,
    // of an item that has no items of its own
    MakeSignal,
    MakeMemo,
    MakeEffect,
    /// The entries of a resource or a store begin.
    BeginEntries,
    /// The literal is the value of the last key, or the start of the last field.
    AddValue,
    MakeResource,
    MakeLoad,
    MakeStore,
    MakeCleanup,
    MakeText,
    MakeShown,
    // of a block or an element
    OpenArea,
    OpenIf,
    OpenEach,
    OpenElement,
    /// A void element is open until its `>`.
    OpenVoid,
    /// The innermost block or element that is open ends.
    Close,
    // of an attribute
    NameAttribute,
    MakeBare,
    MakeFixed,
    MakeShownAttribute,
    // of an expression
    MakeLiteral,
    MakeBinary(Op),
    MakeIf,
}

/// The tokens that may stand for the terminal.
#[inline(always)]
pub fn class_of(terminal: Terminal) -> Class
    ensures { result ≡ spec.class_of terminal }
{
    match terminal {
        Terminal::Component => Class::Only(Kind::Reserved(Reserved::Component)),
        Terminal::Version => Class::Only(Kind::One),
        Terminal::Signal => Class::Only(Kind::Reserved(Reserved::Signal)),
        Terminal::Memo => Class::Only(Kind::Reserved(Reserved::Memo)),
        Terminal::Effect => Class::Only(Kind::Reserved(Reserved::Effect)),
        Terminal::Resource => Class::Only(Kind::Reserved(Reserved::Resource)),
        Terminal::Load => Class::Only(Kind::Reserved(Reserved::Load)),
        Terminal::Store => Class::Only(Kind::Reserved(Reserved::Store)),
        Terminal::Cleanup => Class::Only(Kind::Reserved(Reserved::Cleanup)),
        Terminal::Area => Class::Only(Kind::Reserved(Reserved::Area)),
        Terminal::If | Terminal::ExpressionIf => Class::Only(Kind::Reserved(Reserved::If)),
        Terminal::Each => Class::Only(Kind::Reserved(Reserved::Each)),
        Terminal::Less => Class::Only(Kind::Mark(Mark::Less)),
        Terminal::TextItem
        | Terminal::CleanupText
        | Terminal::TextKey
        | Terminal::AttributeText
        | Terminal::TextLiteral => Class::Only(Kind::Text),
        Terminal::OpenShown | Terminal::OpenBlock | Terminal::OpenBrace => Class::Only(Kind::Mark(
            Mark::OpenBrace,
        )),
        Terminal::NewName
        | Terminal::NewArea
        | Terminal::UsedResource
        | Terminal::UsedStore
        | Terminal::NewField
        | Terminal::UsedName
        | Terminal::RowField => Class::AnyName,
        Terminal::Assign => Class::Only(Kind::Mark(Mark::Assign)),
        Terminal::After => Class::Only(Kind::Reserved(Reserved::After)),
        Terminal::AfterNumber
        | Terminal::MaxNumber
        | Terminal::NumberKey
        | Terminal::NegatedKey
        | Terminal::NumberLiteral
        | Terminal::NegatedLiteral => Class::AnyNumber,
        Terminal::Max => Class::Only(Kind::Reserved(Reserved::Max)),
        Terminal::Arrow => Class::Only(Kind::Mark(Mark::Arrow)),
        Terminal::OpenLoadKey | Terminal::OpenParen => Class::Only(Kind::Mark(Mark::OpenParen)),
        Terminal::CloseLoadKey | Terminal::CloseParen => Class::Only(Kind::Mark(Mark::CloseParen)),
        Terminal::CloseBlock | Terminal::CloseBrace => Class::Only(Kind::Mark(Mark::CloseBrace)),
        Terminal::EmptyKey | Terminal::EmptyLiteral => Class::Only(Kind::Reserved(Reserved::Empty)),
        Terminal::KeyMinus | Terminal::Minus | Terminal::LiteralMinus => Class::Only(Kind::Mark(
            Mark::Minus,
        )),
        Terminal::OpenTag => Class::PlainTag,
        Terminal::VoidTag => Class::VoidTag,
        Terminal::Dash => Class::Dash,
        Terminal::OpenTagPart | Terminal::AttributePart | Terminal::CloseTagPart => Class::Part,
        Terminal::AttributeName | Terminal::CloseTag => Class::AnyTag,
        Terminal::VoidSlash | Terminal::Slash => Class::Only(Kind::Mark(Mark::Slash)),
        Terminal::Greater => Class::Only(Kind::Mark(Mark::Greater)),
        Terminal::ClosingTag => Class::Only(Kind::Mark(Mark::ClosingTag)),
        Terminal::Closer => Class::Closer,
        Terminal::Then => Class::Only(Kind::Reserved(Reserved::Then)),
        Terminal::Else => Class::Only(Kind::Reserved(Reserved::Else)),
        Terminal::EqualTo => Class::Only(Kind::Mark(Mark::EqualTo)),
        Terminal::LessThan => Class::Only(Kind::Reserved(Reserved::Lt)),
        Terminal::Plus => Class::Only(Kind::Mark(Mark::Plus)),
        Terminal::Star => Class::Only(Kind::Mark(Mark::Star)),
        Terminal::Percent => Class::Only(Kind::Mark(Mark::Percent)),
        Terminal::Row => Class::Only(Kind::Reserved(Reserved::Row)),
        Terminal::Dot => Class::Only(Kind::Mark(Mark::Dot)),
        Terminal::End => Class::Only(Kind::End),
    }
}

/// Whether the token may stand for the terminal.
#[inline(always)]
pub fn matches(terminal: Terminal, token: Seen) -> bool
    ensures { result ≡ spec.matches terminal token }
{
    class_of(terminal).contains(token)
}
