//! The symbols of the grammar of script texts. `docs/LANGUAGE.md` has the productions as a person reads
//! them.

ghost use Rattle.std.specs.Prelude.{◌≡◌};
ghost use Rattle.text_grammar.specs.Script as spec;

use crate::kind::{Class, Kind, Seen};
pub use crate::script_productions::{Production, production};
use text_lexer::{Mark, Reserved};

/// A token at its place in a script text.
#[derive(Clone, Copy, Debug, Drop)]
pub enum Terminal {
    // the first word of a part
    Phase,
    Lane,
    Set,
    Get,
    Pump,
    Dispose,
    Insert,
    Remove,
    Move,
    // a path
    /// A name in the path of a `set`.
    SetName,
    /// A name in the path of a `get`.
    GetName,
    /// A name in the path of the area of a `dispose`.
    AreaName,
    /// A name in the path of the store of an `insert`, `remove` or `move`.
    StoreName,
    Dot,
    OpenBracket,
    CloseBracket,
    /// The field of a store's row at the end of a path.
    RowField,
    // a key
    TextKey,
    NumberKey,
    /// The `-` that makes a key negative.
    KeyMinus,
    NegatedKey,
    // the rest of an operation
    Assign,
    OpenBrace,
    CloseBrace,
    /// A field that an `insert` names.
    InsertedField,
    At,
    To,
    /// The place behind `at` or `to`.
    PlaceNumber,
    // a literal
    EmptyLiteral,
    TextLiteral,
    NumberLiteral,
    /// The `-` that makes a literal negative.
    LiteralMinus,
    NegatedLiteral,
    // the end of the text
    End,
}

/// What a script text is made of.
#[derive(Clone, Copy, Debug, Drop)]
pub enum Rule {
    Script,
    Phases,
    Lanes,
    Operations,
    SetPath,
    SetPathMore,
    GetPath,
    GetPathMore,
    AreaPath,
    AreaPathMore,
    StorePath,
    StorePathMore,
    Key,
    Fields,
    /// Where an `insert` puts the row.
    InsertPlace,
    Literal,
}

/// What is made of what was read so far. No action refuses a text.
#[derive(Clone, Copy, Debug, Drop)]
pub enum Action {
    /// A path begins, at the top.
    BeginPath,
    /// The fields of an insert begin.
    BeginEntries,
    /// The literal is the value of the last field.
    AddValue,
    // of an operation
    MakeSet,
    MakeGet,
    MakePump,
    MakeDispose,
    MakeInsert,
    MakeRemove,
    MakeMove,
}

/// The tokens that may stand for the terminal.
#[inline(always)]
pub fn class_of(terminal: Terminal) -> Class
    ensures { result ≡ spec.class_of terminal }
{
    match terminal {
        Terminal::Phase => Class::Only(Kind::Reserved(Reserved::Phase)),
        Terminal::Lane => Class::Only(Kind::Reserved(Reserved::Lane)),
        Terminal::Set => Class::Only(Kind::Reserved(Reserved::Set)),
        Terminal::Get => Class::Only(Kind::Reserved(Reserved::Get)),
        Terminal::Pump => Class::Only(Kind::Reserved(Reserved::Pump)),
        Terminal::Dispose => Class::Only(Kind::Reserved(Reserved::Dispose)),
        Terminal::Insert => Class::Only(Kind::Reserved(Reserved::Insert)),
        Terminal::Remove => Class::Only(Kind::Reserved(Reserved::Remove)),
        Terminal::Move => Class::Only(Kind::Reserved(Reserved::Move)),
        Terminal::SetName
        | Terminal::GetName
        | Terminal::AreaName
        | Terminal::StoreName
        | Terminal::RowField
        | Terminal::InsertedField => Class::AnyName,
        Terminal::Dot => Class::Only(Kind::Mark(Mark::Dot)),
        Terminal::OpenBracket => Class::Only(Kind::Mark(Mark::OpenBracket)),
        Terminal::CloseBracket => Class::Only(Kind::Mark(Mark::CloseBracket)),
        Terminal::TextKey | Terminal::TextLiteral => Class::Only(Kind::Text),
        Terminal::NumberKey
        | Terminal::NegatedKey
        | Terminal::PlaceNumber
        | Terminal::NumberLiteral
        | Terminal::NegatedLiteral => Class::AnyNumber,
        Terminal::KeyMinus | Terminal::LiteralMinus => Class::Only(Kind::Mark(Mark::Minus)),
        Terminal::Assign => Class::Only(Kind::Mark(Mark::Assign)),
        Terminal::OpenBrace => Class::Only(Kind::Mark(Mark::OpenBrace)),
        Terminal::CloseBrace => Class::Only(Kind::Mark(Mark::CloseBrace)),
        Terminal::At => Class::Only(Kind::Reserved(Reserved::At)),
        Terminal::To => Class::Only(Kind::Reserved(Reserved::To)),
        Terminal::EmptyLiteral => Class::Only(Kind::Reserved(Reserved::Empty)),
        Terminal::End => Class::Only(Kind::End),
    }
}

/// Whether the token may stand for the terminal.
#[inline(always)]
pub fn matches(terminal: Terminal, token: Seen) -> bool
    ensures { result ≡ spec.matches terminal token }
{
    class_of(terminal).contains(token)
}
