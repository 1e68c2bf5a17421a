// The words of a format sheet, by families.
ghost use Rattle.std.specs.Prelude.{◌≡◌, ◌≤◌};
ghost use Rattle.sheet_text.specs.Table.{base_spelling, spelling, spelled, words, width_of};

/// The words of base types.
#[derive(Clone, Copy)]
pub enum Base {
    Bool,
    Char,
    U8,
    U16,
    I16,
    U32,
    I32,
    Float,
    U64,
    I64,
    Double,
}

/// The words of types.
#[derive(Clone, Copy)]
pub enum TypeWord {
    Void,
    Base(Base),
    Rec,
    Arr,
    Alt,
}

/// The words of numbers.
#[derive(Clone, Copy)]
pub enum NumberWord {
    Lit,
    Loc,
    Add,
    Mul,
}

/// The words of truths.
#[derive(Clone, Copy)]
pub enum TruthWord {
    True,
    False,
    Bloc,
    Not,
    And,
    Or,
    Eq,
    Lt,
}

/// The words of steps.
#[derive(Clone, Copy)]
pub enum StepWord {
    Dot,
    Idx,
}

/// A word.
#[derive(Clone, Copy)]
pub enum Word {
    Type(TypeWord),
    Field,
    Number(NumberWord),
    Truth(TruthWord),
    From,
    Step(StepWord),
}

impl Base {
    /// The text of the word in a sheet.
    pub fn text(self) -> &'static str
        ensures { result.now ≡ base_spelling self }
    {
        match self {
            Base::Bool => "bool",
            Base::Char => "char",
            Base::U8 => "u8",
            Base::U16 => "u16",
            Base::I16 => "i16",
            Base::U32 => "u32",
            Base::I32 => "i32",
            Base::Float => "float",
            Base::U64 => "u64",
            Base::I64 => "i64",
            Base::Double => "double",
        }
    }

    /// How many bytes a piece of it has.
    pub fn width(self) -> u8
        ensures is { result ≡ width_of self }
        ensures few { result ≤ 8 }
    {
        match self {
            Base::Bool | Base::Char | Base::U8 => 1,
            Base::U16 | Base::I16 => 2,
            Base::U32 | Base::I32 | Base::Float => 4,
            Base::U64 | Base::I64 | Base::Double => 8,
        }
    }
}

impl Word {
    // Every word once: a table, so that each spelling stands once, in `text`.
    const ALL: [Word; 31] = [
        Word::Type(TypeWord::Base(Base::Bool)),
        Word::Type(TypeWord::Base(Base::Char)),
        Word::Type(TypeWord::Base(Base::U8)),
        Word::Type(TypeWord::Base(Base::U16)),
        Word::Type(TypeWord::Base(Base::I16)),
        Word::Type(TypeWord::Base(Base::U32)),
        Word::Type(TypeWord::Base(Base::I32)),
        Word::Type(TypeWord::Base(Base::Float)),
        Word::Type(TypeWord::Base(Base::U64)),
        Word::Type(TypeWord::Base(Base::I64)),
        Word::Type(TypeWord::Base(Base::Double)),
        Word::Type(TypeWord::Void),
        Word::Type(TypeWord::Rec),
        Word::Type(TypeWord::Arr),
        Word::Type(TypeWord::Alt),
        Word::Field,
        Word::Number(NumberWord::Lit),
        Word::Number(NumberWord::Loc),
        Word::Number(NumberWord::Add),
        Word::Number(NumberWord::Mul),
        Word::Truth(TruthWord::True),
        Word::Truth(TruthWord::False),
        Word::Truth(TruthWord::Bloc),
        Word::Truth(TruthWord::Not),
        Word::Truth(TruthWord::And),
        Word::Truth(TruthWord::Or),
        Word::Truth(TruthWord::Eq),
        Word::Truth(TruthWord::Lt),
        Word::From,
        Word::Step(StepWord::Dot),
        Word::Step(StepWord::Idx),
    ];

    /// The text of the word in a sheet.
    pub fn text(self) -> &'static str
        ensures { result.now ≡ spelling self }
    {
        match self {
            Word::Type(TypeWord::Base(base)) => base.text(),
            Word::Type(TypeWord::Void) => "void",
            Word::Type(TypeWord::Rec) => "rec",
            Word::Type(TypeWord::Arr) => "arr",
            Word::Type(TypeWord::Alt) => "alt",
            Word::Field => "fld",
            Word::Number(NumberWord::Lit) => "lit",
            Word::Number(NumberWord::Loc) => "loc",
            Word::Number(NumberWord::Add) => "add",
            Word::Number(NumberWord::Mul) => "mul",
            Word::Truth(TruthWord::True) => "true",
            Word::Truth(TruthWord::False) => "false",
            Word::Truth(TruthWord::Bloc) => "bloc",
            Word::Truth(TruthWord::Not) => "not",
            Word::Truth(TruthWord::And) => "and",
            Word::Truth(TruthWord::Or) => "or",
            Word::Truth(TruthWord::Eq) => "eq",
            Word::Truth(TruthWord::Lt) => "lt",
            Word::From => "from",
            Word::Step(StepWord::Dot) => "dot",
            Word::Step(StepWord::Idx) => "idx",
        }
    }
}

// The word that the bytes are, if they are one.
pub(crate) fn read_word(bytes: &[u8]) -> Option<Word>
    ensures { result ≡ spelled words bytes.now }
{
    Word::ALL
        .iter()
        .copied()
        .find(|w| w.text().as_bytes() == bytes)
}
