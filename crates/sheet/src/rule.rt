// What the columns of a row may hold, by its word.
ghost use Rattle.std.specs.Prelude.{◌≡◌};
ghost use Rattle.sheet.specs.Rules.{family_of, rule_of, rule_one, rule_two};

use sheet_text::{NumberWord, StepWord, TruthWord, TypeWord, Word};

#[derive(Clone, Copy, PartialEq)]
pub enum Family {
    Type,
    Field,
    Number,
    Truth,
    From,
    Step,
}

/// What one column has to hold.
#[derive(Clone, Copy)]
pub enum Need {
    Blank,
    Name,
    Number,
    Climb,
    Row(Family),
    RowOrBlank(Family),
}

#[derive(Clone, Copy)]
pub struct Rule {
    pub name: Need,
    pub one: Need,
    pub two: Need,
    pub three: Need,
}

const NONE: Rule = Rule {
    name: Need::Blank,
    one: Need::Blank,
    two: Need::Blank,
    three: Need::Blank,
};

fn one(one: Need) -> Rule
    ensures { result ≡ rule_one one }
{
    Rule { one, ..NONE }
}

fn two(one: Need, two: Need) -> Rule
    ensures { result ≡ rule_two one two }
{
    Rule { one, two, ..NONE }
}

// The family of a word.
pub(crate) fn family_of(word: Word) -> Family
    ensures { result ≡ family_of word }
{
    match word {
        Word::Type(_) => Family::Type,
        Word::Field => Family::Field,
        Word::Number(_) => Family::Number,
        Word::Truth(_) => Family::Truth,
        Word::From => Family::From,
        Word::Step(_) => Family::Step,
    }
}

// The rule of a word.
pub(crate) fn rule_of(word: Word) -> Rule
    ensures { result ≡ rule_of word }
{
    match word {
        Word::Type(TypeWord::Base(_)) | Word::Type(TypeWord::Void) => NONE,
        Word::Type(TypeWord::Rec) => one(Need::RowOrBlank(Family::Field)),
        Word::Type(TypeWord::Arr) => two(Need::Row(Family::Type), Need::Row(Family::Number)),
        Word::Type(TypeWord::Alt) => Rule {
            three: Need::Row(Family::Type),
            ..two(Need::Row(Family::Truth), Need::Row(Family::Type))
        },
        Word::Field => Rule {
            name: Need::Name,
            ..two(Need::Row(Family::Type), Need::RowOrBlank(Family::Field))
        },
        Word::Number(NumberWord::Lit) => one(Need::Number),
        Word::Number(NumberWord::Loc) | Word::Truth(TruthWord::Bloc) => one(Need::Row(
            Family::From,
        )),
        Word::Truth(TruthWord::True) | Word::Truth(TruthWord::False) => NONE,
        Word::Truth(TruthWord::Not) => one(Need::Row(Family::Truth)),
        Word::Truth(TruthWord::And) | Word::Truth(TruthWord::Or) => two(
            Need::Row(Family::Truth),
            Need::Row(Family::Truth),
        ),
        Word::Number(NumberWord::Add)
        | Word::Number(NumberWord::Mul)
        | Word::Truth(TruthWord::Eq)
        | Word::Truth(TruthWord::Lt) => two(Need::Row(Family::Number), Need::Row(Family::Number)),
        Word::From => two(Need::Climb, Need::RowOrBlank(Family::Step)),
        Word::Step(StepWord::Dot) => Rule {
            name: Need::Name,
            ..one(Need::RowOrBlank(Family::Step))
        },
        Word::Step(StepWord::Idx) => two(Need::Row(Family::Number), Need::RowOrBlank(Family::Step)),
    }
}
